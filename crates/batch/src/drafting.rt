#![tactic(auto, using(crate::proofs::DraftCases::drafting))]

ghost use Rattle.std.specs.Prelude.{◌≡◌};
ghost use Rattle.rules.specs.File.{width, log_of};
ghost use Rattle.batch.specs.Planning.{Ground, drafted_in};

use codec::Refusal;
use issue::{Draft, draft_move, has_left};
use request::{knows_move, move_takes_work};

// What is the same for all moves of a batch: the log before it with its counts and its marks, and
// the replica and the parent.
#[derive(Clone, Copy)]
pub(crate) struct Batch<'a> {
    pub(crate) file: &'a [u8],
    pub(crate) held: [u8; 8],
    pub(crate) marks: &'a [u8],
    pub(crate) replica: u8,
    pub(crate) parent: u16,
}

// The tests 9, 7, 11 and 10 of the next move of a batch, or the op to issue. The counts and the tree
// are those that the moves before it leave; what is known of a node is what the log before the batch
// knows, since no move changes it.
pub(crate) fn draft_next(
    batch: &Batch<'_>,
    counts: [u8; 8],
    parents: &[u16],
    node: u16,
) -> Result<Draft, Refusal>
    requires { Ground batch.now parents.now }
    ensures { result
        ≡ drafted_in (log_of width batch.now.file.now) counts parents.now batch.now.replica node batch.now.parent }
{
    if !has_left(counts, batch.replica) {
        return Err(Refusal::Exhausted);
    }
    if !knows_move(batch.file, batch.held, node, batch.parent) {
        return Err(Refusal::Unknown);
    }
    if !move_takes_work(batch.file, batch.held, batch.marks, node, batch.parent) {
        return Err(Refusal::Marked);
    }
    draft_move(parents, node, batch.parent)
}
