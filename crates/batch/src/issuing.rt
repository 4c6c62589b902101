#![tactic(auto, using(crate::proofs::TestCases::testing))]

ghost use Rattle.std.specs.Prelude.{◌≡◌, true};
ghost use Rattle.rules.specs.File.{width};
ghost use Rattle.rules.specs.Sound.{sound};
ghost use Rattle.codec.specs.Answers.{answer_of};
ghost use Rattle.batch_rules.specs.Batch.{batch_fits};
ghost use Rattle.batch_rules.specs.Batch as rules;

use crate::putting::{MOST, issue_all};
use codec::{Refusal, is_replica};
use soundness::{WIDTH, is_sound};

// Number 2: few enough nodes, and bytes for an op of each.
fn fits(n: usize, room: usize) -> bool
    ensures { result ≡ batch_fits width n room }
{
    if MOST < n {
        return false;
    }
    WIDTH * n <= room
}

// Issues a batch at a sound log: the tests from 2 on.
fn issue_sound(
    buf: &mut [u8],
    replica: u8,
    nodes: &[u16],
    parent: u16,
    out: &mut [u8],
) -> Result<usize, Refusal>
    requires { sound width buf.old ≡ true }
    ensures { record { answer = answer_of result; buffer = buf.new; out = out.new }
        ≡ rules.issue_moves width buf.old out.old replica nodes.now parent }
{
    if !fits(nodes.len(), out.len()) {
        return Err(Refusal::Length);
    }
    if !is_replica(replica) {
        return Err(Refusal::Malformed);
    }
    issue_all(buf, replica, nodes, parent, out)
}

// Issues moves of nodes to one parent, in the order of the list. Each is tested in the tree that
// those before it leave; if one is refused, its number is the answer, and nothing changes. The set
// is whole at issue only: later on each move has an outcome of its own.
pub fn issue_moves(
    buf: &mut [u8],
    replica: u8,
    nodes: &[u16],
    parent: u16,
    out: &mut [u8],
) -> Result<usize, Refusal>
    ensures { record { answer = answer_of result; buffer = buf.new; out = out.new }
        ≡ rules.issue_moves width buf.old out.old replica nodes.now parent }
{
    if !is_sound(buf) {
        return Err(Refusal::Unsound);
    }
    issue_sound(buf, replica, nodes, parent, out)
}
