#![tactic(auto, using(crate::proofs::PlanCases::planning))]

ghost use Rattle.std.specs.Prelude.{◌≡◌, ◌<◌, length, set};
ghost use Rattle.rules.specs.File.{width, log_of};
ghost use Rattle.rules.specs.Tree.{slot_of};
ghost use Rattle.codec.specs.Answers.{answer_of};
ghost use Rattle.batch.specs.Planning.{Drawable, Plannable, Planned, Prepared, Turn};
ghost use Rattle.batch.specs.Planning.{drafted_in, next_by, put_next};

use crate::drafting::{Batch, draft_next};
use codec::{Refusal, write_op};
use effect::Tables;
use issue::Draft;
use marks::mark_ops;
use oplog::{counts_of, end_of, with_more};
use replay::replay_all;
use soundness::WIDTH;
use tree::{SLOTS, slot_of};

// Hangs a node under a parent.
fn hang(parents: &mut [u16], node: u16, parent: u16)
    requires { slot_of node < length parents.old }
    ensures { parents.new ≡ set parents.old (slot_of node) parent }
{
    let slot = slot_of(node);
    parents[slot] = parent;
}

// The last test of a move, 8; where it passes, the op is written and its node is hung.
fn put_next(
    size: usize,
    end: usize,
    counts: [u8; 8],
    replica: u8,
    draft: Draft,
    parents: &mut [u16],
    op: &mut [u8],
) -> Result<usize, Refusal>
    requires { Drawable parents.old op.old draft end size }
    ensures { record { answer = answer_of result; tree = parents.new; op = op.new }
        ≡ put_next size end counts replica parents.old op.old draft }
{
    if size - end < WIDTH {
        return Err(Refusal::NoRoom);
    }
    let node = draft.node;
    let parent = draft.parent;
    let kind = u8::from(draft.kind);
    write_op(op, kind, replica, node, parent, counts);
    hang(parents, node, parent);
    Ok(end + WIDTH)
}

// The next move of a batch: its tests in the tree that those before it leave, its op, and the tree
// after it.
fn plan_next(
    batch: &Batch<'_>,
    counts: [u8; 8],
    end: usize,
    parents: &mut [u16],
    node: u16,
    op: &mut [u8],
) -> Result<usize, Refusal>
    requires { Turn batch.now end parents.old op.old }
    ensures { record { answer = answer_of result; tree = parents.new; op = op.new }
        ≡ next_by (length batch.now.file.now) end counts batch.now.replica parents.old op.old
        (drafted_in (log_of width batch.now.file.now) counts parents.old batch.now.replica node batch.now.parent) }
{
    let size = batch.file.len();
    let draft = draft_next(batch, counts, parents, node)?;
    put_next(size, end, counts, batch.replica, draft, parents, op)
}

// The moves in turn, until one is refused. The tree is carried along.
fn plan_all(
    batch: &Batch<'_>,
    parents: &mut [u16],
    nodes: &[u16],
    ops: &mut [u8],
) -> Result<usize, Refusal>
    requires { Prepared batch.now parents.old nodes.now ops.old }
    ensures { Planned batch.now.file.now batch.now.replica nodes.now batch.now.parent (answer_of result) ops.new }
{
    let start = end_of(batch.file, 8, WIDTH);
    let s = usize::from(batch.replica);
    for (i, node) in nodes.iter().enumerate() {
        let at = WIDTH * i;
        let to = at + WIDTH;
        let counts = with_more(batch.held, s, i);
        plan_next(batch, counts, start + at, parents, *node, &mut ops[at..to])?;
    }
    Ok(start + WIDTH * nodes.len())
}

// Plans a batch at a sound log: its ops, or the first refusal. The log is judged once, and its marks
// are looked up once.
#[tactic(auto, using(crate::proofs::PutCases::putting))]
pub(crate) fn plan(
    file: &[u8],
    replica: u8,
    nodes: &[u16],
    parent: u16,
    ops: &mut [u8],
) -> Result<usize, Refusal>
    requires { Plannable file.now replica nodes.now ops.old }
    ensures { Planned file.now replica nodes.now parent (answer_of result) ops.new }
{
    let held = counts_of(file, WIDTH);
    let mut marks = [0u8; SLOTS];
    mark_ops(file, &mut marks);
    let mut tables = Tables::new();
    replay_all(file, &mut tables, WIDTH);
    let batch = Batch {
        file,
        held,
        marks: &marks,
        replica,
        parent,
    };
    plan_all(&batch, &mut tables.parents, nodes, ops)
}
