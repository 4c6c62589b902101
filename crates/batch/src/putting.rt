#![tactic(auto, using(crate::proofs::PutCases::putting))]

ghost use Rattle.std.specs.Prelude.{◌≡◌, length};
ghost use Rattle.rules.specs.File.{width, chunks};
ghost use Rattle.codec.specs.Answers.{answer_of};
ghost use Rattle.batch.specs.Putting.{Puttable, SomeMoves, with_ops};
ghost use Rattle.batch_rules.specs.Claims.{Tested};
ghost use Rattle.batch_rules.specs.Batch as rules;

use crate::planning::plan;
use codec::Refusal;
use oplog::{append_ops, counts_of, end_of, put_front};
use soundness::WIDTH;

// The most moves of a batch, and the bytes of their ops.
pub(crate) const MOST: usize = 16;

const BYTES: usize = 224;

// Adds n ops that stand one behind the other, and puts them out.
fn put_all(buf: &mut [u8], replica: u8, ops: &[u8], n: usize, out: &mut [u8])
    requires { Puttable buf.old replica ops.now n out.old }
    ensures { (buf.new, out.new)
        ≡ with_ops buf.old out.old replica (chunks width n ops.now) }
{
    let counts = counts_of(buf, WIDTH);
    append_ops(buf, counts, usize::from(replica), ops, n, WIDTH);
    put_front(out, ops);
}

// Issues a batch of some moves: no byte of the caller's changes before all of them have passed.
fn issue_some(
    buf: &mut [u8],
    replica: u8,
    nodes: &[u16],
    parent: u16,
    ops: &mut [u8],
    out: &mut [u8],
) -> Result<usize, Refusal>
    requires { SomeMoves buf.old replica nodes.now ops.old out.old }
    ensures { record { answer = answer_of result; buffer = buf.new; out = out.new }
        ≡ rules.issue_moves width buf.old out.old replica nodes.now parent }
{
    let end = plan(buf, replica, nodes, parent, ops)?;
    put_all(buf, replica, ops, nodes.len(), out);
    Ok(end)
}

// Issues a batch at a sound log, after the tests 1, 2 and 3. An empty one writes nothing.
pub(crate) fn issue_all(
    buf: &mut [u8],
    replica: u8,
    nodes: &[u16],
    parent: u16,
    out: &mut [u8],
) -> Result<usize, Refusal>
    requires { Tested buf.old (length out.old) replica nodes.now }
    ensures { record { answer = answer_of result; buffer = buf.new; out = out.new }
        ≡ rules.issue_moves width buf.old out.old replica nodes.now parent }
{
    let n = nodes.len();
    if n == 0 {
        return Ok(end_of(buf, 8, WIDTH));
    }
    let len = WIDTH * n;
    let mut ops = [0u8; BYTES];
    issue_some(buf, replica, nodes, parent, &mut ops[..len], out)
}
