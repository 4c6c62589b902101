#![tactic(auto, using(crate::proofs::MarkingCases::marking))]

ghost use Rattle.std.specs.Prelude.{◌≡◌, length};
ghost use Rattle.rules.specs.File.{width, log_of};
ghost use Rattle.rules.specs.Tree.{slots};
ghost use Rattle.marks.specs.Marking.{Markable, mark, marks_of};

use codec::{Kind, NoKind, kind_at, node_at};
use oplog::end_of;
use soundness::WIDTH;
use tree::slot_in;

// The effect of an op on the marks: a remove marks its node.
fn mark_op(op: &[u8], marks: &mut [u8])
    requires { (length op.now ≡ width) × (length marks.old ≡ slots) }
    ensures { marks.new ≡ mark marks.old op.now }
{
    match Kind::try_from(kind_at(op, 0)) {
        Ok(Kind::Remove) => marks[slot_in(node_at(op, 0))] = 1,
        Ok(Kind::Add | Kind::Upward | Kind::Downward) | Err(NoKind) => {}
    }
}

// Marks every node that an op of a sound log removes. A mark is a byte: the definition (`marks_of`) is a list
// of numbers, which the skipping view takes for what is hidden.
pub fn mark_ops(file: &[u8], marks: &mut [u8])
    requires { Markable file.now marks.old }
    ensures { marks.new ≡ marks_of (log_of width file.now) }
{
    let end = end_of(file, 8, WIDTH);
    for op in file[32..end].chunks_exact(WIDTH) {
        mark_op(op, marks);
    }
}
