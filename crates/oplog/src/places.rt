#![tactic(auto, using(crate::proofs::FieldLaws::placing))]

ghost use Rattle.std.specs.Prelude.{◌≡◌, ◌+◌, ◌≤◌, length, take, drop};
ghost use Rattle.lists.specs.Lists.{same};
ghost use Rattle.oplog.specs.Places.{place_of, InFile};

use crate::header::start_at;

// Where the op number q of replica s starts.
pub fn place(file: &[u8], s: usize, q: usize, width: usize) -> usize
    requires { InFile width file.now s q }
    ensures { (result ≡ place_of width file.now s q) × (result + width ≤ length file.now) }
{
    start_at(file, s) + width * (q - 1)
}

// Whether the bytes of the file from a place on are those of an op.
pub fn same_op(file: &[u8], at: usize, op: &[u8]) -> bool
    requires { at + length op.now ≤ length file.now }
    ensures { result ≡ same op.now (take (length op.now) (drop at file.now)) }
{
    op == &file[at..at + op.len()]
}
