#![tactic(auto, using(crate::proofs::AccessLaws::fields))]

ghost use Rattle.std.specs.Prelude.{◌≡◌, ◌+◌, ◌≤◌, length, drop};
ghost use Rattle.rules.specs.Op.{kind_of, replica_of, node_of, parent_of, vector_of};

use crate::word::word_at;
use vector::read_vector;

// The fields of the op whose bytes start at a place. Nothing else reads an op off a file, so only
// these functions know where its fields stand.
pub fn kind_at(file: &[u8], at: usize) -> u8
    requires { at + 14 ≤ length file.now }
    ensures { result ≡ kind_of (drop at file.now) }
{
    file[at]
}

pub fn replica_at(file: &[u8], at: usize) -> u8
    requires { at + 14 ≤ length file.now }
    ensures { result ≡ replica_of (drop at file.now) }
{
    file[at + 1]
}

pub fn node_at(file: &[u8], at: usize) -> u16
    requires { at + 14 ≤ length file.now }
    ensures { result ≡ node_of (drop at file.now) }
{
    word_at(file, at + 2)
}

pub fn parent_at(file: &[u8], at: usize) -> u16
    requires { at + 14 ≤ length file.now }
    ensures { result ≡ parent_of (drop at file.now) }
{
    word_at(file, at + 4)
}

pub fn vector_at(file: &[u8], at: usize) -> [u8; 8]
    requires { at + 14 ≤ length file.now }
    ensures { result ≡ vector_of (drop at file.now) }
{
    read_vector(file, at + 6)
}
