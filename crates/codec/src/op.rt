#![tactic(auto, using(crate::proofs::ReadLaws::reading))]

ghost use Rattle.std.specs.Prelude.{◌≡◌, ◌++◌, ◌+◌, ◌≤◌, length, take, drop};
ghost use Rattle.rules.specs.Issue.{op_bytes};
ghost use Rattle.codec.specs.Asked.{kind_fits, Origin};
ghost use Rattle.codec.specs.Read.{read_of};
ghost use Rattle.rules.specs.Op.{is_replica, own_count};

use crate::answer::Refusal;
use crate::field::{kind_at, node_at, parent_at, replica_at};
use crate::kind::{Kind, NoKind};
use crate::word::put_word;

// The fields of an op but its vector, which is read off its bytes where a test needs it. The kind is
// a number, as the theorem that an issued op reads back has it (`IssuedReadsBack`).
#[derive(Clone, Copy, Debug, PartialEq, Eq)]
pub struct Fields {
    pub kind: u8,
    pub replica: u8,
    pub sequence: u8,
    pub node: u16,
    pub parent: u16,
}

// Whether a number is a replica's.
#[tactic(auto, unfolding(rules::specs::Op::is_replica))]
pub fn is_replica(s: u8) -> bool
    ensures { result ≡ is_replica s }
{
    (1..=8).contains(&s)
}

// Whether a kind can stand with a parent: a remove has parent 0. Any number may be asked, as any byte may be read.
pub fn kind_fits(kind: u8, parent: u16) -> bool
    ensures { result ≡ kind_fits kind parent }
{
    match Kind::try_from(kind) {
        Ok(Kind::Remove) => parent == 0,
        Ok(Kind::Add | Kind::Upward | Kind::Downward) => true,
        Err(NoKind) => false,
    }
}

// The origin's own count in the vector of an op.
fn own_count(bytes: &[u8], replica: u8) -> u8
    requires { Origin bytes.now replica }
    ensures { result ≡ own_count bytes.now }
{
    bytes[5 + usize::from(replica)]
}

// Reads an op of a width off its bytes: numbers 2 and 3.
pub fn read_op(bytes: &[u8], width: usize) -> Result<Fields, Refusal>
    requires { 14 ≤ width }
    ensures { result ≡ read_of width bytes.now }
{
    if bytes.len() != width {
        return Err(Refusal::Length);
    }
    let replica = replica_at(bytes, 0);
    if !is_replica(replica) {
        return Err(Refusal::Malformed);
    }
    let own = own_count(bytes, replica);
    if 254 < own {
        return Err(Refusal::Malformed);
    }
    let kind = kind_at(bytes, 0);
    let parent = parent_at(bytes, 0);
    if !kind_fits(kind, parent) {
        return Err(Refusal::Malformed);
    }
    Ok(Fields {
        kind,
        replica,
        sequence: own + 1,
        node: node_at(bytes, 0),
        parent,
    })
}

// Writes an op of 14 bytes to the front of lent bytes. It promises so for any number as its kind.
pub fn write_op(out: &mut [u8], kind: u8, replica: u8, node: u16, parent: u16, vector: [u8; 8])
    requires { 14 ≤ length out.old }
    ensures { out.new ≡ op_bytes kind replica node parent vector ++ drop 14 out.old }
{
    out[0] = kind;
    out[1] = replica;
    put_word(out, 2, node);
    put_word(out, 4, parent);
    out[6..14].copy_from_slice(&vector);
}
