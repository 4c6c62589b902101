#![tactic(auto, using(crate::proofs::IssueCases::issuing))]

ghost use Rattle.std.specs.Prelude.{◌≡◌, true, ◌+◌, ltb};
ghost use Rattle.rules.specs.File.{width, log_of};
ghost use Rattle.rules.specs.Op.{is_replica, count_in, node_number};
ghost use Rattle.rules.specs.Replay.{parents_of};
ghost use Rattle.request.specs.Requests.{request_of};
ghost use Rattle.issue.specs.Issuing.{moved_in, cleared_op, drafted, Issuer, KnownRequest, Movable, InTree};

use crate::draft::Draft;
use codec::{Kind, Refusal};
use effect::Tables;
use oplog::counts_of;
use replay::replay_all;
use request::{Request, knows, unmarked};
use soundness::WIDTH;
use tree::move_kind;

// How many ops of a replica are held.
#[tactic(auto, using(rules::proofs::ReplicaLaws::replica_low, rules::proofs::ReplicaLaws::replica_high), unfolding(rules::specs::Op::count_in))]
fn held_of(counts: [u8; 8], replica: u8) -> u8
    requires { is_replica replica ≡ true }
    ensures { result ≡ count_in counts replica }
{
    counts[usize::from(replica) - 1]
}

// Number 9: whether a replica has an op left to issue.
pub fn has_left(counts: [u8; 8], replica: u8) -> bool
    requires { is_replica replica ≡ true }
    ensures { result ≡ ltb (count_in counts replica) 255 }
{
    held_of(counts, replica) < 255
}

// The node that a replica's next op makes, if it is an add.
#[tactic(auto, using(rules::proofs::ReplicaLaws::replica_low, rules::proofs::ReplicaLaws::replica_high), unfolding(rules::specs::Op::node_number))]
fn next_node(counts: [u8; 8], replica: u8) -> u16
    requires { is_replica replica ≡ true }
    ensures { result ≡ node_number replica (count_in counts replica + 1) }
{
    256 * u16::from(replica) + u16::from(held_of(counts, replica)) + 1
}

// Number 10 of a move in a tree, or the op to issue.
pub fn draft_move(parents: &[u16], node: u16, parent: u16) -> Result<Draft, Refusal>
    requires { InTree parents.now node }
    ensures { result ≡ moved_in parents.now node parent }
{
    match move_kind(parents, node, parent) {
        None => Err(Refusal::Cycle),
        Some(kind) => Ok(Draft { kind, node, parent }),
    }
}

// The same in the present tree. Apart from its caller: an add and a remove need no room for its tables.
#[inline(never)]
fn draft_move_now(file: &[u8], node: u16, parent: u16) -> Result<Draft, Refusal>
    requires { Movable file.now node parent }
    ensures { result ≡ moved_in (parents_of (log_of width file.now)) node parent }
{
    let mut tables = Tables::new();
    replay_all(file, &mut tables, WIDTH);
    draft_move(&tables.parents, node, parent)
}

// Number 10 of a request whose names are known, and the op to issue.
fn draft_known(
    file: &[u8],
    counts: [u8; 8],
    replica: u8,
    request: Request,
) -> Result<Draft, Refusal>
    requires { KnownRequest file.now counts replica (request_of request) }
    ensures { result ≡ cleared_op (log_of width file.now) replica (request_of request) }
{
    match request {
        Request::Add(parent) => {
            let node = next_node(counts, replica);
            Ok(Draft {
                kind: Kind::Add,
                node,
                parent,
            })
        }
        Request::Remove(node) => Ok(Draft {
            kind: Kind::Remove,
            node,
            parent: 0,
        }),
        Request::Move(node, parent) => draft_move_now(file, node, parent),
    }
}

// The tests 9, 7, 11 and 10 of a request, and the op to issue.
pub(crate) fn draft(file: &[u8], replica: u8, request: Request) -> Result<Draft, Refusal>
    requires { Issuer file.now replica }
    ensures { result ≡ drafted (log_of width file.now) replica (request_of request) }
{
    let counts = counts_of(file, WIDTH);
    if !has_left(counts, replica) {
        return Err(Refusal::Exhausted);
    }
    if !knows(file, counts, request) {
        return Err(Refusal::Unknown);
    }
    if !unmarked(file, counts, request) {
        return Err(Refusal::Marked);
    }
    draft_known(file, counts, replica, request)
}
