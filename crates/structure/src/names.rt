// Test 7: whether what an op or a caller names is known.
#![tactic(auto, using(crate::proofs::TestLaws::testing))]

ghost use Rattle.std.specs.Prelude.{◌≡◌};
ghost use Rattle.rules.specs.File.{log_of};
ghost use Rattle.rules.specs.Log.{known_parent};
ghost use Rattle.rules.specs.Marks.{is_known, node_within, knowledge};
ghost use Rattle.oplog.specs.Places.{Held};
ghost use Rattle.structure.specs.Tests.{move_names, names_by};

use codec::{Kind, NoKind, kind_at};
use oplog::place;

// Whether a vector counts the op of a node's replica and sequence.
#[tactic(auto, unfolding(rules::specs::Marks::node_within, rules::specs::Op::is_replica, rules::specs::Op::count_in))]
fn node_within(v: [u8; 8], n: u16) -> bool
    ensures { result ≡ node_within v n }
{
    let s = usize::from(n / 256);
    let q = usize::from(n % 256);
    (1..=8).contains(&s) && 1 <= q && q <= usize::from(v[s - 1])
}

// Whether an add within the vector made the node: marked or not, so one look-up tells.
pub fn known_in(file: &[u8], v: [u8; 8], n: u16, width: usize) -> bool
    requires { Held width file.now v }
    ensures { result ≡ is_known (knowledge (log_of width file.now) v n) }
{
    if !node_within(v, n) {
        return false;
    }
    let at = place(file, usize::from(n / 256), usize::from(n % 256), width);
    kind_at(file, at) == 1
}

// The same, or the root.
#[tactic(auto, unfolding(rules::specs::Log::known_parent))]
pub fn known_parent(file: &[u8], v: [u8; 8], n: u16, width: usize) -> bool
    requires { Held width file.now v }
    ensures { result ≡ known_parent (log_of width file.now) v n }
{
    n == 0 || known_in(file, v, n, width)
}

// Whether what a move names is known, and is not one node.
#[tactic(auto, unfolding(crate::specs::Tests::move_names))]
fn move_known(file: &[u8], v: [u8; 8], node: u16, parent: u16, width: usize) -> bool
    requires { Held width file.now v }
    ensures { result ≡ move_names (log_of width file.now) v node parent }
{
    known_in(file, v, node, width) && known_parent(file, v, parent, width) && parent != node
}

// Whether what an op names is known (number 7). Number 3 is tested before, so no op with an invalid
// kind gets here; the definition would read it as a move, so the contract speaks of any number.
#[tactic(auto, unfolding(crate::specs::Tests::names_by, crate::specs::Tests::move_names))]
pub fn names_known(
    file: &[u8],
    v: [u8; 8],
    kind: u8,
    node: u16,
    parent: u16,
    own: u16,
    width: usize,
) -> bool
    requires { Held width file.now v }
    ensures { result ≡ names_by (log_of width file.now) v kind node parent own }
{
    match Kind::try_from(kind) {
        Ok(Kind::Add) => known_parent(file, v, parent, width) && node == own,
        Ok(Kind::Remove) => known_in(file, v, node, width),
        Ok(Kind::Upward | Kind::Downward) | Err(NoKind) => {
            move_known(file, v, node, parent, width)
        }
    }
}
