#![tactic(auto, using(crate::proofs::ClimbLaws::climbing))]

ghost use Rattle.std.specs.Prelude.{◌≡◌, ◌<◌, length, option_map};
ghost use Rattle.codec.specs.Kind.{number};
ghost use Rattle.rules.specs.Tree.{slots, no_parent, depth, climb_to};
ghost use Rattle.tree.specs.Climb.{climbed_of, move_or_cycle};

use crate::slots::{SLOTS, slot_of};
use codec::Kind;

// The number of steps of a climb: up to the node where it meets the node, and else the depth of the
// parent that it began at.
#[derive(Clone, Copy, Debug, PartialEq, Eq)]
pub enum Climbed {
    Met(usize),
    Missed(usize),
}

// The depth where no climb ends.
const DEEPEST: usize = SLOTS - 1;

// Whether a parent is a node or lies below it, by a climb from the parent. It ends at the node, at
// the root, and where it leaves the table, since there it comes to no node any more. A chain would
// have to carry which of these ends came, and be no plainer.
pub fn climb_to(parents: &[u16], parent: u16, node: u16) -> Climbed
    requires { (length parents.now ≡ slots) × (node < no_parent) }
    ensures { climbed_of result ≡ climb_to parents.now parent node }
{
    let mut at = parent;
    for steps in 0..SLOTS {
        if at == node {
            return Climbed::Met(steps);
        }
        if at == 0 {
            return Climbed::Missed(steps);
        }
        match parents.get(slot_of(at)) {
            Some(above) => at = *above,
            None => return Climbed::Missed(DEEPEST),
        }
    }
    Climbed::Missed(DEEPEST)
}

// The number of steps to the root.
#[tactic(auto, using(rules::proofs::ClimbToLaws::depth_climbed))]
pub fn depth_of(parents: &[u16], node: u16) -> usize
    requires { length parents.now ≡ slots }
    ensures { result ≡ depth parents.now node }
{
    match climb_to(parents, node, 0) {
        Climbed::Met(steps) | Climbed::Missed(steps) => steps,
    }
}

// The kind of a move in a tree, or none where the new parent is the node or lies below it.
pub fn move_kind(parents: &[u16], node: u16, parent: u16) -> Option<Kind>
    requires { (length parents.now ≡ slots) × (node < no_parent) }
    ensures { option_map number result ≡ move_or_cycle parents.now node parent }
{
    match climb_to(parents, parent, node) {
        Climbed::Met(_) => None,
        Climbed::Missed(depth) => {
            if depth < depth_of(parents, node) {
                Some(Kind::Upward)
            } else {
                Some(Kind::Downward)
            }
        }
    }
}
