// The parent table of a tree: its slots, and climbs in it.
#![tactic(auto)]

mod climb;
mod slots;

pub use climb::{Climbed, climb_to, depth_of, move_kind};
pub use slots::{
    NO_PARENT, SLOTS, slot_in, slot_node, slot_of, slot_place, slot_replica, slot_sequence,
};
