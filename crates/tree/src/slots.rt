#![tactic(auto, using(crate::proofs::SlotCases::slotting))]

ghost use Rattle.std.specs.Prelude.{◌≡◌, ◌+◌, ◌<◌, ◌≤◌, length};
ghost use Rattle.rules.specs.Tree.{slots, slot_of};
ghost use Rattle.tree.specs.Slots.{slot_in, slot_node, replica_in, sequence_in, InSlot, slot_place};

use oplog::place;

// How many slots a table has, and the parent entry of a slot without an added node. C lends the
// tables, so that entry is a number and no `Option`.
pub const SLOTS: usize = 2041;

pub const NO_PARENT: u16 = 65535;

// The slot of a node: 255 x (s - 1) + q is 256 x s + q less s and 255.
pub fn slot_of(node: u16) -> usize
    ensures { result ≡ slot_of node }
{
    if node < 256 {
        usize::from(node)
    } else {
        usize::from(node - node / 256) - 255
    }
}

// The slot of a node, and 0 for a number without one: a slot that a table always has, so that a caller
// reads its table with no case for what no sound log names. An `Option` would add that case to each.
pub fn slot_in(node: u16) -> usize
    ensures { (result ≡ slot_in node) × (result < slots) }
{
    let slot = slot_of(node);
    if slot < SLOTS { slot } else { 0 }
}

// The replica and the sequence of the op that has a slot.
pub fn slot_replica(slot: usize) -> usize
    requires { 1 ≤ slot }
    ensures { result ≡ replica_in slot }
{
    (slot - 1) / 255 + 1
}

pub fn slot_sequence(slot: usize) -> usize
    requires { 1 ≤ slot }
    ensures { result ≡ sequence_in slot }
{
    (slot - 1) % 255 + 1
}

// Where the op of a slot starts.
pub fn slot_place(file: &[u8], slot: usize, width: usize) -> usize
    requires { InSlot width file.now slot }
    ensures { (result ≡ slot_place width file.now slot) × (result + width ≤ length file.now) }
{
    place(file, slot_replica(slot), slot_sequence(slot), width)
}

// The node of a slot.
pub fn slot_node(slot: usize) -> u16
    requires { slot < slots }
    ensures { result ≡ slot_node slot }
{
    if slot == 0 {
        0
    } else {
        (256 * slot_replica(slot) + slot_sequence(slot)) as u16
    }
}
