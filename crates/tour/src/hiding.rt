ghost use Rattle.std.specs.Prelude.{◌≡◌, ◌-◌};
ghost use mathlib.Core.List.{foldl};
ghost use Rattle.lists.specs.Lists.{up_from};
ghost use Rattle.rules.specs.Tree.{slots};
ghost use Rattle.tour.specs.Asked.{RevealSized, HidingSized, HidingAt};
ghost use Rattle.tour.specs.Tables as tables;

use tree::{NO_PARENT, SLOTS, slot_in, slot_node};

// Shows a node and what is above it, up to the first that is shown already: what is above that
// one was shown with it. The turns are bounded and their number is not used; a chain would have to carry the
// node, and be no plainer.
fn reveal(parents: &[u16], hidden: &mut [u8], node: u16)
    requires { RevealSized parents.now hidden.old }
    ensures { hidden.new ≡ tables.reveal slots parents.now hidden.old node }
{
    let mut at = node;
    for i in 0..SLOTS {
        let slot = slot_in(at);
        if hidden[slot] == 0 {
            return;
        }
        hidden[slot] = 0;
        at = parents[slot];
    }
}

// Shows the node of a slot, if there is one and it is unmarked.
fn reveal_slot(parents: &[u16], marks: &[u8], hidden: &mut [u8], slot: usize)
    requires { HidingAt parents.now marks.now hidden.old slot }
    ensures { hidden.new
        ≡ tables.reveal_slot parents.now marks.now hidden.old slot }
{
    if parents[slot] == NO_PARENT {
        return;
    }
    if marks[slot] != 0 {
        return;
    }
    reveal(parents, hidden, slot_node(slot));
}

// Shows every unmarked node and what is above it. No node is shown twice, so all climbs together
// are linear.
pub fn reveal_all(parents: &[u16], marks: &[u8], hidden: &mut [u8])
    requires { HidingSized parents.now marks.now hidden.old }
    ensures { hidden.new
        ≡ foldl (tables.reveal_slot parents.now marks.now) hidden.old (up_from 1 (slots - 1)) }
{
    for slot in 1..SLOTS {
        reveal_slot(parents, marks, hidden, slot);
    }
}
