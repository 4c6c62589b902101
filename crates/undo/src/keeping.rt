ghost use Rattle.std.specs.Prelude.{◌≡◌, ◌<◌};
ghost use Rattle.rules.specs.File.{log_of};
ghost use Rattle.rules.specs.Op.{node_of};
ghost use Rattle.rules.specs.Tree.{slot_of, slots};
ghost use Rattle.order.specs.Undo.{step_keeping, undo, unjudged};
ghost use Rattle.tree.specs.Slots.{op_in};
ghost use Rattle.schedule.specs.Schedule.{stamped_of};
ghost use Rattle.effect.specs.Effects.{Applicable};
ghost use Rattle.undo.specs.Tables.{undoable_of};

use codec::node_at;
use effect::Tables;
use replay::start;
use schedule::Entry;
use tree::{SLOTS, slot_of, slot_place};

// The tables of a replay that can be taken back. For the slot of each op that was judged two more
// keep what its node had before: its parent, and the time of the move that placed it.
#[derive(Drop)]
pub struct Undoable {
    pub tables: Tables,
    took: [u16; SLOTS],
    was: [u16; SLOTS],
}

// The slot of the node that the op of an entry names.
#[tactic(auto, using(crate::proofs::KeepLaws::named_is, crate::proofs::KeepLaws::named_small))]
fn named_slot(file: &[u8], entry: Entry, width: usize) -> usize
    requires { Applicable width file.now entry }
    ensures { (result ≡ slot_of (node_of (op_in (log_of width file.now) entry.slot)))
        × (result < slots) }
{
    let at = slot_place(file, entry.slot as usize, width);
    slot_of(node_at(file, at))
}

impl Undoable {
    // No op is judged.
    #[tactic(auto, unfolding(order::specs::Undo::unjudged))]
    pub fn new() -> Self
        ensures { undoable_of result ≡ unjudged }
    {
        let mut tables = Tables::new();
        start(&mut tables);
        Undoable {
            tables,
            took: [0; SLOTS],
            was: [0; SLOTS],
        }
    }

    // Judges the op of an entry, and keeps what it may overwrite.
    #[tactic(auto, using(crate::proofs::KeepLaws::keeping), unfolding(order::specs::Undo::step_keeping, schedule::specs::Schedule::stamped_of))]
    pub(crate) fn keep(&mut self, file: &[u8], entry: Entry, width: usize)
        requires { Applicable width file.now entry }
        ensures { undoable_of self.new
            ≡ step_keeping (undoable_of self.old) (stamped_of (log_of width file.now) entry) }
    {
        let slot = entry.slot as usize;
        let named = named_slot(file, entry, width);
        self.took[slot] = self.tables.parents[named];
        self.was[slot] = self.tables.placed[named];
        self.tables.apply(file, entry, width);
    }

    // Takes back the op of an entry, which was judged last.
    #[tactic(auto, using(crate::proofs::KeepLaws::keeping), unfolding(order::specs::Undo::undo))]
    pub(crate) fn undo(&mut self, file: &[u8], entry: Entry, width: usize)
        requires { Applicable width file.now entry }
        ensures { undoable_of self.new
            ≡ undo (undoable_of self.old) (op_in (log_of width file.now) entry.slot) }
    {
        let slot = entry.slot as usize;
        let named = named_slot(file, entry, width);
        self.tables.parents[named] = self.took[slot];
        self.tables.placed[named] = self.was[slot];
        self.tables.outcomes[slot] = 0;
        self.took[slot] = 0;
        self.was[slot] = 0;
    }
}
