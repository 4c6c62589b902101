ghost use Rattle.std.specs.Prelude.{◌≡◌, length};
ghost use mathlib.Core.List.{foldl};
ghost use Rattle.rules.specs.File.{log_of};
ghost use Rattle.order.specs.Undo.{IsSlot, step_keeping, take_back};
ghost use Rattle.replay.specs.Tables.{Along};
ghost use Rattle.undo.specs.Tables.{ops_along, slot_counted, timed_along, undoable_of};

use crate::keeping::Undoable;
use schedule::Entry;
use tree::{slot_replica, slot_sequence};

// Whether a cut counts the op of an entry.
#[tactic(auto, unfolding(crate::specs::Tables::slot_counted, rules::specs::Op::count_in))]
pub(crate) fn counts(cut: [u8; 8], entry: Entry) -> bool
    requires { IsSlot entry.slot }
    ensures { result ≡ slot_counted cut entry.slot }
{
    let slot = entry.slot as usize;
    let index = slot_replica(slot) - 1;
    slot_sequence(slot) <= usize::from(cut[index])
}

// Both ways are loops of their own: a closure over the tables would have to change what it captures,
// of which a proof then knows nothing.
impl Undoable {
    // Judges what a cut counts along entries.
    pub fn judge_along(&mut self, file: &[u8], cut: [u8; 8], entries: &[Entry], width: usize)
        requires { Along width file.now entries.now }
        ensures { undoable_of self.new
            ≡ foldl step_keeping (undoable_of self.old)
            (timed_along (log_of width file.now) cut entries.now) }
    {
        for entry in entries {
            if counts(cut, *entry) {
                self.keep(file, *entry, width);
            }
        }
    }

    // Takes back what a cut counts along entries, the last first, and answers how many ops these are.
    pub(crate) fn take_back(
        &mut self,
        file: &[u8],
        cut: [u8; 8],
        entries: &[Entry],
        width: usize,
    ) -> usize
        requires { Along width file.now entries.now }
        ensures { (undoable_of self.new
            ≡ take_back (undoable_of self.old)
            (ops_along (log_of width file.now) cut entries.now))
            × (result ≡ length (ops_along (log_of width file.now) cut entries.now)) }
    {
        let mut taken: usize = 0;
        for entry in entries.iter().rev() {
            if counts(cut, *entry) {
                self.undo(file, *entry, width);
                taken += 1;
            }
        }
        taken
    }
}
