ghost use Rattle.std.specs.Prelude.{◌≡◌, length};
ghost use Rattle.rules.specs.File.{log_of};
ghost use Rattle.order.specs.Undo.{replay_keeping};
ghost use Rattle.undo.specs.Tables.{ops_along, undoable_of};
ghost use Rattle.undo.specs.Carried.{Carriable, FirstBeyond, Slots};

use crate::along::counts;
use crate::keeping::Undoable;
use schedule::Entry;

// The first place of entries whose op a cut does not count, and their number where it counts all.
pub fn first_beyond(entries: &[Entry], cut: [u8; 8]) -> usize
    requires { Slots entries.now }
    ensures { FirstBeyond cut entries.now result }
{
    match entries.iter().position(|entry| !counts(cut, *entry)) {
        Some(place) => place,
        None => entries.len(),
    }
}

impl Undoable {
    // Carries the replay of one cut on to another, along the rest of an order that has both: what
    // the first counts there is taken back, and what the second counts there is judged. Before
    // that rest they count the same ops. Answers how many ops it took back.
    pub fn carry(
        &mut self,
        file: &[u8],
        before: [u8; 8],
        after: [u8; 8],
        rest: &[Entry],
        width: usize,
    ) -> usize
        requires { Carriable width file.now before after rest.now (undoable_of self.old) }
        ensures { (undoable_of self.new ≡ replay_keeping (log_of width file.now) after)
            × (result ≡ length (ops_along (log_of width file.now) before rest.now)) }
    {
        let taken = self.take_back(file, before, rest, width);
        self.judge_along(file, after, rest, width);
        taken
    }
}
