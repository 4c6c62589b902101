ghost use Rattle.std.specs.Prelude.{◌≡◌, ◌<◌, ◌≤◌, ◌++◌, ◌∷◌, [], List, length, take};
ghost use Rattle.rules.specs.Tree.{most_ops};
ghost use Rattle.schedule.specs.declared.entries.Entry.{Entry};

use std::marker::Model;

// The most ops that a log has: 255 of each replica.
pub const OPS: usize = 2040;

// An op to be judged, by its slot, and its timestamp.
#[derive(Clone, Copy)]
pub struct Entry {
    pub slot: u16,
    pub time: u16,
}

// Ops in the order in which they are judged.
#[derive(Drop)]
pub struct Schedule {
    entries: [Entry; OPS],
    count: usize,
}

impl Model for Schedule {
    ghost Value = { List Entry };

    ghost view = { λ s. take s.count s.entries };

    ghost invariant = { λ s. s.count ≤ most_ops };
}

impl Schedule {
    // None yet.
    pub fn new() -> Self
        ensures { result ≡ [] }
    {
        Schedule {
            entries: [Entry { slot: 0, time: 0 }; OPS],
            count: 0,
        }
    }

    pub fn entries(&self) -> &[Entry]
        ensures { result.now ≡ self.now }
    {
        &self.entries[..self.count]
    }

    pub(crate) fn clear(&mut self)
        ensures { self.new ≡ [] }
    {
        self.count = 0;
    }

    // One more.
    pub(crate) fn push(&mut self, entry: Entry)
        requires { length self.old < most_ops }
        ensures { self.new ≡ self.old ++ entry ∷ [] }
    {
        self.entries[self.count] = entry;
        self.count += 1;
    }
}
