ghost use Rattle.std.specs.Prelude.{◌≡◌, ◌++◌};
ghost use Rattle.rules.specs.File.{log_of};
ghost use Rattle.rules.specs.Tree.{slot};
ghost use Rattle.schedule.specs.Schedule.{scheduled};
ghost use Rattle.schedule.specs.Level.{IsReplica, Room, RoomAt, RoomIn, due_entry, class_entries, level_entries, SchedulableCut};

use crate::entries::{Entry, OPS, Schedule};
use crate::level::{classes_of, highest, lowest};
use crate::ready::{advance, next_ops};
use vector::within;

// The ops of one timestamp that are ready: the number of each replica's, and its class, or 0.
#[derive(Drop)]
struct Level {
    next: [u8; 8],
    classes: [u8; 8],
    time: u16,
}

// The slot of replica s's op q.
#[tactic(auto, unfolding(rules::specs::Tree::slot))]
fn slot_number(s: usize, q: u8) -> u16
    requires { IsReplica s }
    ensures { result ≡ slot s q }
{
    (255 * (s - 1) + usize::from(q)) as u16
}

impl Level {
    // Writes a replica's op, if it is of this class.
    #[tactic(auto, unfolding(crate::specs::Level::due_entry, rules::specs::Op::count_in))]
    fn write_due(&self, class: u8, s: usize, schedule: &mut Schedule)
        requires { RoomAt self.now.classes self.now.next self.now.time class s schedule.old }
        ensures { schedule.new
            ≡ schedule.old ++ due_entry self.now.classes self.now.next self.now.time class s }
    {
        if self.classes[s - 1] != class {
            return;
        }
        let slot = slot_number(s, self.next[s - 1]);
        let time = self.time;
        schedule.push(Entry { slot, time });
    }

    // The ops of a class, the higher replica first. None is ready below low or above high.
    #[tactic(auto, using(crate::proofs::WritingLaws::class_writing))]
    fn write_class(&self, class: u8, low: usize, high: usize, schedule: &mut Schedule)
        requires { RoomIn self.now.classes self.now.next self.now.time class low high schedule.old }
        ensures { schedule.new
            ≡ schedule.old ++ class_entries self.now.classes self.now.next self.now.time class }
    {
        for s in (low..high + 1).rev() {
            self.write_due(class, s, schedule);
        }
    }

    // All, class by class: adds, removes, upward moves, downward moves.
    #[tactic(auto, using(crate::proofs::WritingLaws::level_writing))]
    fn write(&self, schedule: &mut Schedule)
        requires { Room schedule.old
            (level_entries self.now.classes self.now.next self.now.time) }
        ensures { schedule.new
            ≡ schedule.old ++ level_entries self.now.classes self.now.next self.now.time }
    {
        let (Some(low), Some(high)) = (lowest(self.classes), highest(self.classes)) else {
            return;
        };
        for class in 1..=4u8 {
            self.write_class(class, low, high, schedule);
        }
    }
}

// Timestamps lie below.
const TIMES: u16 = OPS as u16 + 2;

// Writes the ops within a closed cut in the order of replay: level after level, until nothing is
// ready. It is lent: handed back by value, with the tables of a replay, judging 100 ops took 7 to 43 %
// longer.
#[tactic(auto, using(crate::proofs::OrderLaws::ordering))]
pub fn write_order(file: &[u8], cut: [u8; 8], schedule: &mut Schedule, width: usize)
    requires { SchedulableCut width file.now cut }
    ensures { schedule.new ≡ scheduled (log_of width file.now) cut }
{
    schedule.clear();
    let mut done = [0u8; 8];
    for time in 1..TIMES {
        let next = next_ops(file, cut, done, width);
        if within(next, [0u8; 8]) {
            return;
        }
        let classes = classes_of(file, next, width);
        let level = Level {
            next,
            classes,
            time,
        };
        level.write(schedule);
        let after = advance(done, next);
        done = after;
    }
}
