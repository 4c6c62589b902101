ghost use Rattle.std.specs.Prelude.{◌≡◌};
ghost use Rattle.rules.specs.File.{log_of};
ghost use Rattle.oplog.specs.Places.{Held};
ghost use Rattle.order.specs.Levels.{next_at, ready_ops, advanced};
ghost use Rattle.schedule.specs.Level.{HeldAt, later};

use codec::vector_at;
use oplog::place;
use vector::within;

// The number of replica s's next op, if it is within the cut and all that it has seen is done;
// else 0. No Option: `next` is a version vector as `done` is, which counts 0 where there is none.
#[tactic(auto, using(crate::proofs::ReadyLaws::readying))]
fn next_op(file: &[u8], cut: [u8; 8], done: [u8; 8], s: usize, width: usize) -> u8
    requires { HeldAt width file.now cut s }
    ensures { result ≡ next_at (log_of width file.now) cut done s }
{
    let held = done[s - 1];
    if cut[s - 1] <= held {
        return 0;
    }
    let q = held + 1;
    let at = place(file, s, usize::from(q), width);
    if within(vector_at(file, at), done) {
        return q;
    }
    0
}

// The number of each replica's op that is ready, or 0.
#[tactic(auto, unfolding(order::specs::Levels::ready_ops, rules::specs::Op::replicas, lists::specs::Lists::up_from))]
pub fn next_ops(file: &[u8], cut: [u8; 8], done: [u8; 8], width: usize) -> [u8; 8]
    requires { Held width file.now cut }
    ensures { result ≡ ready_ops (log_of width file.now) cut done }
{
    std::array::from_fn(|i| next_op(file, cut, done, i + 1, width))
}

#[tactic(auto, unfolding(crate::specs::Level::later))]
fn later_of(old: u8, new: u8) -> u8
    ensures { result ≡ later old new }
{
    if new == 0 {
        return old;
    }
    new
}

// What is done after a level.
#[tactic(auto, unfolding(order::specs::Levels::advanced, rules::specs::Op::replicas, lists::specs::Lists::up_from, order::specs::Levels::advanced_at, crate::specs::Level::later, rules::specs::Op::count_in))]
pub fn advance(done: [u8; 8], next: [u8; 8]) -> [u8; 8]
    ensures { result ≡ advanced done next }
{
    std::array::from_fn(|i| later_of(done[i], next[i]))
}
