ghost use Rattle.std.specs.Prelude.{◌≡◌};
ghost use Rattle.std.specs.Option.{MatchOption};
ghost use Rattle.rules.specs.File.{log_of};
ghost use Rattle.oplog.specs.Places.{Held};
ghost use Rattle.schedule.specs.Level.{HeldAt, Highest, Lowest, Idle, class_of, class_at, classes_of};

use codec::{Kind, NoKind, kind_at};
use oplog::place;

// The class of a kind, in the order in which ops of one timestamp are judged: adds, removes,
// upward moves, downward moves. Any other kind is in none of them. A number: the definitions have the classes
// of all replicas as one vector (`classes_of`).
#[tactic(auto, unfolding(crate::specs::Level::class_of))]
fn class_of(kind: u8) -> u8
    ensures { result ≡ class_of kind }
{
    match Kind::try_from(kind) {
        Ok(Kind::Add) => 1,
        Ok(Kind::Remove) => 2,
        Ok(Kind::Upward) => 3,
        Ok(Kind::Downward) => 4,
        Err(NoKind) => 0,
    }
}

// The class of the op of a replica that is ready, or 0.
#[tactic(auto, using(crate::proofs::ClassLaws::classing), unfolding(crate::specs::Level::class_at, rules::specs::Op::count_in))]
fn class_at(file: &[u8], next: [u8; 8], s: usize, width: usize) -> u8
    requires { HeldAt width file.now next s }
    ensures { result ≡ class_at (log_of width file.now) next s }
{
    let q = usize::from(next[s - 1]);
    if q == 0 {
        return 0;
    }
    let at = place(file, s, q, width);
    class_of(kind_at(file, at))
}

// The class of each replica's op that is ready, or 0.
#[tactic(auto, unfolding(crate::specs::Level::classes_of, rules::specs::Op::replicas, lists::specs::Lists::up_from))]
pub fn classes_of(file: &[u8], next: [u8; 8], width: usize) -> [u8; 8]
    requires { Held width file.now next }
    ensures { result ≡ classes_of (log_of width file.now) next }
{
    std::array::from_fn(|i| class_at(file, next, i + 1, width))
}

// The highest replica whose op is of some class.
#[tactic(auto, unfolding(rules::specs::Op::count_in))]
pub fn highest(classes: [u8; 8]) -> Option<usize>
    ensures { MatchOption result (Idle classes) (Highest classes) }
{
    match classes.iter().rposition(|class| *class != 0) {
        Some(last) => Some(last + 1),
        None => None,
    }
}

// The lowest replica whose op is of some class.
#[tactic(auto, unfolding(rules::specs::Op::count_in))]
pub fn lowest(classes: [u8; 8]) -> Option<usize>
    ensures { MatchOption result (Idle classes) (Lowest classes) }
{
    match classes.iter().position(|class| *class != 0) {
        Some(first) => Some(first + 1),
        None => None,
    }
}
