// Tests 5 and 6: whether a vector is within the held counts, and closed. Along a replica vectors
// rise, so only counts that have changed since the vector of its op before are looked up.
#![tactic(auto, using(crate::proofs::TestLaws::testing))]

ghost use Rattle.std.specs.Prelude.{◌≡◌, ◌≤◌, ◌<◌};
ghost use Rattle.rules.specs.File.{log_of};
ghost use Rattle.rules.specs.Log.{closed_at, closed};
ghost use Rattle.rules.specs.Op.{count_in};
ghost use Rattle.oplog.specs.Places.{Held};
ghost use Rattle.structure.specs.Tests.{OpHere, vector_by, own_alone, change_closed, changes_closed, risen};

use crate::turn::Turn;
use codec::vector_at;
use oplog::{Marker, place};
use vector::{is_step, within};

// Whether a vector counts all that the last op that it counts of a replica has seen.
fn closed_at(file: &[u8], v: [u8; 8], s: usize, width: usize) -> bool
    requires { Held width file.now v × (1 ≤ s) × (s ≤ 8) }
    ensures { result ≡ closed_at (log_of width file.now) v s }
{
    let k = usize::from(v[s - 1]);
    if k == 0 {
        return true;
    }
    let at = place(file, s, k, width);
    within(vector_at(file, at), v)
}

// Whether only the own count has changed since the vector before, by one. Then the vector is closed
// and within the held counts, as the one before was.
#[tactic(auto, unfolding(crate::specs::Tests::own_alone))]
fn own_alone(before: [u8; 8], v: [u8; 8], s: usize, q: usize) -> bool
    requires { (1 ≤ s) × (s ≤ 8) × (count_in before s < 255) }
    ensures { result ≡ own_alone before v s q }
{
    1 < q && is_step(before, v, s)
}

// Whether a vector is closed at the count of another replica, if that has changed since the vector
// before.
#[tactic(auto, unfolding(crate::specs::Tests::change_closed, rules::specs::Op::count_in))]
fn change_closed(
    file: &[u8],
    before: [u8; 8],
    v: [u8; 8],
    own: usize,
    s: usize,
    width: usize,
) -> bool
    requires { Held width file.now v × (1 ≤ s) × (s ≤ 8) }
    ensures { result ≡ change_closed (log_of width file.now) before v own s }
{
    s == own || v[s - 1] == before[s - 1] || closed_at(file, v, s, width)
}

// Whether a vector is closed at every other replica's count that has changed.
fn changes_closed(file: &[u8], before: [u8; 8], v: [u8; 8], own: usize, width: usize) -> bool
    requires { Held width file.now v }
    ensures { result ≡ changes_closed (log_of width file.now) before v own }
{
    (1..9).all(|s| change_closed(file, before, v, own, s, width))
}

// Whether a vector is closed (number 6): since nothing was counted, every count above 0 has
// changed, and no replica is the own one.
pub fn closed_in(file: &[u8], v: [u8; 8], width: usize) -> bool
    requires { Held width file.now v }
    ensures { result ≡ closed (log_of width file.now) v }
{
    changes_closed(file, [0u8; 8], v, 0, width)
}

// Whether a vector is nowhere less than the one before, which its own count names, and closed at
// every other count that has changed. The op that an unchanged count names was within the vector
// before, which was closed.
#[tactic(auto, unfolding(crate::specs::Tests::risen))]
fn is_risen(file: &[u8], before: [u8; 8], v: [u8; 8], own: usize, width: usize) -> bool
    requires { Held width file.now v }
    ensures { result ≡ risen (log_of width file.now) before v own }
{
    within(before, v) && changes_closed(file, before, v, own, width)
}

// Whether the vector of the op where a turn stands has its sequence, and passes tests 5 and 6.
fn vector_passes(file: &[u8], counts: [u8; 8], turn: Turn, v: [u8; 8], width: usize) -> bool
    requires { OpHere width file.now counts turn.before turn.marker.replica turn.marker.sequence }
    ensures { result ≡ vector_by (log_of width file.now) v turn.marker.replica turn.marker.sequence }
{
    let Marker { replica, sequence } = turn.marker;
    if usize::from(v[replica - 1]) != sequence - 1 {
        return false;
    }
    within(v, counts) && is_risen(file, turn.before, v, replica, width)
}

// The same; most vectors have changed in their own count alone.
pub(crate) fn vector_sound(
    file: &[u8],
    counts: [u8; 8],
    turn: Turn,
    v: [u8; 8],
    width: usize,
) -> bool
    requires { OpHere width file.now counts turn.before turn.marker.replica turn.marker.sequence }
    ensures { result ≡ vector_by (log_of width file.now) v turn.marker.replica turn.marker.sequence }
{
    let Marker { replica, sequence } = turn.marker;
    own_alone(turn.before, v, replica, sequence) || vector_passes(file, counts, turn, v, width)
}
