#![tactic(auto, using(crate::proofs::TestLaws::testing))]

ghost use Rattle.std.specs.Prelude.{◌≡◌, ◌≤◌};
ghost use Rattle.rules.specs.File.{log_of, header_counts};
ghost use Rattle.rules.specs.Log.{sound_log, laid};
ghost use Rattle.oplog.specs.Places.{Held, Stands, place_of};
ghost use Rattle.structure.specs.Tests.{LaidOut, OpHere, Before, passes_by, sound_at, sound_here};
ghost use Rattle.rules.specs.Log as log;

use crate::closed::vector_sound;
use crate::names::names_known;
use crate::turn::Turn;
use codec::{kind_at, kind_fits, node_at, parent_at, replica_at, vector_at};
use oplog::{Marker, counts_of, end_of, header_right};

// Whether an op passes tests 3 and 7, by its fields.
#[tactic(auto, unfolding(crate::specs::Tests::passes_by))]
fn passes(file: &[u8], v: [u8; 8], kind: u8, node: u16, parent: u16, own: u16, width: usize) -> bool
    requires { Held width file.now v }
    ensures { result ≡ passes_by (log_of width file.now) v kind node parent own }
{
    kind_fits(kind, parent) && names_known(file, v, kind, node, parent, own, width)
}

// Whether the body where a turn stands is a sound op: its own replica and sequence, and tests 3, 5, 6
// and 7.
fn op_sound(file: &[u8], counts: [u8; 8], turn: Turn, width: usize) -> bool
    requires { OpHere width file.now counts turn.before turn.marker.replica turn.marker.sequence
        × (turn.at ≡ place_of width file.now turn.marker.replica turn.marker.sequence) }
    ensures { result ≡ sound_at (log_of width file.now) turn.marker.replica turn.marker.sequence }
{
    let at = turn.at;
    let Marker { replica, sequence } = turn.marker;
    if usize::from(replica_at(file, at)) != replica {
        return false;
    }
    let v = vector_at(file, at);
    if !vector_sound(file, counts, turn, v, width) {
        return false;
    }
    let kind = kind_at(file, at);
    let node = node_at(file, at);
    let parent = parent_at(file, at);
    passes(
        file,
        v,
        kind,
        node,
        parent,
        (256 * replica + sequence) as u16,
        width,
    )
}

// Whether the body where a turn stands, if there is one, is a sound op.
#[tactic(auto, using(crate::proofs::WalkLaws::walking))]
fn here_sound(file: &[u8], counts: [u8; 8], turn: Turn, width: usize) -> bool
    requires { Stands width file.now turn.marker turn.at × (counts ≡ header_counts file.now)
        × Before (log_of width file.now) turn.marker.replica turn.marker.sequence turn.before }
    ensures { result ≡ sound_here width file.now turn.marker }
{
    !turn.marker.in_file(file) || op_sound(file, counts, turn, width)
}

// Whether every body is a sound op, turn by turn through the file. Tried as `(1..9).all(..)` over a `for`
// through each replica's ops: it proved, but the test of a flat log took 8.2 microseconds against 7.6.
#[tactic(auto, using(crate::proofs::WalkLaws::walking))]
fn ops_sound(file: &[u8], counts: [u8; 8], width: usize) -> bool
    requires { LaidOut width file.now counts }
    ensures { result ≡ sound_log (log_of width file.now) }
{
    let mut turn = Turn::first();
    while turn.marker.replica <= 8 {
        if !here_sound(file, counts, turn, width) {
            return false;
        }
        turn = turn.next(file, width);
    }
    true
}

// Whether a file is laid out: at least 32 bytes, a right header, and it fits.
fn is_laid(file: &[u8], width: usize) -> bool
    requires { width ≤ 255 }
    ensures { result ≡ laid width file.now }
{
    32 <= file.len() && header_right(file, width) && end_of(file, 8, width) <= file.len()
}

// Whether a file is structurally sound: its layout, and tests 3, 5, 6 and 7 on every body.
#[tactic(auto, unfolding(rules::specs::Log::structural))]
pub fn structural(file: &[u8], width: usize) -> bool
    requires { (14 ≤ width) × (width ≤ 255) }
    ensures { result ≡ log.structural width file.now }
{
    is_laid(file, width) && ops_sound(file, counts_of(file, width), width)
}
