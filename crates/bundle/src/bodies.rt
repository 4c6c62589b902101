ghost use Rattle.std.specs.Prelude.{◌≡◌};
ghost use Rattle.lists.specs.Lists.{concat};
ghost use Rattle.rules.specs.Bundle.{ops_beyond};
ghost use Rattle.rules.specs.File.{log_of, width};
ghost use Rattle.bundle.specs.Bodies.{Copied, copied, BodyRoom, BodiesRoom, WholeRoom, body_of, laid_over, output, bodies_along};

use oplog::{counts_of, put_front};
use schedule::{Entry, Schedule, write_order};
use soundness::WIDTH;
use tree::{slot_place, slot_replica, slot_sequence};

// Copies the body at a place of the file to a place of the lent bytes.
fn copy_body(file: &[u8], from: usize, out: &mut [u8], at: usize)
    requires { Copied file.now from out.old at }
    ensures { out.new ≡ copied file.now from out.old at }
{
    let to = from + WIDTH;
    let end = at + WIDTH;
    put_front(&mut out[at..end], &file[from..to]);
}

// Writes the op of a slot at a place, if it is beyond the other's counts; answers the place behind
// it.
fn write_body(file: &[u8], counts: [u8; 8], slot: usize, out: &mut [u8], at: usize) -> usize
    requires { BodyRoom file.now counts slot out.old at }
    ensures { output out.new result
        ≡ laid_over out.old at (body_of (log_of width file.now) counts slot) }
{
    let s = slot_replica(slot);
    if slot_sequence(slot) <= usize::from(counts[s - 1]) {
        return at;
    }
    let from = slot_place(file, slot, WIDTH);
    copy_body(file, from, out, at);
    at + WIDTH
}

// Writes the ops beyond the other's counts along entries.
#[tactic(auto, using(crate::proofs::BodyCases::alongs))]
fn write_along(file: &[u8], counts: [u8; 8], entries: &[Entry], out: &mut [u8])
    requires { BodiesRoom file.now counts entries.now out.old }
    ensures { out.new
        ≡ bodies_along (log_of width file.now) counts entries.now }
{
    let mut at = 0;
    for entry in entries {
        at = write_body(file, counts, entry.slot as usize, out, at);
    }
}

// Writes all ops beyond the other's counts in the order of replay.
pub(crate) fn write_bodies(file: &[u8], counts: [u8; 8], out: &mut [u8])
    requires { WholeRoom file.now counts out.old }
    ensures { out.new ≡ concat (ops_beyond (log_of width file.now) counts) }
{
    // No op is beyond the counts: the order is not needed.
    if out.is_empty() {
        return;
    }
    let held = counts_of(file, WIDTH);
    let mut schedule = Schedule::new();
    write_order(file, held, &mut schedule, WIDTH);
    write_along(file, counts, schedule.entries(), out);
}
