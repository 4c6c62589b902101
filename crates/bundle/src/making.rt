#![tactic(auto, using(crate::proofs::MakeCases::making))]

ghost use Rattle.std.specs.Prelude.{◌≡◌, ◌≤◌, length};
ghost use Rattle.rules.specs.Bundle.{bundle_call, bundle_of, head_of};
ghost use Rattle.rules.specs.File.{log_of, width};
ghost use Rattle.codec.specs.Answers.{answer_of};
ghost use Rattle.bundle.specs.Bodies.{laid_over, output};
ghost use Rattle.bundle.specs.Making.{Fillable, bundle_size};

use crate::bodies::write_bodies;
use bundle_head::{beyond_counts, head_byte, head_bytes, put_counts, total};
use codec::Refusal;
use oplog::counts_of;
use soundness::{WIDTH, is_sound};

// Writes the head of a bundle with so many ops of each replica; answers the place behind it.
fn write_head(out: &mut [u8], beyond: [u8; 8]) -> usize
    requires { length (head_of beyond) ≤ length out.old }
    ensures { output out.new result ≡ laid_over out.old 0 (head_of beyond) }
{
    let head = head_byte(beyond);
    let size = head_bytes(head);
    put_counts(out, head, beyond);
    out[0] = head;
    size
}

// Fills lent bytes, as many as the bundle has.
fn write_bundle(file: &[u8], counts: [u8; 8], beyond: [u8; 8], out: &mut [u8])
    requires { Fillable file.now counts beyond out.old }
    ensures { out.new ≡ bundle_of (log_of width file.now) counts }
{
    let size = write_head(out, beyond);
    write_bodies(file, counts, &mut out[size..]);
}

// The length of the bundle for the other's counts.
fn bundle_size(beyond: [u8; 8]) -> usize
    ensures { result ≡ bundle_size beyond }
{
    head_bytes(head_byte(beyond)) + WIDTH * total(beyond)
}

// Makes a bundle of all ops beyond the other's counts.
pub fn make(file: &[u8], counts: [u8; 8], out: &mut [u8]) -> Result<usize, Refusal>
    ensures { record { answer = answer_of result; out = out.new }
        ≡ bundle_call width file.now counts out.old }
{
    if !is_sound(file) {
        return Err(Refusal::Unsound);
    }
    let beyond = beyond_counts(counts_of(file, WIDTH), counts);
    let size = bundle_size(beyond);
    if out.len() < size {
        return Err(Refusal::NoRoom);
    }
    write_bundle(file, counts, beyond, &mut out[..size]);
    Ok(size)
}
