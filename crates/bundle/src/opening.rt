#![tactic(auto, using(crate::proofs::OpenCases::opening))]

ghost use Rattle.std.specs.Prelude.{◌/◌, ◌≡◌, true, length, take};
ghost use Rattle.rules.specs.Answer.{accepted, unless_refused};
ghost use Rattle.rules.specs.Bundle.{bodies_in, open_bundle};
ghost use Rattle.rules.specs.File.{chunks, file_end, width};
ghost use Rattle.rules.specs.Sound.{sound};
ghost use Rattle.codec.specs.Answers.{answer_of};
ghost use Rattle.bundle.specs.Opening.{Openable, Ended, Trial, Tried, reach_of, take_body};

use bundle_head::{head_size, is_whole};
use codec::Refusal;
use delivery::deliver_next;
use oplog::{end_of, put_front};
use soundness::{LARGEST, WIDTH, is_sound};

// Delivers a body to a sound log, and answers the file end. One that was held already is passed by.
fn take_body(buf: &mut [u8], body: &[u8]) -> Result<usize, Refusal>
    requires { sound width buf.old ≡ true }
    ensures { record { answer = answer_of result; buffer = buf.new } ≡ take_body buf.old body.now }
{
    deliver_next(buf, body)?;
    Ok(end_of(buf, 8, WIDTH))
}

// Delivers bodies in turn, until one is refused.
fn take_bodies(buf: &mut [u8], bodies: &[u8]) -> Result<usize, Refusal>
    requires { sound width buf.old ≡ true }
    ensures { Tried buf.old (chunks width (length bodies.now / width) bodies.now) (answer_of result) buf.new }
{
    for body in bodies.chunks_exact(WIDTH) {
        take_body(buf, body)?;
    }
    Ok(end_of(buf, 8, WIDTH))
}

// As much of a buffer as the largest file can take.
fn reach(len: usize) -> usize
    ensures { result ≡ reach_of len }
{
    if len <= LARGEST {
        return len;
    }
    LARGEST
}

// Delivers the bodies of a whole bundle in turn to a copy of a buffer's front.
fn try_bodies(file: &[u8], bundle: &[u8], copy: &mut [u8]) -> Result<usize, Refusal>
    requires { Trial file.now bundle.now copy.old }
    ensures { Tried (take (length copy.old) file.now) (bodies_in width bundle.now) (answer_of result)
        copy.new }
{
    let size = head_size(bundle);
    let len = copy.len();
    put_front(copy, &file[..len]);
    take_bodies(copy, &bundle[size..])
}

// Opens a whole bundle: the bodies are tried in a copy, which is copied back when all have passed.
fn open_in(buf: &mut [u8], bundle: &[u8], copy: &mut [u8]) -> Result<usize, Refusal>
    requires { Trial buf.old bundle.now copy.old }
    ensures { record { answer = answer_of result; buffer = buf.new }
        ≡ open_bundle width buf.old bundle.now }
{
    let tried = try_bodies(buf, bundle, copy);
    // Only what has passed is copied back.
    let end = tried?;
    put_front(buf, copy);
    Ok(end)
}

// Opens a whole bundle at a sound log.
fn open_whole(buf: &mut [u8], bundle: &[u8]) -> Result<usize, Refusal>
    requires { Openable buf.old bundle.now }
    ensures { record { answer = answer_of result; buffer = buf.new }
        ≡ open_bundle width buf.old bundle.now }
{
    let len = reach(buf.len());
    let mut copy = [0u8; LARGEST];
    open_in(buf, bundle, &mut copy[..len])
}

// Opens a bundle: delivers its bodies in turn. If one is refused, its number is the answer, and
// nothing changes.
pub fn open(buf: &mut [u8], bundle: &[u8]) -> Result<usize, Refusal>
    ensures { record { answer = answer_of result; buffer = buf.new }
        ≡ open_bundle width buf.old bundle.now }
{
    if !is_sound(buf) {
        return Err(Refusal::Unsound);
    }
    if !is_whole(bundle) {
        return Err(Refusal::BadBundle);
    }
    open_whole(buf, bundle)
}
