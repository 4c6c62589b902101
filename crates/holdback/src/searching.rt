#![tactic(auto, using(crate::proofs::SearchCases::meets))]

ghost use Rattle.std.specs.Prelude.{◌≡◌, true};
ghost use Rattle.rules.specs.Answer.{refused};
ghost use Rattle.rules.specs.File.{width};
ghost use Rattle.rules.specs.Holdback as rules;
ghost use Rattle.rules.specs.Sound.{sound};
ghost use Rattle.codec.specs.Answers.{delivery_of, number_of};
ghost use Rattle.holdback.specs.Searching.{met_of, meet_op, waiting_at, looked_at, Meetable, Searchable, desk, searched};

use codec::{Delivered, Refusal};
use delivery::deliver_next;
use holdback_places::{count, free_place};
use soundness::WIDTH;

// What becomes of an op that the search meets.
#[derive(Clone, Copy, Debug, PartialEq, Eq)]
pub(crate) enum Met {
    Taken,
    Stays,
    Dropped,
}

// Whether an op that is refused so stays: with 5 or 8.
fn stays(why: Refusal) -> bool
    ensures { result ≡ rules.stays (refused (number_of why)) }
{
    match why {
        Refusal::Early => true,
        Refusal::NoRoom => true,
        _ => false,
    }
}

fn met_refused(why: Refusal) -> Met
    ensures { result ≡ met_of (refused (number_of why)) }
{
    if stays(why) {
        return Met::Stays;
    }
    Met::Dropped
}

// What becomes of an op that is answered so.
fn met_with(answer: Result<Delivered, Refusal>) -> Met
    ensures { result ≡ met_of (delivery_of answer) }
{
    match answer {
        Ok(Delivered::Accepted(_)) => Met::Taken,
        Ok(Delivered::HadIt) => Met::Dropped,
        Ok(Delivered::Waiting) => Met::Dropped,
        Err(why) => met_refused(why),
    }
}

// Delivers an op that waits to a sound log.
fn meet(buf: &mut [u8], op: &[u8]) -> Met
    requires { sound width buf.old ≡ true }
    ensures { record { met = result; buffer = buf.new } ≡ meet_op buf.old op.now }
{
    met_with(deliver_next(buf, op))
}

// Delivers the op that waits at place i.
fn meet_at(buf: &mut [u8], holdback: &[u8], i: usize) -> Met
    requires { Meetable buf.old holdback.now i }
    ensures { record { met = result; buffer = buf.new } ≡ meet_op buf.old (waiting_at holdback.now i) }
{
    let at = 1 + WIDTH * i;
    let to = at + WIDTH;
    meet(buf, &holdback[at..to])
}

// Delivers the op that waits at place i, and frees the place unless the op stays.
fn look_at(buf: &mut [u8], holdback: &mut [u8], i: usize) -> Met
    requires { Meetable buf.old holdback.old i }
    ensures { record { met = result; buffer = buf.new; holdback = holdback.new }
        ≡ looked_at buf.old holdback.old i }
{
    match meet_at(buf, holdback, i) {
        Met::Taken => {
            free_place(holdback, i);
            Met::Taken
        }
        Met::Stays => Met::Stays,
        Met::Dropped => {
            free_place(holdback, i);
            Met::Dropped
        }
    }
}

// Searches a holdback for ops that a sound log now takes, from the front, and again from the front
// as soon as one is taken. By number: places are freed while the search goes, so no iterator can hold the
// holdback meanwhile.
pub(crate) fn search(buf: &mut [u8], holdback: &mut [u8])
    requires { Searchable buf.old holdback.old }
    ensures { desk buf.new holdback.new ≡ searched buf.old holdback.old }
{
    'again: loop {
        let mut i = 0;
        while i < count(holdback) {
            match look_at(buf, holdback, i) {
                Met::Taken => continue 'again,
                Met::Stays => i += 1,
                Met::Dropped => {}
            }
        }
        break;
    }
}
