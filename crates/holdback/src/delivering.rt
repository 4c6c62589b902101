#![tactic(auto, using(crate::proofs::HoldbackCases::holding))]

ghost use Rattle.std.specs.Prelude.{◌≡◌};
ghost use Rattle.rules.specs.File.{width};
ghost use Rattle.rules.specs.Holdback.{deliver_holdback};
ghost use Rattle.rules.specs.Answer.{accepted};
ghost use Rattle.codec.specs.Answers.{delivery_of};
ghost use Rattle.holdback_places.specs.Places.{Compared};
ghost use Rattle.holdback.specs.Delivering.{after_search, early_call};
ghost use Rattle.holdback.specs.Searching.{Searchable};

use crate::searching::search;
use codec::{Delivered, Refusal};
use delivery::deliver_next;
use holdback_places::{PLACES, count, is_holdback, is_waiting, put_last};
use oplog::end_of;
use soundness::{WIDTH, is_sound};

// Has an early op wait at the back, once.
fn hold(op: &[u8], holdback: &mut [u8]) -> Result<Delivered, Refusal>
    requires { Compared holdback.old op.now }
    ensures { record { answer = delivery_of result; holdback = holdback.new }
        ≡ early_call op.now holdback.old }
{
    if is_waiting(holdback, op) {
        return Ok(Delivered::Waiting);
    }
    if PLACES <= count(holdback) {
        return Err(Refusal::HoldbackFull);
    }
    put_last(holdback, op);
    Ok(Delivered::Waiting)
}

// Searches the holdback after an acceptance, and answers the last file end.
fn release(buf: &mut [u8], holdback: &mut [u8]) -> usize
    requires { Searchable buf.old holdback.old }
    ensures { record { answer = accepted result; buffer = buf.new; holdback = holdback.new }
        ≡ after_search buf.old holdback.old }
{
    search(buf, holdback);
    end_of(buf, 8, WIDTH)
}

// Delivers an op to a sound log with a sound holdback.
fn deliver_sound(buf: &mut [u8], op: &[u8], holdback: &mut [u8]) -> Result<Delivered, Refusal>
    requires { Searchable buf.old holdback.old }
    ensures { record { answer = delivery_of result; buffer = buf.new; holdback = holdback.new }
        ≡ deliver_holdback width buf.old op.now holdback.old }
{
    match deliver_next(buf, op) {
        Ok(Delivered::Accepted(_)) => Ok(Delivered::Accepted(release(buf, holdback))),
        Ok(Delivered::HadIt) => Ok(Delivered::HadIt),
        Ok(Delivered::Waiting) => Ok(Delivered::Waiting),
        Err(why) => match why {
            Refusal::Early => hold(op, holdback),
            _ => Err(why),
        },
    }
}

// Delivers an op with a holdback: an early op waits there, and after an acceptance those that wait
// are searched for what can follow.
pub fn deliver(buf: &mut [u8], op: &[u8], holdback: &mut [u8]) -> Result<Delivered, Refusal>
    ensures { record { answer = delivery_of result; buffer = buf.new; holdback = holdback.new }
        ≡ deliver_holdback width buf.old op.now holdback.old }
{
    if !is_sound(buf) {
        return Err(Refusal::Unsound);
    }
    if !is_holdback(holdback) {
        return Err(Refusal::BadHoldback);
    }
    deliver_sound(buf, op, holdback)
}
