#![tactic(auto, using(crate::proofs::DeliverCases::delivering))]

ghost use Rattle.std.specs.Prelude.{◌≡◌};
ghost use Rattle.rules.specs.File.{width};
ghost use Rattle.codec.specs.Answers.{delivery_of};
ghost use Rattle.rules.specs.Deliver as rules;

use codec::{Delivered, Refusal};
use delivery::deliver_next;
use soundness::is_sound;

// Delivers an op to the log in a buffer.
pub fn deliver(buf: &mut [u8], op: &[u8]) -> Result<Delivered, Refusal>
    ensures { record { answer = delivery_of result; buffer = buf.new }
        ≡ rules.deliver width buf.old op.now }
{
    if !is_sound(buf) {
        return Err(Refusal::Unsound);
    }
    deliver_next(buf, op)
}
