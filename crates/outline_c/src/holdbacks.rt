#![tactic(auto, using(crate::proofs::NumberCases::numbering))]

ghost use Rattle.std.specs.Prelude.{◌≡◌};
ghost use Rattle.rules.specs.File.{width};
ghost use Rattle.rules.specs.Holdback.{deliver_holdback};
ghost use Rattle.outline_c.specs.Number.{of_holdback};

use holdback::deliver;
use numbers::number;

// Delivers an op to the log in a buffer, with a holdback in which early ops wait.
#[unsafe(no_mangle)]
pub extern "C" fn outline_holdback_deliver(buf: &mut [u8], op: &[u8], holdback: &mut [u8]) -> usize
    ensures { (result, buf.new, holdback.new)
        ≡ of_holdback (deliver_holdback width buf.old op.now holdback.old) }
{
    number(deliver(buf, op, holdback))
}
