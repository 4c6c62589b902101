#![tactic(auto, using(crate::proofs::MakeCases::making))]

ghost use Rattle.std.specs.Prelude.{◌≡◌};
ghost use Rattle.rules.specs.File.{width};
ghost use Rattle.codec.specs.Answers.{answer_of};
ghost use Rattle.rules.specs.Deliver as rules;

use codec::Refusal;
use oplog::write_header;
use soundness::WIDTH;

// Makes an empty log in a buffer.
pub fn make(buf: &mut [u8]) -> Result<usize, Refusal>
    ensures { record { answer = answer_of result; buffer = buf.new } ≡ rules.make width buf.old }
{
    if buf.len() < 32 {
        return Err(Refusal::NoRoom);
    }
    write_header(buf, [0u8; 8], WIDTH);
    Ok(32)
}
