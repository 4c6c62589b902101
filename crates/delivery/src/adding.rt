#![tactic(auto, using(crate::proofs::AddCases::adding))]

ghost use Rattle.std.specs.Prelude.{◌≡◌, true};
ghost use Rattle.rules.specs.File.{width, appended};
ghost use Rattle.rules.specs.Sound.{sound};
ghost use Rattle.codec.specs.Answers.{answer_of};
ghost use Rattle.delivery.specs.Adding.{last_test, Acceptable};

use codec::Refusal;
use oplog::{append_ops, end_of};
use soundness::WIDTH;

// The last test of an op, 8: room for one more.
pub fn last_test(file: &[u8]) -> Result<usize, Refusal>
    requires { sound width file.now ≡ true }
    ensures { answer_of result ≡ last_test file.now }
{
    let end = end_of(file, 8, WIDTH) + WIDTH;
    if file.len() < end {
        return Err(Refusal::NoRoom);
    }
    Ok(end)
}

// Adds an op that passed every test.
pub fn accept(buf: &mut [u8], counts: [u8; 8], replica: u8, op: &[u8])
    requires { Acceptable buf.old counts replica op.now }
    ensures { buf.new ≡ appended width buf.old op.now }
{
    append_ops(buf, counts, usize::from(replica), op, 1, WIDTH);
}
