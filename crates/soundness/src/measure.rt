#![tactic(auto, using(crate::proofs::MeasureCases::measuring))]

ghost use Rattle.std.specs.Prelude.{◌≡◌};
ghost use Rattle.rules.specs.File.{width};
ghost use Rattle.rules.specs.Measure.{end_answer, counts_call};
ghost use Rattle.codec.specs.Answers.{answer_of};

use crate::check::{WIDTH, is_sound};
use codec::Refusal;
use oplog::{counts_of, end_of, put_front};

// Where the file of the log in a buffer ends.
pub fn file_end(file: &[u8]) -> Result<usize, Refusal>
    ensures { answer_of result ≡ end_answer width file.now }
{
    if !is_sound(file) {
        return Err(Refusal::Unsound);
    }
    Ok(end_of(file, 8, WIDTH))
}

// Puts the held counts, one for each replica, into lent bytes.
pub fn held_counts(file: &[u8], out: &mut [u8]) -> Result<usize, Refusal>
    ensures { record { answer = answer_of result; out = out.new } ≡ counts_call width file.now out.old }
{
    if !is_sound(file) {
        return Err(Refusal::Unsound);
    }
    if out.len() < 8 {
        return Err(Refusal::NoRoom);
    }
    let counts = counts_of(file, WIDTH);
    put_front(out, &counts);
    Ok(8)
}
