// What the program `outline` prints for an input.
#![tactic(auto)]

ghost use Rattle.std.specs.Prelude.{◌≡◌};
ghost use Rattle.rules.specs.File.{empty_log, width};
ghost use Rattle.rules.specs.Listing.{listing_of, refused_line};
ghost use Rattle.rules.specs.Views.{keeping};
ghost use Rattle.codec.specs.Answers.{answer_of};
ghost use Rattle.view.specs.Answers.{put_in};
ghost use Rattle.rules.specs.Listing as rules;

use codec::Refusal;
use oplog::end_of;
use replica::make;
use soundness::{WIDTH, is_sound};
use tree::SLOTS;
use view::{View, listing};

// Bytes that are enough for every output of the program.
pub const LONGEST: usize = 12 * SLOTS;

// Writes the line of a refused input.
fn refuse(out: &mut [u8]) -> Result<usize, Refusal>
    ensures { record { answer = answer_of result; out = out.new } ≡ put_in refused_line out.old }
{
    if out.len() < 10 {
        return Err(Refusal::NoRoom);
    }
    out[..10].copy_from_slice(b"refused 1\n");
    Ok(10)
}

// Writes the listing of the log without ops.
fn list_empty(out: &mut [u8]) -> Result<usize, Refusal>
    ensures { record { answer = answer_of result; out = out.new } ≡ put_in (listing_of keeping empty_log) out.old }
{
    let mut empty = [0u8; 32];
    let _made = make(&mut empty);
    listing(&empty, View::Keeping, out)
}

// Writes what the program prints for an input: the keeping view of its log, or that it is
// refused. An input of no bytes is a log without ops. No output has more than 24,492 bytes.
pub fn outline(input: &[u8], out: &mut [u8]) -> Result<usize, Refusal>
    ensures { record { answer = answer_of result; out = out.new }
        ≡ put_in (rules.outline width input.now) out.old }
{
    if input.len() == 0 {
        return list_empty(out);
    }
    if !is_sound(input) {
        return refuse(out);
    }
    if end_of(input, 8, WIDTH) != input.len() {
        return refuse(out);
    }
    listing(input, View::Keeping, out)
}
