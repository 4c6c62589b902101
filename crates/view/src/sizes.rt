ghost use Rattle.std.specs.Prelude.{◌≡◌};
ghost use Rattle.rules.specs.File.{width};
ghost use Rattle.rules.specs.Listing.{listing_size};
ghost use Rattle.codec.specs.Answers.{answer_of};
ghost use Rattle.view.specs.Answers.{view_of};

use crate::answer::View;
use crate::lines::size_of;
use crate::listings::arrange_view;
use codec::Refusal;
use soundness::is_sound;
use tour::Visit;
use tree::SLOTS;

// How many bytes the listing of a view has.
pub fn listing_size(file: &[u8], view: View) -> Result<usize, Refusal>
    ensures { answer_of result ≡ listing_size width file.now (view_of view) }
{
    if !is_sound(file) {
        return Err(Refusal::Unsound);
    }
    let mut marks = [0u8; SLOTS];
    let mut order = [Visit::ROOT; SLOTS];
    let count = arrange_view(file, view, &mut marks, &mut order);
    Ok(size_of(&order[..count]))
}
