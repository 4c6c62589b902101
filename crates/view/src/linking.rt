ghost use Rattle.std.specs.Prelude.{◌≡◌, ◌-◌};
ghost use mathlib.Core.List.{foldl};
ghost use Rattle.lists.specs.Lists.{down_from};
ghost use Rattle.rules.specs.Tree.{slots};
ghost use Rattle.view.specs.Answers.{view_of};
ghost use Rattle.tour.specs.Asked.{TourSized};
ghost use Rattle.tour.specs.Tables.{links, link_slot, hidden_of};

use crate::answer::View;
use tour::{link, reveal_all};
use tree::SLOTS;

// Links the nodes that a view shows. In the skipping view a marked node is hidden, and with it
// all below, since the tour does not come there.
pub(crate) fn link_view(
    parents: &[u16],
    marks: &[u8],
    view: View,
    first: &mut [u16],
    next: &mut [u16],
)
    requires { TourSized parents.now marks.now first.old next.old }
    ensures { links first.new next.new
        ≡ foldl (link_slot parents.now (hidden_of parents.now marks.now (view_of view)))
        (links first.old next.old) (down_from (slots - 1)) }
{
    match view {
        View::Skipping => link(parents, marks, first, next),
        View::Keeping => {
            let mut hidden = [1u8; SLOTS];
            hidden[0] = 0;
            reveal_all(parents, marks, &mut hidden);
            link(parents, &hidden, first, next);
        }
    }
}
