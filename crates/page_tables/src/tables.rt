ghost use Rattle.std.specs.Prelude.{◌≡◌, take};
ghost use Rattle.lists.specs.Lists.{same};
ghost use Rattle.page_rules.specs.Page.{page_filled, page};
ghost use Rattle.rules.specs.Tree.{most_ops};
ghost use Rattle.page_rules.specs.Page as rules;
ghost use Rattle.page_tables.specs.Tables.{Comparable, FillablePage, OrderLent, order_without};

use schedule::OPS;
use tree::SLOTS;

// Whether lent tables have room for every page. C lends them one by one, so they go one by one.
#[tactic(auto, unfolding(page_rules::specs::Page::long_enough))]
pub fn long_enough(order: &[u16], parents: &[u16], outcomes: &[u8]) -> bool
    ensures { result ≡ rules.long_enough (page order.now parents.now outcomes.now) }
{
    if order.len() < OPS {
        return false;
    }
    if parents.len() < SLOTS {
        return false;
    }
    SLOTS <= outcomes.len()
}

// Whether a lent order is this one without the entry at a place: those behind it move up, and 0 is the last.
fn order_shows(lent: &[u16], order: &[u16], place: usize) -> bool
    requires { OrderLent lent.now order.now place }
    ensures { result ≡ same (take most_ops lent.now) (order_without place order.now) }
{
    let last = OPS - 1;
    if lent[..place] != order[..place] {
        return false;
    }
    lent[place..last] == order[place + 1..] && lent[last] == 0
}

// Whether lent tables show a page: its order is this one without the entry at a place.
#[tactic(auto, using(lists::proofs::LibraryLaws::same_is), unfolding(page_rules::specs::Page::shows))]
pub fn shows(
    order: &[u16],
    parents: &[u16],
    outcomes: &[u8],
    slots: &[u16],
    place: usize,
    tree: &[u16],
    results: &[u8],
) -> bool
    requires { Comparable order.now parents.now outcomes.now slots.now place tree.now results.now }
    ensures { result ≡ rules.shows (page order.now parents.now outcomes.now)
        (page (order_without place slots.now) tree.now results.now) }
{
    if !order_shows(order, slots, place) {
        return false;
    }
    &parents[..SLOTS] == tree && &outcomes[..SLOTS] == results
}

// Puts a page into the first entries of lent tables.
pub fn fill(
    order: &mut [u16],
    parents: &mut [u16],
    outcomes: &mut [u8],
    slots: &[u16],
    tree: &[u16],
    results: &[u8],
)
    requires { FillablePage order.old parents.old outcomes.old slots.now tree.now results.now }
    ensures { page order.new parents.new outcomes.new
        ≡ page_filled (page order.old parents.old outcomes.old)
        (page slots.now tree.now results.now) }
{
    order[..slots.len()].copy_from_slice(slots);
    parents[..tree.len()].copy_from_slice(tree);
    outcomes[..results.len()].copy_from_slice(results);
}
