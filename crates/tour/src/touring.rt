ghost use Rattle.std.specs.Prelude.{◌≡◌, ◌+◌, ◌≤◌, ◌++◌, length, drop};
ghost use Rattle.tour.specs.Asked.{Pushable, Visitable, Tourable};
ghost use Rattle.tour.specs.Tables.{links, tour_of};
ghost use Rattle.tour.specs.Tables as tables;

use tree::{SLOTS, slot_in};

// How many entries the stack has: one for each slot, and one that is never used.
const STACK: usize = SLOTS + 1;

// A node of a tour, and how deep it is.
#[derive(Clone, Copy)]
pub struct Visit {
    pub node: u16,
    pub depth: u16,
}

impl Visit {
    pub const ROOT: Visit = Visit { node: 0, depth: 0 };
}

// Puts a node on a stack that grows towards its front. An array and its top: there is no heap for a `Vec`,
// and an `ArrayVec` has its top at the end of a list, where the stack of the rules has it in front.
fn push(stack: &mut [Visit], top: usize, node: u16, depth: u16) -> usize
    requires { Pushable stack.old top }
    ensures { (drop result stack.new ≡ tables.push node depth (drop top stack.old))
        × (result ≤ top) × (top ≤ result + 1) }
{
    if node == 0 {
        return top;
    }
    let place = top - 1;
    stack[place] = Visit { node, depth };
    place
}

// Takes the top visit from the stack, and puts its next sibling and then its first child there.
fn advance(first: &[u16], next: &[u16], visited: Visit, stack: &mut [Visit], top: usize) -> usize
    requires { Visitable first.now next.now stack.old top }
    ensures { (drop result stack.new
        ≡ tables.visited (links first.now next.now) visited (drop (top + 1) stack.old))
        × (result ≤ top + 1) × (top ≤ result + 1) }
{
    let slot = slot_in(visited.node);
    let rest = push(stack, top + 1, next[slot], visited.depth);
    push(stack, rest, first[slot], visited.depth.wrapping_add(1))
}

// The nodes from the root on in preorder, with their depths; answers how many there are, so the turns
// are counted. The stack has the first of the siblings that are left, for each level that the tour is in.
pub fn tour(first: &[u16], next: &[u16], order: &mut [Visit]) -> usize
    requires { Tourable first.now next.now order.old }
    ensures { (result ≡ length (tour_of (links first.now next.now)))
        × (order.new ≡ tour_of (links first.now next.now) ++ drop result order.old) }
{
    let mut stack = [Visit::ROOT; STACK];
    let mut top: usize = SLOTS;
    for i in 0..SLOTS {
        if top == STACK {
            return i;
        }
        let visited = stack[top];
        order[i] = visited;
        top = advance(first, next, visited, &mut stack, top);
    }
    SLOTS
}
