ghost use Rattle.std.specs.Prelude.{◌≡◌, ◌≤◌, take};
ghost use Rattle.rules.specs.File.{width, log_of};
ghost use Rattle.rules.specs.Tree.{slots};
ghost use Rattle.codec.specs.Answers.{answer_of};
ghost use Rattle.view.specs.Answers.{view_of, put_in};
ghost use Rattle.view.specs.Asked.{Orderable, Arrangeable, Arranged};
ghost use Rattle.marks.specs.Marking.{marks_of};
ghost use Rattle.tour.specs.Tables.{order_by};
ghost use Rattle.view.specs.Tables.{order_of, lines_of};
ghost use Rattle.rules.specs.Listing as rules;

use crate::answer::View;
use crate::lines::{size_of, write_lines};
use crate::linking::link_view;
use codec::Refusal;
use effect::Tables;
use marks::mark_ops;
use replay::replay_all;
use soundness::{WIDTH, is_sound};
use tour::{Visit, tour};
use tree::SLOTS;

// Arranges the nodes that a view shows of a tree with marks.
fn order_view(parents: &[u16], marks: &[u8], view: View, order: &mut [Visit]) -> usize
    requires { Orderable parents.now marks.now order.old }
    ensures { (take result order.new ≡ order_by parents.now marks.now (view_of view)) × (result ≤ slots) }
{
    let mut first = [0u16; SLOTS];
    let mut next = [0u16; SLOTS];
    link_view(parents, marks, view, &mut first, &mut next);
    tour(&first, &next, order)
}

// Arranges the nodes that a view shows, and marks those that ops remove.
pub(crate) fn arrange_view(file: &[u8], view: View, marks: &mut [u8], order: &mut [Visit]) -> usize
    requires { Arrangeable file.now marks.old order.old }
    ensures { (marks.new ≡ marks_of (log_of width file.now))
        × (take result order.new ≡ order_of (log_of width file.now) (view_of view)) × (result ≤ slots) }
{
    let mut tables = Tables::new();
    replay_all(file, &mut tables, WIDTH);
    mark_ops(file, marks);
    order_view(&tables.parents, marks, view, order)
}

// Writes the lines of arranged nodes into lent bytes, if they are enough.
fn put_lines(order: &[Visit], marks: &[u8], out: &mut [u8]) -> Result<usize, Refusal>
    requires { Arranged order.now marks.now }
    ensures { record { answer = answer_of result; out = out.new }
        ≡ put_in (lines_of marks.now order.now) out.old }
{
    let size = size_of(order);
    if out.len() < size {
        return Err(Refusal::NoRoom);
    }
    write_lines(order, marks, out);
    Ok(size)
}

// Writes the listing of a view into lent bytes.
pub fn listing(file: &[u8], view: View, out: &mut [u8]) -> Result<usize, Refusal>
    ensures { record { answer = answer_of result; out = out.new }
        ≡ rules.listing width file.now (view_of view) out.old }
{
    if !is_sound(file) {
        return Err(Refusal::Unsound);
    }
    let mut marks = [0u8; SLOTS];
    let mut order = [Visit::ROOT; SLOTS];
    let count = arrange_view(file, view, &mut marks, &mut order);
    put_lines(&order[..count], &marks, out)
}
