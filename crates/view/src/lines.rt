ghost use Rattle.std.specs.Prelude.{◌≡◌, ◌≤◌, List, ℕ, length};
ghost use Rattle.rules.specs.Tree.{slots};
ghost use Rattle.view.specs.Asked.{Printable};
ghost use Rattle.view.specs.Tables.{lines_of, put_front};

use pen::{Pen, line_size};
use tour::Visit;
use tree::slot_in;

// How many bytes the lines of a tour have, whatever the marks.
pub(crate) fn size_of(order: &[Visit]) -> usize
    requires { length order.now ≤ slots }
    ensures { (marks : List ℕ) → result ≡ length (lines_of marks order.now) }
{
    let mut size: usize = 0;
    for visit in order {
        size += line_size(visit.depth, visit.node);
    }
    size
}

// Writes the lines of a tour.
pub(crate) fn write_lines(order: &[Visit], marks: &[u8], out: &mut [u8])
    requires { Printable order.now marks.now out.old }
    ensures { out.new ≡ put_front (lines_of marks.now order.now) out.old }
{
    let mut pen = Pen { bytes: 0, lines: 0 };
    for visit in order {
        let slot = slot_in(visit.node);
        pen = pen.lend_line(out, visit.depth, visit.node, marks[slot] != 0);
    }
}
