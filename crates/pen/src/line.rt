ghost use Rattle.std.specs.Prelude.{◌≡◌, Bool, cond, ◌≤◌, length};
ghost use Rattle.rules.specs.Listing.{line_of};
ghost use Rattle.pen.specs.Lines.{Asked, penned};

use crate::decimal::{digit_count, put_decimal};

// A pen (the document's): bytes and lines written.
#[derive(Clone, Copy)]
pub struct Pen {
    pub bytes: usize,
    pub lines: usize,
}

// How many bytes a line has, whatever its mark.
pub fn line_size(depth: u16, node: u16) -> usize
    ensures { ((marked : Bool) → result ≡ length (line_of depth node marked)) × (result ≤ 14) }
{
    digit_count(depth) + digit_count(node) + 4
}

fn mark_byte(marked: bool) -> u8
    ensures { result ≡ cond marked 114 107 }
{
    if marked {
        return b'r';
    }
    b'k'
}

// Three writers over one another: by value, on a lent pen, and by value through a lent pen. The listing uses
// all three, and what is said of them (docs/PROOFS.md) is said of each.
impl Pen {
    // Writes a line behind what is written, and hands the pen back with the line counted.
    pub fn write_line(self, out: &mut [u8], depth: u16, node: u16, marked: bool) -> Pen
        requires { Asked out.old self (line_of depth node marked) }
        ensures { record { out = out.new; pen = result } ≡ penned out.old self (line_of depth node marked) }
    {
        let at = self.bytes;
        let space = put_decimal(out, at, depth);
        out[space] = b' ';
        let end = put_decimal(out, space + 1, node);
        out[end] = b' ';
        out[end + 1] = mark_byte(marked);
        out[end + 2] = b'\n';
        let bytes = end + 3;
        let lines = self.lines + 1;
        Pen { bytes, lines }
    }

    // The thin line writer: the pen is lent, and changed by the line.
    pub fn write_line_with(&mut self, out: &mut [u8], depth: u16, node: u16, marked: bool)
        requires { Asked out.old self.old (line_of depth node marked) }
        ensures { record { out = out.new; pen = self.new }
            ≡ penned out.old self.old (line_of depth node marked) }
    {
        *self = self.write_line(out, depth, node, marked);
    }

    // A line by a pen that the caller holds by value: the pen is lent to the line, and handed back.
    pub fn lend_line(self, out: &mut [u8], depth: u16, node: u16, marked: bool) -> Pen
        requires { Asked out.old self (line_of depth node marked) }
        ensures { record { out = out.new; pen = result } ≡ penned out.old self (line_of depth node marked) }
    {
        let mut lent = self;
        lent.write_line_with(out, depth, node, marked);
        lent
    }
}
