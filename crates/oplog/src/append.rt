#![tactic(auto, using(crate::proofs::InsertLaws::appending))]

ghost use Rattle.std.specs.Prelude.{◌≡◌, ◌++◌, ◌+◌, ◌-◌, ◌≤◌, length, take, drop, set};
ghost use Rattle.rules.specs.Op.{count_in};
ghost use Rattle.rules.specs.File.{chunks};
ghost use Rattle.oplog.specs.Append.{Appendable, appended_all, headed_by, inserted, shifted};

use crate::header::{end_of, write_header};

// Moves the bytes of a part up by the width; what no longer fits is dropped.
fn move_up(part: &mut [u8], width: usize)
    requires { width ≤ length part.old }
    ensures { part.new ≡ take width part.old ++ take (length part.old - width) part.old }
{
    let end = part.len() - width;
    part.copy_within(..end, width);
}

// Stores items at the front of a part.
pub fn put_front<T: Copy>(part: &mut [T], items: &[T])
    requires { length items.now ≤ length part.old }
    ensures { part.new ≡ items.now ++ drop (length items.now) part.old }
{
    part[..items.len()].copy_from_slice(items);
}

// Moves the bytes of a part up by ops, and stores the ops in front.
fn shift_in(part: &mut [u8], ops: &[u8])
    requires { length ops.now ≤ length part.old }
    ensures { part.new ≡ shifted ops.now part.old }
{
    move_up(part, ops.len());
    put_front(part, ops);
}

// Puts ops at a place of a buffer whose file ends at end: the part from the place on is lent to
// the function that shifts and writes.
fn insert(buf: &mut [u8], place: usize, end: usize, ops: &[u8])
    requires { (place ≤ end) × (end + length ops.now ≤ length buf.old) }
    ensures { buf.new ≡ inserted ops.now buf.old place end (length ops.now) }
{
    let after = end + ops.len();
    shift_in(&mut buf[place..after], ops);
}

// Puts ops at a place, and writes the header of the new counts.
fn put_ops(buf: &mut [u8], place: usize, end: usize, ops: &[u8], counts: [u8; 8], width: usize)
    requires { (place ≤ end) × (end + length ops.now ≤ length buf.old) × (32 ≤ length buf.old) × (width ≤ 16) }
    ensures { buf.new ≡ headed_by width counts ops.now buf.old place end }
{
    insert(buf, place, end, ops);
    write_header(buf, counts, width);
}

// The counts with n ops more of a replica.
#[tactic(auto, unfolding(rules::specs::Op::count_in))]
pub fn with_more(counts: [u8; 8], replica: usize, n: usize) -> [u8; 8]
    requires { (1 ≤ replica) × (replica ≤ 8) × (count_in counts replica + n ≤ 255) }
    ensures { result ≡ set counts (replica - 1) (count_in counts replica + n) }
{
    let mut more = counts;
    let held = usize::from(counts[replica - 1]);
    more[replica - 1] = (held + n) as u8;
    more
}

// Adds n ops, which stand one behind the other, to their replica's.
pub fn append_ops(
    buf: &mut [u8],
    counts: [u8; 8],
    replica: usize,
    ops: &[u8],
    n: usize,
    width: usize,
)
    requires { Appendable width buf.old counts replica ops.now n }
    ensures { buf.new ≡ appended_all width buf.old replica (chunks width n ops.now) }
{
    let place = end_of(buf, replica, width);
    let end = end_of(buf, 8, width);
    put_ops(buf, place, end, ops, with_more(counts, replica, n), width);
}
