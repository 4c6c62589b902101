ghost use Rattle.std.specs.Prelude.{◌≡◌, length};
ghost use Rattle.rules.specs.Tree.{slots};

use crate::print::{answered, memory, memory_front, number, numbers, refused, text};
use crate::{batches, pages};
use codec::{Refusal, word_at};
use printing::LONGEST;
use std::io::Print;
use tree::{Climbed, NO_PARENT, SLOTS, climb_to};
use view::View;

fn make(rt: &impl Print, buf: &mut [u8]) {
    answered(rt, replica::make(buf));
    memory(rt, buf);
}

fn deliver(rt: &impl Print, buf: &mut [u8], op: &[u8]) {
    answered(rt, replica::deliver(buf, op));
    memory(rt, buf);
}

fn issued(rt: &impl Print, answer: Result<usize, Refusal>, buf: &[u8], out: &[u8]) {
    answered(rt, answer);
    memory(rt, buf);
    memory(rt, out);
}

// An issue of a line on memory lent for the op.
fn issue_into(rt: &impl Print, buf: &mut [u8], line: &[u8], out: &mut [u8]) {
    if line.len() < 5 {
        return;
    }
    let replica = line[1];
    let first = word_at(line, 2);
    let call = line[0];
    match call {
        4 => {
            issued(rt, replica::issue_add(buf, replica, first, out), buf, out);
            return;
        }
        5 => {
            issued(
                rt,
                replica::issue_remove(buf, replica, first, out),
                buf,
                out,
            );
            return;
        }
        0..=3 | 6..=255 => {
            move_into(rt, buf, line, out);
            return;
        }
    }
}

fn move_into(rt: &impl Print, buf: &mut [u8], line: &[u8], out: &mut [u8]) {
    if line.len() < 7 {
        return;
    }
    let node = word_at(line, 2);
    let parent = word_at(line, 4);
    issued(
        rt,
        replica::issue_move(buf, line[1], node, parent, out),
        buf,
        out,
    );
}

fn issue_part(rt: &impl Print, buf: &mut [u8], line: &[u8], out: &mut [u8], n: usize) {
    if out.len() < n {
        return;
    }
    issue_into(rt, buf, line, &mut out[..n]);
}

// The last byte of the line is the length of the memory lent for the op.
fn issue(rt: &impl Print, buf: &mut [u8], line: &[u8]) {
    if line.len() == 0 {
        return;
    }
    let mut out = [238u8; 64];
    let n = usize::from(line[line.len() - 1]);
    issue_part(rt, buf, line, &mut out, n);
}

fn judge_into(rt: &impl Print, file: &[u8], parents: &mut [u16], outcomes: &mut [u8]) {
    answered(rt, replica::judge(file, parents, outcomes));
    memory(rt, file);
    numbers(rt, parents);
    memory(rt, outcomes);
}

fn judge_parts(
    rt: &impl Print,
    file: &[u8],
    parents: &mut [u16],
    outcomes: &mut [u8],
    n: usize,
    m: usize,
) {
    if parents.len() < n {
        return;
    }
    if outcomes.len() < m {
        return;
    }
    judge_into(rt, file, &mut parents[..n], &mut outcomes[..m]);
}

fn judge(rt: &impl Print, file: &[u8], line: &[u8]) {
    if line.len() < 5 {
        return;
    }
    let mut parents = [61166u16; 2100];
    let mut outcomes = [238u8; 2100];
    let n = usize::from(word_at(line, 1));
    let m = usize::from(word_at(line, 3));
    judge_parts(rt, file, &mut parents, &mut outcomes, n, m);
}

fn path_into(rt: &impl Print, file: &[u8], node: u16, out: &mut [u16]) {
    answered(rt, view::path(file, node, out));
    memory(rt, file);
    numbers(rt, out);
}

fn path_part(rt: &impl Print, file: &[u8], node: u16, out: &mut [u16], n: usize) {
    if out.len() < n {
        return;
    }
    path_into(rt, file, node, &mut out[..n]);
}

fn path(rt: &impl Print, file: &[u8], line: &[u8]) {
    if line.len() < 5 {
        return;
    }
    let mut out = [61166u16; 2100];
    let n = usize::from(word_at(line, 3));
    path_part(rt, file, word_at(line, 1), &mut out, n);
}

fn list(file: &[u8], skipping: bool, out: &mut [u8]) -> Result<usize, Refusal> {
    if skipping {
        return view::listing(file, View::Skipping, out);
    }
    view::listing(file, View::Keeping, out)
}

fn listing_into(rt: &impl Print, file: &[u8], skipping: bool, out: &mut [u8]) {
    answered(rt, list(file, skipping, out));
    memory(rt, file);
    memory(rt, out);
}

fn listing_part(rt: &impl Print, file: &[u8], skipping: bool, out: &mut [u8], n: usize) {
    if out.len() < n {
        return;
    }
    listing_into(rt, file, skipping, &mut out[..n]);
}

fn listing(rt: &impl Print, file: &[u8], line: &[u8]) {
    if line.len() < 4 {
        return;
    }
    let mut out = [238u8; 24000];
    let n = usize::from(word_at(line, 2));
    listing_part(rt, file, line[1] != 0, &mut out, n);
}

fn bundle_into(rt: &impl Print, file: &[u8], counts: [u8; 8], out: &mut [u8]) {
    answered(rt, bundle::make(file, counts, out));
    memory(rt, file);
    memory(rt, out);
}

fn bundle_part(rt: &impl Print, file: &[u8], counts: [u8; 8], out: &mut [u8], n: usize) {
    if out.len() < n {
        return;
    }
    bundle_into(rt, file, counts, &mut out[..n]);
}

fn make_bundle(rt: &impl Print, file: &[u8], line: &[u8]) {
    if line.len() < 11 {
        return;
    }
    let mut out = [238u8; 28600];
    let counts = [
        line[1], line[2], line[3], line[4], line[5], line[6], line[7], line[8],
    ];
    let n = usize::from(word_at(line, 9));
    bundle_part(rt, file, counts, &mut out, n);
}

fn deliver_with(rt: &impl Print, buf: &mut [u8], op: &[u8], holdback: &mut [u8]) {
    answered(rt, holdback::deliver(buf, op, holdback));
    memory(rt, buf);
    memory(rt, holdback);
}

fn deliver_part(rt: &impl Print, buf: &mut [u8], op: &[u8], holdback: &mut [u8], n: usize) {
    if holdback.len() < n {
        return;
    }
    deliver_with(rt, buf, op, &mut holdback[..n]);
}

// The op's length stands before it, and the holdback behind it.
fn deliver_holdback(rt: &impl Print, buf: &mut [u8], line: &[u8]) {
    if line.len() < 2 {
        return;
    }
    let end = 2 + usize::from(line[1]);
    if line.len() < end {
        return;
    }
    let mut holdback = [0u8; 600];
    let n = load(&mut holdback, &line[end..]);
    deliver_part(rt, buf, &line[2..end], &mut holdback, n);
}

fn climb_in(rt: &impl Print, parents: &[u16], parent: u16, node: u16)
    requires { length parents.now ≡ slots }
{
    if node == NO_PARENT {
        return;
    }
    match climb_to(parents, parent, node) {
        Climbed::Met(steps) => {
            text(rt, b"y ");
            number(rt, steps);
        }
        Climbed::Missed(steps) => {
            text(rt, b"n ");
            number(rt, steps);
        }
    }
}

// The climb from a parent to a node, in the tree of the buffer.
fn climb(rt: &impl Print, file: &[u8], line: &[u8]) {
    if line.len() < 5 {
        return;
    }
    let mut parents = [0u16; SLOTS];
    let mut outcomes = [0u8; SLOTS];
    match replica::judge(file, &mut parents, &mut outcomes) {
        Ok(()) => climb_in(rt, &parents, word_at(line, 1), word_at(line, 3)),
        Err(why) => refused(rt, why),
    }
    memory(rt, file);
}

fn open_bundle(rt: &impl Print, buf: &mut [u8], bytes: &[u8]) {
    answered(rt, bundle::open(buf, bytes));
    memory(rt, buf);
}

// What the program `outline` prints for the buffer.
fn outline(rt: &impl Print, input: &[u8]) {
    let mut out = [0u8; LONGEST];
    text(rt, b"o");
    if let Ok(n) = printing::outline(input, &mut out) {
        memory_front(rt, &out, n);
    }
}

// Copies bytes to the front of the buffer, and answers their number.
fn load(buf: &mut [u8], bytes: &[u8]) -> usize {
    let n = bytes.len().min(buf.len());
    buf[..n].copy_from_slice(&bytes[..n]);
    n
}

fn fill(buf: &mut [u8], from: usize, to: usize) {
    let end = to.min(buf.len());
    if from < end {
        buf[from..end].fill(165);
    }
}

// Loading and resizing are done by now.
fn loaded(rt: &impl Print, lent: &[u8]) {
    text(rt, b"l");
    memory(rt, lent);
}

// Makes the call of a line on the lent buffer. Its number is a byte of the input.
fn dispatch(rt: &impl Print, call: u8, line: &[u8], lent: &mut [u8]) {
    if line.len() == 0 {
        return;
    }
    match call {
        1 => make(rt, lent),
        2 => deliver(rt, lent, &line[1..]),
        3 => judge(rt, lent, line),
        4..=6 => issue(rt, lent, line),
        7 => path(rt, lent, line),
        8 => listing(rt, lent, line),
        9 => outline(rt, lent),
        11 => make_bundle(rt, lent, line),
        12 => open_bundle(rt, lent, &line[1..]),
        13 => deliver_holdback(rt, lent, line),
        14 => climb(rt, lent, line),
        15..=18 => pages::run(rt, lent, line),
        19 => batches::run(rt, lent, line),
        0 | 10 | 20..=255 => loaded(rt, lent),
    }
}

// Runs a line on the first bytes of the buffer, and answers the buffer's length.
pub fn run(rt: &impl Print, line: &[u8], buf: &mut [u8], len: usize) -> usize {
    if line.len() == 0 {
        return len;
    }
    let next = resized(line, buf, len);
    if buf.len() < next {
        return 0;
    }
    dispatch(rt, line[0], line, &mut buf[..next]);
    text(rt, b"\n");
    next
}

// The buffer's length for a call; loading and resizing change it.
fn resized(line: &[u8], buf: &mut [u8], len: usize) -> usize {
    if line.len() == 0 {
        return len;
    }
    if line[0] == 0 {
        return load(buf, &line[1..]);
    }
    if line[0] == 10 {
        if line.len() < 3 {
            return len;
        }
        let next = usize::from(word_at(line, 1));
        fill(buf, len, next);
        return next;
    }
    len
}
