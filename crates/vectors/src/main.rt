// Runs the cases of model/ (its README has the grammar): one call a line on standard input, its
// answer and the lent bytes after it on standard output.
#![tactic(auto)]

mod batches;
mod calls;
mod pages;
mod print;

ghost use Rattle.std.specs.Prelude.{◌<◌, ◌≤◌, length};

use calls::run;
use std::io::{Print, Read};

// What is kept from byte to byte: the digits of the line so far, and the length of the buffer.
#[derive(Clone, Copy)]
struct State {
    digits: usize,
    len: usize,
}

// A digit of the lines; 0 for any other character. `to_digit` takes capital letters too.
fn nibble(c: u8) -> u8
    ensures { result < 16 }
{
    match c {
        48..=57 => c - 48,
        97..=102 => c - 87,
        0..=47 | 58..=96 | 103..=255 => 0,
    }
}

// A byte whose low digit is moved up, with a new one below it.
fn joined(byte: u8, c: u8) -> u8 {
    byte % 16 * 16 + nibble(c)
}

// Takes one character: a digit of the line, or its end.
fn step(rt: &impl Print, c: u8, line: &mut [u8], buf: &mut [u8], state: State) -> State {
    let digits = state.digits;
    let len = state.len;
    let at = digits / 2;
    if c == b'\n' {
        if line.len() < at {
            return State { digits: 0, len };
        }
        let next = run(rt, &line[..at], buf, len);
        return State {
            digits: 0,
            len: next,
        };
    }
    if line.len() <= at {
        return State { digits, len };
    }
    line[at] = joined(line[at], c);
    State {
        digits: digits + 1,
        len,
    }
}

fn feed(rt: &impl Print, chunk: &[u8], line: &mut [u8], buf: &mut [u8], state: State) -> State {
    let mut now = state;
    for c in chunk {
        now = step(rt, *c, line, buf, now);
    }
    now
}

// Fills a buffer as far as the input goes, and answers how many bytes that is. `read_exact` does not
// say how many came before the end.
fn read_full<R: Read>(reader: &mut R, buf: &mut [u8]) -> usize
    ensures { result ≤ length buf.new }
{
    let mut done: usize = 0;
    while done < buf.len() {
        match reader.read(&mut buf[done..]) {
            Ok(0) | Err(_) => break,
            Ok(more) => done += more,
        }
    }
    done
}

// Reads some of the input and runs its lines; none if there was no more to read.
fn read_some<R: Read>(
    rt: &impl Print,
    reader: &mut R,
    line: &mut [u8],
    buf: &mut [u8],
    state: State,
) -> Option<State> {
    let mut chunk = [0u8; 65536];
    let n = read_full(reader, &mut chunk);
    if n == 0 {
        return None;
    }
    Some(feed(rt, &chunk[..n], line, buf, state))
}

fn run_all<R: Read>(rt: &impl Print, reader: &mut R, line: &mut [u8], buf: &mut [u8]) {
    let mut state = State { digits: 0, len: 0 };
    for _ in 0..10000u32 {
        match read_some(rt, reader, line, buf, state) {
            Some(next) => state = next,
            None => return,
        }
    }
}

fn main(rt: HostRuntime) {
    let mut line = [0u8; 40000];
    let mut buf = [0u8; 40000];
    run_all(&rt.stdout(), &mut rt.reader(), &mut line, &mut buf);
}
