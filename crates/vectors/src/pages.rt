use crate::print::{Reply, answered, memory, number, numbers, text};
use codec::{Refusal, word_at};
use page::Paged;
use std::io::Print;

// A table of a line: how many entries it has, and where the next one stands.
#[derive(Clone, Copy)]
struct Table {
    entries: usize,
    next: usize,
}

// Puts a run of one value behind the first entries, and answers how many there are then.
fn put_run(table: &mut [u16], first: usize, n: usize, value: u16) -> usize {
    let end = first.saturating_add(n).min(table.len());
    if end <= first {
        return first;
    }
    table[first..end].fill(value);
    end
}

// A table as runs: their number, and of each its length and its value.
fn load_table(line: &[u8], at: usize, table: &mut [u16]) -> Table {
    let mut entries: usize = 0;
    let len = line.len();
    if len < 2 {
        return Table { entries, next: len };
    }
    if len - 2 < at {
        return Table { entries, next: len };
    }
    let runs = usize::from(word_at(line, at));
    let mut next = at + 2;
    for _ in 0..runs {
        if len < 4 {
            return Table { entries, next: len };
        }
        if len - 4 < next {
            return Table { entries, next: len };
        }
        let n = usize::from(word_at(line, next));
        entries = put_run(table, entries, n, word_at(line, next + 2));
        next += 4;
    }
    Table { entries, next }
}

// The low bytes of a table.
fn narrow(words: &[u16], bytes: &mut [u8]) {
    for (byte, word) in bytes.iter_mut().zip(words) {
        *byte = (*word % 256) as u8;
    }
}

fn told<T: Reply>(rt: &impl Print, paged: Result<Paged<T>, Refusal>, buf: &[u8]) {
    match paged {
        Ok(Paged { answer, taken }) => took(rt, Ok(answer), taken),
        Err(why) => took::<T, _>(rt, Err(why), 0),
    }
    memory(rt, buf);
}

fn took<T: Reply, P: Print>(rt: &P, answer: Result<T, Refusal>, taken: usize) {
    answered(rt, answer);
    text(rt, b" ");
    number(rt, taken);
}

fn issued(
    rt: &impl Print,
    paged: Result<Paged<usize>, Refusal>,
    buf: &[u8],
    out: &[u8],
    order: &[u16],
    parents: &[u16],
    outcomes: &[u8],
) {
    told(rt, paged, buf);
    memory(rt, out);
    tables(rt, order, parents, outcomes);
}

fn tables(rt: &impl Print, order: &[u16], parents: &[u16], outcomes: &[u8]) {
    numbers(rt, order);
    numbers(rt, parents);
    memory(rt, outcomes);
}

fn deliver(
    rt: &impl Print,
    buf: &mut [u8],
    line: &[u8],
    order: &mut [u16],
    parents: &mut [u16],
    outcomes: &mut [u8],
) {
    if line.len() < 2 {
        return;
    }
    let end = 2 + usize::from(line[1]);
    if line.len() < end {
        return;
    }
    told(
        rt,
        page::deliver(buf, &line[2..end], order, parents, outcomes),
        buf,
    );
    tables(rt, order, parents, outcomes);
}

fn issue_into(
    rt: &impl Print,
    buf: &mut [u8],
    line: &[u8],
    out: &mut [u8],
    order: &mut [u16],
    parents: &mut [u16],
    outcomes: &mut [u8],
) {
    if line.len() < 6 {
        return;
    }
    let replica = line[1];
    let first = word_at(line, 2);
    match line[0] {
        16 => {
            issued(
                rt,
                page::issue_add(buf, replica, first, out, order, parents, outcomes),
                buf,
                out,
                order,
                parents,
                outcomes,
            );
            return;
        }
        17 => {
            issued(
                rt,
                page::issue_remove(buf, replica, first, out, order, parents, outcomes),
                buf,
                out,
                order,
                parents,
                outcomes,
            );
            return;
        }
        0..=15 | 18..=255 => {
            issued(
                rt,
                page::issue_move(
                    buf,
                    replica,
                    first,
                    word_at(line, 4),
                    out,
                    order,
                    parents,
                    outcomes,
                ),
                buf,
                out,
                order,
                parents,
                outcomes,
            );
            return;
        }
    }
}

// The byte before the page is the length of the memory lent for the op.
fn issue(
    rt: &impl Print,
    buf: &mut [u8],
    line: &[u8],
    at: usize,
    order: &mut [u16],
    parents: &mut [u16],
    outcomes: &mut [u8],
) {
    let mut out = [238u8; 64];
    if at == 0 {
        return;
    }
    if line.len() < at {
        return;
    }
    let n = usize::from(line[at - 1]);
    if out.len() < n {
        return;
    }
    issue_into(rt, buf, line, &mut out[..n], order, parents, outcomes);
}

fn call(
    rt: &impl Print,
    buf: &mut [u8],
    line: &[u8],
    at: usize,
    order: &mut [u16],
    parents: &mut [u16],
    outcomes: &mut [u8],
) {
    if line.len() == 0 {
        return;
    }
    if line[0] == 15 {
        deliver(rt, buf, line, order, parents, outcomes);
        return;
    }
    issue(rt, buf, line, at, order, parents, outcomes);
}

// The first entries of the tables are lent.
fn call_parts(
    rt: &impl Print,
    buf: &mut [u8],
    line: &[u8],
    at: usize,
    order: &mut [u16],
    parents: &mut [u16],
    outcomes: &mut [u8],
    a: usize,
    b: usize,
    c: usize,
) {
    if order.len() < a {
        return;
    }
    if parents.len() < b {
        return;
    }
    if outcomes.len() < c {
        return;
    }
    call(
        rt,
        buf,
        line,
        at,
        &mut order[..a],
        &mut parents[..b],
        &mut outcomes[..c],
    );
}

// Where the page stands in a line.
fn page_place(line: &[u8]) -> usize {
    if line.len() < 2 {
        return 0;
    }
    match line[0] {
        15 => 2 + usize::from(line[1]),
        18 => 7,
        0..=14 | 16..=17 | 19..=255 => 5,
    }
}

// Makes the call of a line with the page that stands at its end.
pub fn run(rt: &impl Print, buf: &mut [u8], line: &[u8]) {
    let mut order = [0u16; 2100];
    let mut parents = [0u16; 2100];
    let mut words = [0u16; 2100];
    let mut outcomes = [0u8; 2100];
    let at = page_place(line);
    let first = load_table(line, at, &mut order);
    let second = load_table(line, first.next, &mut parents);
    let third = load_table(line, second.next, &mut words);
    narrow(&words, &mut outcomes);
    call_parts(
        rt,
        buf,
        line,
        at,
        &mut order,
        &mut parents,
        &mut outcomes,
        first.entries,
        second.entries,
        third.entries,
    );
}
