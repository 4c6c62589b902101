use crate::print::{answered, memory};
use codec::word_at;
use std::io::Print;

// The nodes of a line, two bytes each, put into a table; answers how many there are.
fn load_nodes(line: &[u8], nodes: &mut [u16]) -> usize {
    let n = (line.len() / 2).min(nodes.len());
    for (node, pair) in nodes.iter_mut().zip(line.chunks_exact(2)) {
        if let [high, low] = pair {
            *node = u16::from_be_bytes([*high, *low]);
        }
    }
    n
}

fn issue_into(
    rt: &impl Print,
    buf: &mut [u8],
    replica: u8,
    nodes: &[u16],
    parent: u16,
    out: &mut [u8],
) {
    let answer = batch::issue_moves(buf, replica, nodes, parent, out);
    answered(rt, answer);
    memory(rt, buf);
    memory(rt, out);
}

// The first n nodes, and the first bytes of the memory lent for the ops.
fn issue_part(
    rt: &impl Print,
    buf: &mut [u8],
    line: &[u8],
    nodes: &[u16],
    n: usize,
    out: &mut [u8],
) {
    if line.len() < 6 {
        return;
    }
    let lent = usize::from(word_at(line, 4));
    if nodes.len() < n {
        return;
    }
    if out.len() < lent {
        return;
    }
    issue_into(
        rt,
        buf,
        line[1],
        &nodes[..n],
        word_at(line, 2),
        &mut out[..lent],
    );
}

// A batch: the replica, the parent, the length of the memory lent for the ops, and the nodes.
pub fn run(rt: &impl Print, buf: &mut [u8], line: &[u8]) {
    if line.len() < 6 {
        return;
    }
    let mut nodes = [0u16; 40];
    let mut out = [238u8; 600];
    let n = load_nodes(&line[6..], &mut nodes);
    issue_part(rt, buf, line, &nodes, n, &mut out);
}
