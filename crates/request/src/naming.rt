// The tests of what a request names: it is known (7), and what takes new work is not marked (11).
#![tactic(auto, using(crate::proofs::NamingCases::naming))]

ghost use Rattle.std.specs.Prelude.{◌≡◌, not, true};
ghost use Rattle.rules.specs.Issue.{move, request_known, request_unmarked};
ghost use Rattle.rules.specs.Marks.{is_marked, knowledge};
ghost use Rattle.rules.specs.File.{width, log_of};
ghost use Rattle.rules.specs.Sound.{sound};
ghost use Rattle.soundness.specs.Asked.{Tallied};
ghost use Rattle.marks.specs.Knowing.{MarkedLog};
ghost use Rattle.marks.specs.Marking.{marks_of};
ghost use Rattle.request.specs.Requests.{request_of};

use crate::request::Request;
use marks::{Knowledge, knowledge_of, mark_ops};
use soundness::WIDTH;
use structure::{known_in, known_parent};
use tree::SLOTS;

// File, counts and marks stay arguments: a struct of two or three of them, built for one call each,
// would be no plainer.

// Number 7 of a move: node and parent are known, and are not the same.
pub fn knows_move(file: &[u8], counts: [u8; 8], node: u16, parent: u16) -> bool
    requires { Tallied file.now counts }
    ensures { result ≡ request_known (log_of width file.now) (move node parent) }
{
    if !known_in(file, counts, node, WIDTH) {
        return false;
    }
    if !known_parent(file, counts, parent, WIDTH) {
        return false;
    }
    parent != node
}

// Number 7: whether what a request names is known.
pub fn knows(file: &[u8], counts: [u8; 8], request: Request) -> bool
    requires { Tallied file.now counts }
    ensures { result ≡ request_known (log_of width file.now) (request_of request) }
{
    match request {
        Request::Add(parent) => known_parent(file, counts, parent, WIDTH),
        Request::Remove(node) => known_in(file, counts, node, WIDTH),
        Request::Move(node, parent) => knows_move(file, counts, node, parent),
    }
}

// Number 11 of a node, by the table of marks. The root is unknown as a node, and never marked.
fn takes_work(file: &[u8], counts: [u8; 8], marks: &[u8], node: u16) -> bool
    requires { MarkedLog file.now counts marks.now }
    ensures { result ≡ not (is_marked (knowledge (log_of width file.now) counts node)) }
{
    match knowledge_of(file, counts, marks, node) {
        Knowledge::Unknown => true,
        Knowledge::KnownUnmarked => true,
        Knowledge::KnownMarked => false,
    }
}

// Number 11 of a move by the table of marks: node and parent.
pub fn move_takes_work(file: &[u8], counts: [u8; 8], marks: &[u8], node: u16, parent: u16) -> bool
    requires { MarkedLog file.now counts marks.now }
    ensures { result ≡ request_unmarked (log_of width file.now) (move node parent) }
{
    if !takes_work(file, counts, marks, node) {
        return false;
    }
    takes_work(file, counts, marks, parent)
}

// The marks of a log.
fn marks_in(file: &[u8]) -> [u8; SLOTS]
    requires { sound width file.now ≡ true }
    ensures { result ≡ marks_of (log_of width file.now) }
{
    let mut marks = [0u8; SLOTS];
    mark_ops(file, &mut marks);
    marks
}

// Number 11: whether what takes the work of a request is unmarked. A remove is no work.
pub fn unmarked(file: &[u8], counts: [u8; 8], request: Request) -> bool
    requires { Tallied file.now counts }
    ensures { result ≡ request_unmarked (log_of width file.now) (request_of request) }
{
    match request {
        Request::Add(parent) => takes_work(file, counts, &marks_in(file), parent),
        Request::Remove(_) => true,
        Request::Move(node, parent) => move_takes_work(file, counts, &marks_in(file), node, parent),
    }
}
