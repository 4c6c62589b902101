#![tactic(auto, using(crate::proofs::NumberCases::numbering))]

ghost use Rattle.std.specs.Prelude.{◌≡◌};
ghost use Rattle.rules.specs.Issue.{add, remove, move};
ghost use Rattle.rules.specs.File.{width};
ghost use Rattle.rules.specs.Measure.{end_answer, counts_call};
ghost use Rattle.rules.specs.Path.{path_call};
ghost use Rattle.rules.specs.Sound.{sound};
ghost use Rattle.view.specs.Answers.{view_of};
ghost use Rattle.outline_c.specs.Number.{version, view_for, of_result, of_issued, of_judgement, of_written};
ghost use Rattle.numbers.specs.Number as specs;
ghost use Rattle.rules.specs.Deliver as delivering;
ghost use Rattle.rules.specs.Issue as issuing;
ghost use Rattle.rules.specs.Judge as judging;
ghost use Rattle.rules.specs.Listing as listings;

use numbers::number;
use replica::{deliver, issue_add, issue_move, issue_remove, judge, make};
use soundness::{file_end, held_counts, is_sound};
use view::{View, listing, listing_size, path};

// The version of the library.
#[unsafe(no_mangle)]
pub extern "C" fn outline_version() -> usize
    ensures { result ≡ version }
{
    600
}

// Makes an empty log in a buffer.
#[unsafe(no_mangle)]
pub extern "C" fn outline_make(buf: &mut [u8]) -> usize
    ensures { (result, buf.new) ≡ of_result (delivering.make width buf.old) }
{
    number(make(buf))
}

// Delivers an op to the log in a buffer.
#[unsafe(no_mangle)]
pub extern "C" fn outline_deliver(buf: &mut [u8], op: &[u8]) -> usize
    ensures { (result, buf.new) ≡ of_result (delivering.deliver width buf.old op.now) }
{
    number(deliver(buf, op))
}

// Issues an add of a new node under a parent.
#[unsafe(no_mangle)]
pub extern "C" fn outline_issue_add(
    buf: &mut [u8],
    replica: u8,
    parent: u16,
    out: &mut [u8],
) -> usize
    ensures { (result, buf.new, out.new)
        ≡ of_issued (issuing.issue width buf.old out.old replica (add parent)) }
{
    number(issue_add(buf, replica, parent, out))
}

// Issues a remove of a node.
#[unsafe(no_mangle)]
pub extern "C" fn outline_issue_remove(
    buf: &mut [u8],
    replica: u8,
    node: u16,
    out: &mut [u8],
) -> usize
    ensures { (result, buf.new, out.new)
        ≡ of_issued (issuing.issue width buf.old out.old replica (remove node)) }
{
    number(issue_remove(buf, replica, node, out))
}

// Issues a move of a node under a new parent.
#[unsafe(no_mangle)]
pub extern "C" fn outline_issue_move(
    buf: &mut [u8],
    replica: u8,
    node: u16,
    parent: u16,
    out: &mut [u8],
) -> usize
    ensures { (result, buf.new, out.new)
        ≡ of_issued (issuing.issue width buf.old out.old replica (move node parent)) }
{
    number(issue_move(buf, replica, node, parent, out))
}

// Replays a log into two lent tables.
#[unsafe(no_mangle)]
pub extern "C" fn outline_judge(file: &[u8], parents: &mut [u16], outcomes: &mut [u8]) -> usize
    ensures { (result, parents.new, outcomes.new)
        ≡ of_judgement (judging.judge width file.now parents.old outcomes.old) }
{
    number(judge(file, parents, outcomes))
}

// Puts the path of a node into lent entries.
#[unsafe(no_mangle)]
pub extern "C" fn outline_path(file: &[u8], node: u16, out: &mut [u16]) -> usize
    ensures { (result, out.new) ≡ of_written (path_call width file.now node out.old) }
{
    number(path(file, node, out))
}

#[tactic(auto, unfolding(crate::specs::Number::view_for))]
fn view_for(skipping: bool) -> View
    ensures { view_of result ≡ view_for skipping }
{
    if skipping {
        return View::Skipping;
    }
    View::Keeping
}

// Writes the listing of a view into lent bytes.
#[unsafe(no_mangle)]
pub extern "C" fn outline_listing(file: &[u8], skipping: bool, out: &mut [u8]) -> usize
    ensures { (result, out.new)
        ≡ of_written (listings.listing width file.now (view_for skipping) out.old) }
{
    number(listing(file, view_for(skipping), out))
}

// How many bytes the listing of a view has.
#[unsafe(no_mangle)]
pub extern "C" fn outline_listing_size(file: &[u8], skipping: bool) -> usize
    ensures { result ≡ specs.number (listings.listing_size width file.now (view_for skipping)) }
{
    number(listing_size(file, view_for(skipping)))
}

// Whether a buffer holds a sound log.
#[unsafe(no_mangle)]
pub extern "C" fn outline_is_sound(file: &[u8]) -> bool
    ensures { result ≡ sound width file.now }
{
    is_sound(file)
}

// Where the file of the log in a buffer ends.
#[unsafe(no_mangle)]
pub extern "C" fn outline_end(file: &[u8]) -> usize
    ensures { result ≡ specs.number (end_answer width file.now) }
{
    number(file_end(file))
}

// Puts the held counts into lent bytes.
#[unsafe(no_mangle)]
pub extern "C" fn outline_counts(file: &[u8], out: &mut [u8]) -> usize
    ensures { (result, out.new) ≡ of_written (counts_call width file.now out.old) }
{
    number(held_counts(file, out))
}
