#![tactic(auto, using(crate::proofs::PageCases::paging))]

ghost use Rattle.std.specs.Prelude.{◌≡◌};
ghost use Rattle.rules.specs.File.{width};
ghost use Rattle.rules.specs.Issue.{add, remove, move};
ghost use Rattle.codec.specs.Answers.{answer_by};
ghost use Rattle.page.specs.Answers.{taken_by};
ghost use Rattle.page_rules.specs.Page.{deliver_page, issue_page, page};
ghost use Rattle.numbers.specs.Fits.{PageFits};
ghost use Rattle.numbers.specs.Number.{page_number};
ghost use Rattle.outline_c.specs.Number.{of_page, of_page_issued};

use codec::Refusal;
use numbers::{Reply, page_number};
use page::{Paged, deliver, issue_add, issue_move, issue_remove};

// One number for what a call with a page hands back. A refused one took no op back.
fn number_of<T: Reply>(paged: Result<Paged<T>, Refusal>) -> usize
    requires { PageFits (answer_by (λ x. T.says x.answer) paged) (taken_by paged) }
    ensures { result ≡ page_number (answer_by (λ x. T.says x.answer) paged) (taken_by paged) }
{
    match paged {
        Ok(Paged { answer, taken }) => page_number(Ok(answer), taken),
        Err(why) => page_number::<T>(Err(why), 0),
    }
}

// A function for each call, and a pointer and a length for each table: C has no generics and no structs of slices.

// Delivers an op to the log in a buffer, with its page in three tables.
#[unsafe(no_mangle)]
pub extern "C" fn outline_page_deliver(
    buf: &mut [u8],
    op: &[u8],
    order: &mut [u16],
    parents: &mut [u16],
    outcomes: &mut [u8],
) -> usize
    ensures { (result, buf.new, page order.new parents.new outcomes.new)
        ≡ of_page (deliver_page width buf.old op.now
        (page order.old parents.old outcomes.old)) }
{
    number_of(deliver(buf, op, order, parents, outcomes))
}

// Issues an add of a new node under a parent, with the log's page in three tables.
#[unsafe(no_mangle)]
pub extern "C" fn outline_page_issue_add(
    buf: &mut [u8],
    replica: u8,
    parent: u16,
    out: &mut [u8],
    order: &mut [u16],
    parents: &mut [u16],
    outcomes: &mut [u8],
) -> usize
    ensures { (result, buf.new, out.new, page order.new parents.new outcomes.new)
        ≡ of_page_issued (issue_page width buf.old out.old replica (add parent)
        (page order.old parents.old outcomes.old)) }
{
    number_of(issue_add(buf, replica, parent, out, order, parents, outcomes))
}

// Issues a remove of a node, with the log's page in three tables.
#[unsafe(no_mangle)]
pub extern "C" fn outline_page_issue_remove(
    buf: &mut [u8],
    replica: u8,
    node: u16,
    out: &mut [u8],
    order: &mut [u16],
    parents: &mut [u16],
    outcomes: &mut [u8],
) -> usize
    ensures { (result, buf.new, out.new, page order.new parents.new outcomes.new)
        ≡ of_page_issued (issue_page width buf.old out.old replica (remove node)
        (page order.old parents.old outcomes.old)) }
{
    number_of(issue_remove(buf, replica, node, out, order, parents, outcomes))
}

// Issues a move of a node under a new parent, with the log's page in three tables.
#[unsafe(no_mangle)]
pub extern "C" fn outline_page_issue_move(
    buf: &mut [u8],
    replica: u8,
    node: u16,
    parent: u16,
    out: &mut [u8],
    order: &mut [u16],
    parents: &mut [u16],
    outcomes: &mut [u8],
) -> usize
    ensures { (result, buf.new, out.new, page order.new parents.new outcomes.new)
        ≡ of_page_issued (issue_page width buf.old out.old replica (move node parent)
        (page order.old parents.old outcomes.old)) }
{
    number_of(issue_move(buf, replica, node, parent, out, order, parents, outcomes))
}
