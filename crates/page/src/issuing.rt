#![tactic(auto, using(crate::proofs::CallCases::issuing))]

ghost use Rattle.std.specs.Prelude.{◌≡◌};
ghost use Rattle.rules.specs.File.{width};
ghost use Rattle.rules.specs.Issue.{add, move, remove};
ghost use Rattle.page_rules.specs.Page.{issue_page, page};
ghost use Rattle.request.specs.Requests.{request_of};
ghost use Rattle.page.specs.Answers.{issued_of};
ghost use Rattle.page.specs.Renewing.{PageReady};

use crate::answer::Paged;
use crate::renewing::renew;
use codec::Refusal;
use issue::issue_sound;
use oplog::counts_of;
use page_tables::long_enough;
use request::Request;
use soundness::{WIDTH, is_sound};

// Issues what is asked for at a sound log with tables that are long enough.
fn issue_ready(
    buf: &mut [u8],
    replica: u8,
    request: Request,
    out: &mut [u8],
    order: &mut [u16],
    parents: &mut [u16],
    outcomes: &mut [u8],
) -> Result<Paged<usize>, Refusal>
    requires { PageReady buf.old order.old parents.old outcomes.old }
    ensures { issued_of result buf.new out.new (page order.new parents.new outcomes.new)
        ≡ issue_page width buf.old out.old replica (request_of request)
        (page order.old parents.old outcomes.old) }
{
    let old = counts_of(buf, WIDTH);
    let answer = issue_sound(buf, replica, request, out)?;
    let taken = renew(buf, old, order, parents, outcomes);
    Ok(Paged { answer, taken })
}

// Issues what is asked for.
fn issue(
    buf: &mut [u8],
    replica: u8,
    request: Request,
    out: &mut [u8],
    order: &mut [u16],
    parents: &mut [u16],
    outcomes: &mut [u8],
) -> Result<Paged<usize>, Refusal>
    ensures { issued_of result buf.new out.new (page order.new parents.new outcomes.new)
        ≡ issue_page width buf.old out.old replica (request_of request)
        (page order.old parents.old outcomes.old) }
{
    if !is_sound(buf) {
        return Err(Refusal::Unsound);
    }
    if !long_enough(order, parents, outcomes) {
        return Err(Refusal::Length);
    }
    issue_ready(buf, replica, request, out, order, parents, outcomes)
}

// Issues an add of a new node under a parent, with the log's page in three tables.
pub fn issue_add(
    buf: &mut [u8],
    replica: u8,
    parent: u16,
    out: &mut [u8],
    order: &mut [u16],
    parents: &mut [u16],
    outcomes: &mut [u8],
) -> Result<Paged<usize>, Refusal>
    ensures { issued_of result buf.new out.new (page order.new parents.new outcomes.new)
        ≡ issue_page width buf.old out.old replica (add parent)
        (page order.old parents.old outcomes.old) }
{
    issue(
        buf,
        replica,
        Request::Add(parent),
        out,
        order,
        parents,
        outcomes,
    )
}

// Issues a remove of a node, with the log's page in three tables.
pub fn issue_remove(
    buf: &mut [u8],
    replica: u8,
    node: u16,
    out: &mut [u8],
    order: &mut [u16],
    parents: &mut [u16],
    outcomes: &mut [u8],
) -> Result<Paged<usize>, Refusal>
    ensures { issued_of result buf.new out.new (page order.new parents.new outcomes.new)
        ≡ issue_page width buf.old out.old replica (remove node)
        (page order.old parents.old outcomes.old) }
{
    issue(
        buf,
        replica,
        Request::Remove(node),
        out,
        order,
        parents,
        outcomes,
    )
}

// Issues a move of a node under a new parent, with the log's page in three tables.
pub fn issue_move(
    buf: &mut [u8],
    replica: u8,
    node: u16,
    parent: u16,
    out: &mut [u8],
    order: &mut [u16],
    parents: &mut [u16],
    outcomes: &mut [u8],
) -> Result<Paged<usize>, Refusal>
    ensures { issued_of result buf.new out.new (page order.new parents.new outcomes.new)
        ≡ issue_page width buf.old out.old replica (move node parent)
        (page order.old parents.old outcomes.old) }
{
    issue(
        buf,
        replica,
        Request::Move(node, parent),
        out,
        order,
        parents,
        outcomes,
    )
}
