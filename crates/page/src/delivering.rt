#![tactic(auto, using(crate::proofs::CallCases::delivering))]

ghost use Rattle.std.specs.Prelude.{◌≡◌};
ghost use Rattle.rules.specs.File.{width};
ghost use Rattle.page_rules.specs.Page.{deliver_page, page};
ghost use Rattle.page.specs.Answers.{result_of};
ghost use Rattle.page.specs.Renewing.{PageReady};

use crate::answer::Paged;
use crate::renewing::renew;
use codec::{Delivered, Refusal};
use delivery::deliver_next;
use oplog::counts_of;
use page_tables::long_enough;
use soundness::{WIDTH, is_sound};

// Delivers an op to a sound log with tables that are long enough.
fn deliver_ready(
    buf: &mut [u8],
    op: &[u8],
    order: &mut [u16],
    parents: &mut [u16],
    outcomes: &mut [u8],
) -> Result<Paged<Delivered>, Refusal>
    requires { PageReady buf.old order.old parents.old outcomes.old }
    ensures { result_of result buf.new (page order.new parents.new outcomes.new)
        ≡ deliver_page width buf.old op.now
        (page order.old parents.old outcomes.old) }
{
    let old = counts_of(buf, WIDTH);
    let answer = deliver_next(buf, op)?;
    if !answer.is_accepted() {
        return Ok(Paged { answer, taken: 0 });
    }
    let taken = renew(buf, old, order, parents, outcomes);
    Ok(Paged { answer, taken })
}

// Delivers an op to the log in a buffer, with its page in three tables.
pub fn deliver(
    buf: &mut [u8],
    op: &[u8],
    order: &mut [u16],
    parents: &mut [u16],
    outcomes: &mut [u8],
) -> Result<Paged<Delivered>, Refusal>
    ensures { result_of result buf.new (page order.new parents.new outcomes.new)
        ≡ deliver_page width buf.old op.now
        (page order.old parents.old outcomes.old) }
{
    if !is_sound(buf) {
        return Err(Refusal::Unsound);
    }
    if !long_enough(order, parents, outcomes) {
        return Err(Refusal::Length);
    }
    deliver_ready(buf, op, order, parents, outcomes)
}
