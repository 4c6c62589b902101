#![tactic(auto, using(crate::proofs::IssueCases::issuing))]

ghost use Rattle.std.specs.Prelude.{◌≡◌, length};
ghost use Rattle.rules.specs.File.{width, header_counts};
ghost use Rattle.codec.specs.Answers.{answer_of};
ghost use Rattle.request.specs.Requests.{request_of};
ghost use Rattle.issue.specs.Issuing.{bytes_of, with_op, put_out, Lent, Ready, Writable};
ghost use Rattle.rules.specs.Issue as rules;

use crate::draft::Draft;
use crate::drafting::draft;
use codec::{Refusal, write_op};
use delivery::{accept, last_test};
use oplog::counts_of;
use request::Request;
use soundness::WIDTH;

// Puts out an op that passed every test, and adds it.
fn write_out(buf: &mut [u8], replica: u8, draft: Draft, out: &mut [u8])
    requires { Writable buf.old (length out.old) replica }
    ensures { (buf.new, out.new)
        ≡ with_op buf.old out.old (bytes_of replica draft (header_counts buf.old)) }
{
    let counts = counts_of(buf, WIDTH);
    let kind = u8::from(draft.kind);
    write_op(out, kind, replica, draft.node, draft.parent, counts);
    let n = WIDTH;
    accept(buf, counts, replica, &out[..n]);
}

// The last test, 8; an op that passes it is put out and added.
fn put_out(buf: &mut [u8], replica: u8, draft: Draft, out: &mut [u8]) -> Result<usize, Refusal>
    requires { Ready buf.old (length out.old) replica }
    ensures { record { answer = answer_of result; buffer = buf.new; out = out.new }
        ≡ put_out buf.old out.old (bytes_of replica draft (header_counts buf.old)) }
{
    let end = last_test(buf)?;
    write_out(buf, replica, draft, out);
    Ok(end)
}

// Issues one op at a sound log: the tests from 9 on.
pub(crate) fn issue_next(
    buf: &mut [u8],
    replica: u8,
    request: Request,
    out: &mut [u8],
) -> Result<usize, Refusal>
    requires { Lent buf.old (length out.old) replica }
    ensures { record { answer = answer_of result; buffer = buf.new; out = out.new }
        ≡ rules.issue width buf.old out.old replica (request_of request) }
{
    let op = draft(buf, replica, request)?;
    put_out(buf, replica, op, out)
}
