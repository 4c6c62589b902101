#![tactic(auto, using(crate::proofs::IssueCases::issuing))]

ghost use Rattle.std.specs.Prelude.{◌≡◌};
ghost use Rattle.rules.specs.Issue.{add, remove, move};
ghost use Rattle.rules.specs.File.{width};
ghost use Rattle.codec.specs.Answers.{answer_of};
ghost use Rattle.request.specs.Requests.{request_of};
ghost use Rattle.rules.specs.Issue as rules;

use codec::Refusal;
use issue::issue_sound;
use request::Request;
use soundness::is_sound;

// Issues what is asked for.
fn issue(buf: &mut [u8], replica: u8, request: Request, out: &mut [u8]) -> Result<usize, Refusal>
    ensures { record { answer = answer_of result; buffer = buf.new; out = out.new }
        ≡ rules.issue width buf.old out.old replica (request_of request) }
{
    if !is_sound(buf) {
        return Err(Refusal::Unsound);
    }
    issue_sound(buf, replica, request, out)
}

// Issues an add of a new node under a parent.
pub fn issue_add(buf: &mut [u8], replica: u8, parent: u16, out: &mut [u8]) -> Result<usize, Refusal>
    ensures { record { answer = answer_of result; buffer = buf.new; out = out.new }
        ≡ rules.issue width buf.old out.old replica (add parent) }
{
    issue(buf, replica, Request::Add(parent), out)
}

// Issues a remove of a node.
pub fn issue_remove(
    buf: &mut [u8],
    replica: u8,
    node: u16,
    out: &mut [u8],
) -> Result<usize, Refusal>
    ensures { record { answer = answer_of result; buffer = buf.new; out = out.new }
        ≡ rules.issue width buf.old out.old replica (remove node) }
{
    issue(buf, replica, Request::Remove(node), out)
}

// Issues a move of a node under a new parent.
pub fn issue_move(
    buf: &mut [u8],
    replica: u8,
    node: u16,
    parent: u16,
    out: &mut [u8],
) -> Result<usize, Refusal>
    ensures { record { answer = answer_of result; buffer = buf.new; out = out.new }
        ≡ rules.issue width buf.old out.old replica (move node parent) }
{
    issue(buf, replica, Request::Move(node, parent), out)
}
