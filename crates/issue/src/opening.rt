#![tactic(auto, using(crate::proofs::OpeningCases::opening))]

ghost use Rattle.std.specs.Prelude.{◌≡◌, true};
ghost use Rattle.rules.specs.File.{width};
ghost use Rattle.rules.specs.Sound.{sound};
ghost use Rattle.codec.specs.Answers.{answer_of};
ghost use Rattle.request.specs.Requests.{request_of};
ghost use Rattle.rules.specs.Issue as rules;

use crate::putting::issue_next;
use codec::{Refusal, is_replica};
use request::Request;
use soundness::WIDTH;

// Issues what is asked for at a sound log: the tests from 2 on.
pub fn issue_sound(
    buf: &mut [u8],
    replica: u8,
    request: Request,
    out: &mut [u8],
) -> Result<usize, Refusal>
    requires { sound width buf.old ≡ true }
    ensures { record { answer = answer_of result; buffer = buf.new; out = out.new }
        ≡ rules.issue width buf.old out.old replica (request_of request) }
{
    if out.len() < WIDTH {
        return Err(Refusal::Length);
    }
    if !is_replica(replica) {
        return Err(Refusal::Malformed);
    }
    issue_next(buf, replica, request, out)
}
