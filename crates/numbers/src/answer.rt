#![tactic(auto, using(crate::proofs::AnswerCases::answering))]

ghost use Rattle.std.specs.Prelude.{◌≡◌};
ghost use Rattle.rules.specs.Answer.{Answer, accepted, done};
ghost use Rattle.codec.specs.Answers.{answer_by, delivered};
ghost use Rattle.numbers.specs.Fits.{PageFits, fits};
ghost use Rattle.numbers.specs.Number.{page_number};
ghost use Rattle.numbers.specs.Number as specs;

use codec::{Delivered, Refusal};

// What a call that is not refused answers, as one of the document's answers and as one number.
pub trait Reply {
    ghost says: { Self → Answer };

    fn number(self) -> usize
        requires { fits (says self) }
        ensures { result ≡ specs.number (says self) };
}

impl Reply for usize {
    ghost says = { accepted };

    fn number(self) -> usize {
        256 + self
    }
}

impl Reply for () {
    ghost says = { λ _. done };

    fn number(self) -> usize {
        129
    }
}

impl Reply for Delivered {
    ghost says = { delivered };

    fn number(self) -> usize {
        match self {
            Delivered::HadIt => 128,
            Delivered::Waiting => 130,
            Delivered::Accepted(end) => 256 + end,
        }
    }
}

// One number for an answer.
pub fn number<T: Reply>(answer: Result<T, Refusal>) -> usize
    requires { fits (answer_by T.says answer) }
    ensures { result ≡ specs.number (answer_by T.says answer) }
{
    match answer {
        Ok(reply) => reply.number(),
        Err(why) => usize::from(why),
    }
}

// One number for an answer and how many ops were taken back.
pub fn page_number<T: Reply>(answer: Result<T, Refusal>, taken: usize) -> usize
    requires { PageFits (answer_by T.says answer) taken }
    ensures { result ≡ page_number (answer_by T.says answer) taken }
{
    number(answer) + 65536 * taken
}
