#![tactic(auto, using(crate::proofs::JudgeCases::judging))]

ghost use Rattle.std.specs.Prelude.{◌≡◌};
ghost use Rattle.rules.specs.File.{width};
ghost use Rattle.codec.specs.Answers.{done_of};
ghost use Rattle.rules.specs.Judge as rules;

use codec::Refusal;
use effect::Tables;
use replay::replay_all;
use soundness::{WIDTH, is_sound};
use tree::SLOTS;

// Replays a log into the first 2,041 entries of two tables: each node's parent, and each op's
// outcome.
pub fn judge(file: &[u8], parents: &mut [u16], outcomes: &mut [u8]) -> Result<(), Refusal>
    ensures { record { answer = done_of result; parents = parents.new; outcomes = outcomes.new }
        ≡ rules.judge width file.now parents.old outcomes.old }
{
    if !is_sound(file) {
        return Err(Refusal::Unsound);
    }
    if parents.len() < SLOTS {
        return Err(Refusal::Length);
    }
    if outcomes.len() < SLOTS {
        return Err(Refusal::Length);
    }
    let mut tables = Tables::new();
    replay_all(file, &mut tables, WIDTH);
    parents[..SLOTS].copy_from_slice(&tables.parents);
    outcomes[..SLOTS].copy_from_slice(&tables.outcomes);
    Ok(())
}
