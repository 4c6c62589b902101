ghost use Rattle.std.specs.Prelude.{◌≡◌, ◌<◌, true, replicate};
ghost use Rattle.codec.specs.Kind.{is_kind, number};
ghost use Rattle.rules.specs.File.{log_of};
ghost use Rattle.rules.specs.Replay.{step};
ghost use Rattle.rules.specs.Tree.{slots};
ghost use Rattle.schedule.specs.Schedule.{stamped_of};
ghost use Rattle.effect.specs.Effects.{Applicable, Slotted, state_of, outcome_by, outcome_number, hung, noted};

use codec::{Kind, NoKind, kind_at, node_at, parent_at};
use schedule::Entry;
use tree::{Climbed, SLOTS, climb_to, slot_of, slot_place};

// The tables of a replay: the parent of each node, the outcome of each op, and of each node the time
// of the applied move that placed it last.
#[derive(Drop)]
pub struct Tables {
    pub parents: [u16; SLOTS],
    pub outcomes: [u8; SLOTS],
    pub placed: [u16; SLOTS],
}

// What becomes of an op: it is applied, or it is a move that is passed over, since an applied move of
// its timestamp has placed its node, or since its new parent is the node or lies below it.
#[derive(Clone, Copy, Debug, PartialEq, Eq)]
enum Outcome {
    Applied,
    Placed,
    Cycle,
}

// The document's number.
impl From<Outcome> for u8 {
    ghost from_gives = { λ outcome n. n ≡ outcome_number outcome };

    fn from(outcome: Outcome) -> u8 {
        match outcome {
            Outcome::Applied => 1,
            Outcome::Placed => 2,
            Outcome::Cycle => 3,
        }
    }
}

// The kind of an op of a structurally sound file.
fn known_kind(byte: u8) -> Kind
    requires { is_kind byte ≡ true }
    ensures { number result ≡ byte }
{
    match Kind::try_from(byte) {
        Ok(kind) => kind,
        Err(NoKind) => unreachable!(),
    }
}

impl Tables {
    // Of zeros; a replay fills them.
    pub fn new() -> Self
        ensures { (result.parents ≡ replicate slots 0) × (result.outcomes ≡ replicate slots 0)
            × (result.placed ≡ replicate slots 0) }
    {
        Tables {
            parents: [0; SLOTS],
            outcomes: [0; SLOTS],
            placed: [0; SLOTS],
        }
    }

    // The outcome of an op by its fields.
    #[tactic(auto, unfolding(crate::specs::Effects::outcome_by, rules::specs::Tree::climb_to))]
    fn outcome_of(&self, kind: Kind, node: u16, parent: u16, slot: usize, time: u16) -> Outcome
        requires { Slotted node slot }
        ensures { outcome_number result
            ≡ outcome_by (state_of self.now) (number kind) node parent slot time }
    {
        match kind {
            Kind::Add | Kind::Remove => Outcome::Applied,
            Kind::Upward | Kind::Downward => {
                if self.placed[slot] == time {
                    return Outcome::Placed;
                }
                match climb_to(&self.parents, parent, node) {
                    Climbed::Met(_) => Outcome::Cycle,
                    Climbed::Missed(_) => Outcome::Applied,
                }
            }
        }
    }

    // Hangs the node of an applied add or move.
    #[tactic(auto, unfolding(crate::specs::Effects::hung))]
    fn hang(&mut self, kind: Kind, outcome: Outcome, slot: usize, parent: u16)
        requires { slot < slots }
        ensures { state_of self.new
            ≡ hung (state_of self.old) (number kind) (outcome_number outcome) slot parent }
    {
        if outcome != Outcome::Applied {
            return;
        }
        match kind {
            Kind::Add | Kind::Upward | Kind::Downward => self.parents[slot] = parent,
            Kind::Remove => {}
        }
    }

    // Notes the time of an applied move, so that a second move of this time finds its node placed.
    #[tactic(auto, unfolding(crate::specs::Effects::noted))]
    fn note_time(&mut self, kind: Kind, outcome: Outcome, slot: usize, time: u16)
        requires { slot < slots }
        ensures { state_of self.new
            ≡ noted (state_of self.old) (number kind) (outcome_number outcome) slot time }
    {
        if outcome != Outcome::Applied {
            return;
        }
        match kind {
            Kind::Upward | Kind::Downward => self.placed[slot] = time,
            Kind::Add | Kind::Remove => {}
        }
    }

    // Applies the op of an entry, and notes its outcome.
    #[tactic(auto, using(crate::proofs::EffectLaws::node_slotted, crate::proofs::EffectLaws::own_below, crate::proofs::EffectLaws::applied))]
    pub fn apply(&mut self, file: &[u8], entry: Entry, width: usize)
        requires { Applicable width file.now entry }
        ensures { state_of self.new
            ≡ step (state_of self.old) (stamped_of (log_of width file.now) entry) }
    {
        let slot = entry.slot as usize;
        let at = slot_place(file, slot, width);
        let kind = known_kind(kind_at(file, at));
        let node = node_at(file, at);
        let parent = parent_at(file, at);
        let named = slot_of(node);
        let outcome = self.outcome_of(kind, node, parent, named, entry.time);
        self.hang(kind, outcome, named, parent);
        self.note_time(kind, outcome, named, entry.time);
        self.outcomes[slot] = u8::from(outcome);
    }
}
