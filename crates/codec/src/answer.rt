ghost use Rattle.std.specs.Prelude.{◌≡◌};
ghost use Rattle.codec.specs.Answers.{delivered, number_of};
ghost use Rattle.codec.specs.Asked.{is_accepted};

// Why a call is refused: a case for each of the document's numbers.
#[derive(Clone, Copy, Debug, PartialEq, Eq)]
pub enum Refusal {
    // 1: the log is not sound.
    Unsound,
    // 2: lent or delivered memory has the wrong length.
    Length,
    // 3: a replica or an op out of form.
    Malformed,
    // 4: another op of this replica and sequence is held.
    Conflict,
    // 5: the op's vector counts what is not held.
    Early,
    // 6: the op's vector is not closed.
    NotClosed,
    // 7: a node that is not known.
    Unknown,
    // 8: no room.
    NoRoom,
    // 9: the replica has issued all its ops.
    Exhausted,
    // 10: the new parent lies below the node.
    Cycle,
    // 11: the node or the parent of new work is marked.
    Marked,
    // 12: a bundle that has no whole head, or disagrees with it.
    BadBundle,
    // 13: an early op that is not in the holdback, and no place for it.
    HoldbackFull,
    // 14: a holdback of a wrong length or count, or with a byte past its ops.
    BadHoldback,
}

// The document's number.
impl From<Refusal> for usize {
    ghost from_gives = { λ why n. n ≡ number_of why };

    fn from(why: Refusal) -> usize {
        match why {
            Refusal::Unsound => 1,
            Refusal::Length => 2,
            Refusal::Malformed => 3,
            Refusal::Conflict => 4,
            Refusal::Early => 5,
            Refusal::NotClosed => 6,
            Refusal::Unknown => 7,
            Refusal::NoRoom => 8,
            Refusal::Exhausted => 9,
            Refusal::Cycle => 10,
            Refusal::Marked => 11,
            Refusal::BadBundle => 12,
            Refusal::HoldbackFull => 13,
            Refusal::BadHoldback => 14,
        }
    }
}

// What a delivery that is not refused answers.
#[derive(Clone, Copy, Debug, PartialEq, Eq)]
pub enum Delivered {
    // The op was held already.
    HadIt,
    // The op is early, and held back.
    Waiting,
    // The op is added; the new file end.
    Accepted(usize),
}

impl Delivered {
    // Whether the op was added.
    pub fn is_accepted(self) -> bool
        ensures { result ≡ is_accepted (delivered self) }
    {
        matches!(self, Delivered::Accepted(_))
    }
}
