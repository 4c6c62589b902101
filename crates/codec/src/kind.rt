ghost use Rattle.std.specs.Prelude.{◌≡◌};
ghost use Rattle.codec.specs.Kind.{Names, number};

// The kinds of ops. A move is upward or downward by the depths when it was issued.
#[derive(Clone, Copy, Debug, PartialEq, Eq)]
pub enum Kind {
    Add,
    Remove,
    Upward,
    Downward,
}

// A number that is no kind's.
#[derive(Clone, Copy, Debug, PartialEq, Eq)]
pub struct NoKind;

impl TryFrom<u8> for Kind {
    type Error = NoKind;

    ghost try_from_gives = { Names };

    fn try_from(number: u8) -> Result<Kind, NoKind> {
        match number {
            1 => Ok(Kind::Add),
            2 => Ok(Kind::Remove),
            3 => Ok(Kind::Upward),
            4 => Ok(Kind::Downward),
            0 | 5..=255 => Err(NoKind),
        }
    }
}

// The document's number.
impl From<Kind> for u8 {
    ghost from_gives = { λ kind n. n ≡ number kind };

    fn from(kind: Kind) -> u8 {
        match kind {
            Kind::Add => 1,
            Kind::Remove => 2,
            Kind::Upward => 3,
            Kind::Downward => 4,
        }
    }
}
