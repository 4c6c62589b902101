use codec::Kind;

// An op to issue, but for its replica and its vector.
#[derive(Clone, Copy, Debug, PartialEq, Eq)]
pub struct Draft {
    pub kind: Kind,
    pub node: u16,
    pub parent: u16,
}
