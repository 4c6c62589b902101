// What a caller asks to issue.
#[derive(Clone, Copy, Debug, PartialEq, Eq)]
pub enum Request {
    // A new node under a parent.
    Add(u16),
    // A node.
    Remove(u16),
    // A node under a new parent.
    Move(u16, u16),
}
