#![tactic(auto, using(crate::proofs::MarkerLaws::stepping))]

ghost use Rattle.std.specs.Prelude.{◌≡◌, ◌+◌, ◌≤◌, length, leb};
ghost use Rattle.rules.specs.File.{count_at};
ghost use Rattle.oplog.specs.Places.{next_marker};

use crate::header::count_at;

// A marker (the document's): the op number `sequence` of a replica, both from 1. It steps through the
// bodies in file order.
#[derive(Clone, Copy)]
pub struct Marker {
    pub replica: usize,
    pub sequence: usize,
}

impl Marker {
    pub fn first() -> Marker
        ensures { (result.replica ≡ 1) × (result.sequence ≡ 1) }
    {
        Marker {
            replica: 1,
            sequence: 1,
        }
    }

    // Whether the file has the op.
    pub fn in_file(self, file: &[u8]) -> bool
        requires { (32 ≤ length file.now) × (1 ≤ self.replica) × (self.replica ≤ 8) }
        ensures { result ≡ leb self.sequence (count_at file.now self.replica) }
    {
        self.sequence <= count_at(file, self.replica)
    }

    // The next in file order; a replica without ops is passed with sequence 1.
    pub fn next(self, file: &[u8]) -> Marker
        requires { (32 ≤ length file.now) × (1 ≤ self.replica) × (self.replica ≤ 8) }
        ensures { result ≡ next_marker file.now self }
    {
        let replica = self.replica;
        let sequence = self.sequence;
        if sequence < count_at(file, replica) {
            Marker {
                replica,
                sequence: sequence + 1,
            }
        } else {
            Marker {
                replica: replica + 1,
                sequence: 1,
            }
        }
    }
}
