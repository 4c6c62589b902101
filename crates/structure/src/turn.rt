#![tactic(auto, using(crate::proofs::WalkLaws::walking))]

ghost use Rattle.std.specs.Prelude.{◌≡◌, replicate};
ghost use Rattle.oplog.specs.Places.{Stands, next_place};
ghost use Rattle.structure.specs.Tests.{Turned};

use codec::vector_at;
use oplog::{Marker, count_at};

// Where a walk through the file stands: a marker, the place of its op, and the vector of its replica's
// op before, or none at a replica's first.
#[derive(Clone, Copy)]
pub(crate) struct Turn {
    pub(crate) marker: Marker,
    pub(crate) at: usize,
    pub(crate) before: [u8; 8],
}

impl Turn {
    pub(crate) fn first() -> Turn
        ensures { (result.marker.replica ≡ 1) × (result.marker.sequence ≡ 1) × (result.at ≡ 32) × (result.before ≡ replicate 8 0) }
    {
        Turn {
            marker: Marker::first(),
            at: 32,
            before: [0; 8],
        }
    }

    // Where the op at the next marker starts: behind the one at this one, if there is one.
    fn next_place(self, file: &[u8], width: usize) -> usize
        requires { Stands width file.now self.marker self.at }
        ensures { result ≡ next_place width file.now self.marker self.at }
    {
        if self.marker.in_file(file) {
            self.at + width
        } else {
            self.at
        }
    }

    // One branch for all three: that a replica has more ops is foreseen, so no turn waits for the count.
    pub(crate) fn next(self, file: &[u8], width: usize) -> Turn
        requires { Stands width file.now self.marker self.at }
        ensures { Turned width file.now self.marker self.at result }
    {
        if self.marker.sequence < count_at(file, self.marker.replica) {
            Turn {
                marker: self.marker.next(file),
                at: self.at + width,
                before: vector_at(file, self.at),
            }
        } else {
            Turn {
                marker: self.marker.next(file),
                at: self.next_place(file, width),
                before: [0; 8],
            }
        }
    }
}
