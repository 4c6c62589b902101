ghost use Rattle.std.specs.Prelude.{◌≡◌};
ghost use Rattle.rules.specs.File.{width, log_of};
ghost use Rattle.marks.specs.Knowing.{MarkedLog, knowledge_of};
ghost use Rattle.rules.specs.Marks as rules;

use soundness::WIDTH;
use structure::known_in;
use tree::slot_in;

// What a vector knows of a node.
#[derive(Clone, Copy)]
pub enum Knowledge {
    Unknown,
    KnownUnmarked,
    KnownMarked,
}

// What the held counts know of a node, by the table of marks.
pub fn knowledge_of(file: &[u8], counts: [u8; 8], marks: &[u8], node: u16) -> Knowledge
    requires { MarkedLog file.now counts marks.now }
    ensures { knowledge_of result ≡ rules.knowledge (log_of width file.now) counts node }
{
    if !known_in(file, counts, node, WIDTH) {
        return Knowledge::Unknown;
    }
    let slot = slot_in(node);
    if marks[slot] == 0 {
        return Knowledge::KnownUnmarked;
    }
    Knowledge::KnownMarked
}
