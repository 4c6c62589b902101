#![tactic(auto, using(crate::proofs::HeaderLaws::heading))]

ghost use Rattle.std.specs.Prelude.{◌≡◌, true, ◌++◌, ◌+◌, ◌*◌, ◌≤◌, ◌<◌, length, drop};
ghost use Rattle.rules.specs.File.{count_at, start_at, header_counts, start_of, header_of};
ghost use Rattle.rules.specs.Log.{sound_header};
ghost use Rattle.oplog.specs.Header.{entry_right, with_entry};

use codec::{put_word, word_at};

// The count that the header gives for replica s.
pub fn count_at(file: &[u8], s: usize) -> usize
    requires { (32 ≤ length file.now) × (1 ≤ s) × (s ≤ 8) }
    ensures { result ≡ count_at file.now s }
{
    usize::from(word_at(file, 4 * (s - 1)))
}

// The start that the header gives for replica s.
pub(crate) fn start_at(file: &[u8], s: usize) -> usize
    requires { (32 ≤ length file.now) × (1 ≤ s) × (s ≤ 8) }
    ensures { (result ≡ start_at file.now s) × (result < 65536) }
{
    usize::from(word_at(file, 4 * (s - 1) + 2))
}

// Whether the entry of replica s has a count of at most 255, and this start.
#[tactic(auto, unfolding(crate::specs::Header::entry_right))]
fn entry_right(file: &[u8], s: usize, start: usize) -> bool
    requires { (32 ≤ length file.now) × (1 ≤ s) × (s ≤ 8) }
    ensures { result ≡ entry_right file.now s start }
{
    count_at(file, s) <= 255 && start_at(file, s) == start
}

// Whether counts are at most 255 and starts are right. A chain over the entries would have to carry each
// start to the next one, and be no plainer.
pub fn header_right(file: &[u8], width: usize) -> bool
    requires { (32 ≤ length file.now) × (width ≤ 255) }
    ensures { result ≡ sound_header width file.now }
{
    let mut start: usize = 32;
    for i in 0..8usize {
        if !entry_right(file, i + 1, start) {
            return false;
        }
        start += width * count_at(file, i + 1);
    }
    true
}

// Where the bodies of replica s end: where those of the next start, and after the last the file's
// end.
pub fn end_of(file: &[u8], s: usize, width: usize) -> usize
    requires { (32 ≤ length file.now) × (width ≤ 255) × (sound_header width file.now ≡ true) × (1 ≤ s) × (s ≤ 8) }
    ensures { result ≡ start_of width (header_counts file.now) (s + 1) }
{
    start_at(file, s) + width * count_at(file, s)
}

// The held counts.
pub fn counts_of(file: &[u8], width: usize) -> [u8; 8]
    requires { (32 ≤ length file.now) × (sound_header width file.now ≡ true) }
    ensures { result ≡ header_counts file.now }
{
    std::array::from_fn(|i| file[4 * i + 1])
}

// Writes entry i of the header, from 0: a count and a start.
fn put_entry(buf: &mut [u8], i: usize, count: u8, start: u16)
    requires { 4 * i + 4 ≤ length buf.old }
    ensures { buf.new ≡ with_entry buf.old i count start }
{
    put_word(buf, 4 * i, count as u16);
    put_word(buf, 4 * i + 2, start);
}

// Writes the header of some counts, by number: the number tells the place of an entry, and its start comes
// from the one before, so a chain would be no plainer.
pub fn write_header(buf: &mut [u8], counts: [u8; 8], width: usize)
    requires { (32 ≤ length buf.old) × (width ≤ 16) }
    ensures { buf.new ≡ header_of width counts ++ drop 32 buf.old }
{
    let mut start: u16 = 32;
    for i in 0..8usize {
        let count = counts[i];
        put_entry(buf, i, count, start);
        start += (width * usize::from(count)) as u16;
    }
}
