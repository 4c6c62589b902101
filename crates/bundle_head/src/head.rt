ghost use Rattle.std.specs.Prelude.{◌∷◌, [], ◌++◌, ◌≡◌, ◌+◌, ◌-◌, ◌≤◌, ltb, length, take, drop};
ghost use Rattle.lists.specs.Lists.{sum, filter};
ghost use Rattle.rules.specs.Bundle.{head_byte, head_counts};
ghost use Rattle.bundle_head.specs.Head.{HeadRoom, WholeHead, beyond_of, bit_of};

use crate::bits::{bits_above, zeros_below};

// How many ops of each replica are beyond the other's counts.
#[tactic(auto, unfolding(crate::specs::Head::beyond_of, crate::specs::Head::beyond_at, rules::specs::Op::replicas, rules::specs::Op::count_in, lists::specs::Lists::up_from))]
pub fn beyond_counts(held: [u8; 8], counts: [u8; 8]) -> [u8; 8]
    ensures { result ≡ beyond_of held counts }
{
    std::array::from_fn(|i| held[i].saturating_sub(counts[i]))
}

// The sum of eight counts.
pub fn total(counts: [u8; 8]) -> usize
    ensures { (result ≡ sum counts) × (result ≤ 2040) }
{
    counts.iter().map(|count| usize::from(*count)).sum()
}

// The bit of a replica: it is set if the replica contributes.
fn bit_of(count: u8) -> u8
    ensures { (result ≡ bit_of count) × (result ≤ 1) }
{
    u8::from(count != 0)
}

// The bits of four replicas, the first lowest. A fold over the counts has no bound for its number: its
// closure does not know how many bits are in it.
fn four_bits(a: u8, b: u8, c: u8, d: u8) -> u8
    ensures { (result ≡ head_byte (a ∷ b ∷ c ∷ d ∷ [])) × (result ≤ 15) }
{
    bit_of(a) + 2 * (bit_of(b) + 2 * (bit_of(c) + 2 * bit_of(d)))
}

// The first byte of a head: a bit for each replica.
pub fn head_byte(counts: [u8; 8]) -> u8
    ensures { result ≡ head_byte counts }
{
    let low = four_bits(counts[0], counts[1], counts[2], counts[3]);
    let high = four_bits(counts[4], counts[5], counts[6], counts[7]);
    low + 16 * high
}

// Writes a count byte for each bit of the head that is set, in replica order, behind the first byte. No
// iterator gives the bits that are set.
pub fn put_counts(out: &mut [u8], head: u8, counts: [u8; 8])
    requires { HeadRoom out.old head counts }
    ensures { out.new ≡ take 1 out.old
        ++ (filter (ltb 0) counts ++ drop (1 + length (filter (ltb 0) counts)) out.old) }
{
    let mut bits = head;
    let mut index = 0;
    let mut at = 1;
    while bits != 0 {
        let next = index + zeros_below(bits);
        out[at] = counts[next];
        bits = bits_above(bits);
        index = next + 1;
        at += 1;
    }
}

// The counts that a head gives: the next count byte for each bit that is set, else 0. No
// iterator gives the bits that are set.
pub fn head_counts(bundle: &[u8], head: u8) -> [u8; 8]
    requires { WholeHead bundle.now head }
    ensures { result ≡ head_counts bundle.now }
{
    let mut counts = [0u8; 8];
    let mut bits = head;
    let mut index = 0;
    let mut at = 1;
    while bits != 0 {
        let next = index + zeros_below(bits);
        counts[next] = bundle[at];
        bits = bits_above(bits);
        index = next + 1;
        at += 1;
    }
    counts
}
