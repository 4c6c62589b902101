ghost use Rattle.std.specs.Prelude.{◌≡◌, ◌+◌, ◌≤◌, ◌<◌, length, take, drop};
ghost use Rattle.vector.specs.Packed.{packed_of, EightCounts, unit_of, is_step};
ghost use Rattle.vector.specs.Spread.{spread_of, all_marked, Counts};
ghost use Rattle.rules.specs.Op.{count_in};
ghost use Rattle.rules.specs.File as log;

// The version vector (the document's context) at a place. Byte by byte: with `copy_from_slice` the
// structural test of 2,040 ops took 92 microseconds in place of 62.
pub fn read_vector(bytes: &[u8], at: usize) -> [u8; 8]
    requires { at + 8 ≤ length bytes.now }
    ensures { result ≡ take 8 (drop at bytes.now) }
{
    std::array::from_fn(|i| bytes[at + i])
}

// Four counts in one number, 16 bits for each, so that they are compared all at once.
#[tactic(auto, unfolding(crate::specs::Spread::spread_of))]
fn spread(a: u8, b: u8, c: u8, d: u8) -> u64
    ensures { (result ≡ spread_of a b c d) × Counts a b c d }
{
    u64::from(a) + 65536 * (u64::from(b) + 65536 * (u64::from(c) + 65536 * u64::from(d)))
}

// Whether bit 8 of each of the four parts is set.
#[tactic(auto, unfolding(crate::specs::Spread::all_marked))]
fn all_marked(n: u64) -> bool
    ensures { result ≡ all_marked n }
{
    n / 256 % 2 == 1
        && n / 16777216 % 2 == 1
        && n / 1099511627776 % 2 == 1
        && n / 72057594037927936 % 2 == 1
}

// Whether a vector is nowhere greater than another. 256 is added to each count of u before that of
// v is taken away, so bit 8 of a part tells whether it was as great. The 4096 more in the highest
// part lets one mask test all four.
#[tactic(auto, using(crate::proofs::VectorLaws::comparing))]
pub fn within(v: [u8; 8], u: [u8; 8]) -> bool
    ensures { result ≡ log.within v u }
{
    let even = spread(u[0], u[2], u[4], u[6]) + 1224980198173180160
        - spread(v[0], v[2], v[4], v[6]);
    let odd = spread(u[1], u[3], u[5], u[7]) + 1224980198173180160 - spread(v[1], v[3], v[5], v[7]);
    all_marked(even) && all_marked(odd)
}

// All eight counts in one number, 8 bits for each.
#[tactic(auto, using(crate::proofs::PackedLaws::packing))]
fn packed(v: [u8; 8]) -> u64
    ensures { (result ≡ packed_of v) × EightCounts v }
{
    let even = spread(v[0], v[2], v[4], v[6]);
    let odd = spread(v[1], v[3], v[5], v[7]);
    even + 256 * odd
}

// One op of replica s, in that number.
#[tactic(auto, using(crate::proofs::PackedLaws::packing))]
fn unit(s: usize) -> u64
    requires { (1 ≤ s) × (s ≤ 8) }
    ensures { result ≡ unit_of s }
{
    1u64 << (8 * (s - 1))
}

// Whether a vector counts one op more of replica s than another, and is the same otherwise.
#[tactic(auto, using(crate::proofs::PackedLaws::packing))]
pub fn is_step(before: [u8; 8], v: [u8; 8], s: usize) -> bool
    requires { (1 ≤ s) × (s ≤ 8) × (count_in before s < 255) }
    ensures { result ≡ is_step before v s }
{
    packed(before) + unit(s) == packed(v)
}
