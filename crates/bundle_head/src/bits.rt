ghost use Rattle.std.specs.Prelude.{◌≡◌, ◌+◌, ◌/◌, ◌^◌, ◌≤◌, ◌<◌, suc};
ghost use Rattle.std.specs.Int.Count.{ones, count_trailing_zeros};

// How many bits of a head are set: as many count bytes follow it.
fn ones_in(head: u8) -> usize
    ensures { (result ≡ ones head) × (result ≤ 8) }
{
    u8::count_ones(head) as usize
}

// How many bytes a head has: this one, and the count bytes.
pub fn head_bytes(head: u8) -> usize
    ensures { (result ≡ 1 + ones head) × (1 ≤ result) × (result ≤ 9) }
{
    1 + ones_in(head)
}

// How many bits lie below the lowest that is set; 8 if none is.
pub fn zeros_below(bits: u8) -> usize
    ensures { (result ≡ count_trailing_zeros 8 bits) × (result ≤ 8) }
{
    u8::trailing_zeros(bits) as usize
}

// The bits above the lowest that is set.
pub fn bits_above(bits: u8) -> u8
    requires { count_trailing_zeros 8 bits < 8 }
    ensures { result ≡ bits / 2 ^ suc (count_trailing_zeros 8 bits) }
{
    (bits >> u8::trailing_zeros(bits)) / 2
}
