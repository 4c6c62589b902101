ghost use Rattle.std.specs.Prelude.{◌≡◌, ◌+◌, ◌≤◌, length};
ghost use Rattle.rules.specs.Listing.{decimal};
ghost use Rattle.pen.specs.Lines.{written};

// How many decimal digits a two-byte number has.
pub(crate) fn digit_count(n: u16) -> usize
    ensures { (result ≡ length (decimal n)) × (result ≤ 5) }
{
    n.checked_ilog10().unwrap_or(0) as usize + 1
}

// Writes a number in decimal at a place, and answers the place after it.
pub(crate) fn put_decimal(out: &mut [u8], at: usize, n: u16) -> usize
    requires { at + length (decimal n) ≤ length out.old }
    ensures { (result ≡ at + length (decimal n)) × (out.new ≡ written out.old at (decimal n)) }
{
    let end = at + digit_count(n);
    itoa::write_digits(u64::from(n), out, end);
    end
}
