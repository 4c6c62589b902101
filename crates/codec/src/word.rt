ghost use Rattle.std.specs.Prelude.{◌≡◌, ◌+◌, ◌*◌, ◌<◌, ◌≤◌, ◌/◌, ◌%◌, length, set};
ghost use Rattle.rules.specs.Bytes.{word_at};

// The two-byte number at a place, high byte first.
pub fn word_at(bytes: &[u8], at: usize) -> u16
    requires { at + 1 < length bytes.now }
    ensures { result ≡ word_at bytes.now at }
{
    u16::from_be_bytes([bytes[at], bytes[at + 1]])
}

// Stores a two-byte number at a place, high byte first.
pub fn put_word(bytes: &mut [u8], at: usize, value: u16)
    requires { at + 1 < length bytes.old }
    ensures { bytes.new ≡ set (set bytes.old at (value / 256)) (at + 1) (value % 256) }
{
    bytes[at] = (value / 256) as u8;
    bytes[at + 1] = (value % 256) as u8;
}
