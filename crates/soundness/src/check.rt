ghost use Rattle.std.specs.Prelude.{◌≡◌};
ghost use Rattle.rules.specs.File.{width};
ghost use Rattle.rules.specs.Sound.{sound};

use structure::structural;

// The bytes of an op, and of the largest file: a header, and 255 ops of each replica.
pub const WIDTH: usize = 14;

pub const LARGEST: usize = 32 + WIDTH * 2040;

// Whether a buffer holds a sound log (number 1).
#[tactic(auto, unfolding(rules::specs::Sound::sound))]
pub fn is_sound(file: &[u8]) -> bool
    ensures { result ≡ sound width file.now }
{
    structural(file, WIDTH)
}
