ghost use Rattle.std.specs.Prelude.{◌≡◌, true, ◌++◌, ◌∷◌, [], ◌+◌, ◌-◌, ◌≤◌, eqb, length, drop, replicate};
ghost use Rattle.lists.specs.Lists.{all};
ghost use Rattle.rules.specs.Bytes.{byte};
ghost use Rattle.rules.specs.File.{width};
ghost use Rattle.rules.specs.Holdback.{holdback_ops, holdback_of, sound_holdback, waits};
ghost use Rattle.holdback_places.specs.Places.{Roomy, Occupied, Compared, close_at, put_at, without};

use soundness::WIDTH;

// How many ops can wait.
pub const PLACES: usize = 32;

// Whether all bytes are zero.
fn all_zero(bytes: &[u8]) -> bool
    ensures { result ≡ all (eqb 0) bytes.now }
{
    bytes.iter().all(|byte| *byte == 0)
}

// Number 14: whether bytes are a holdback.
pub fn is_holdback(bytes: &[u8]) -> bool
    ensures { result ≡ sound_holdback width bytes.now }
{
    if bytes.len() != 1 + WIDTH * PLACES {
        return false;
    }
    let n = usize::from(bytes[0]);
    if PLACES < n {
        return false;
    }
    let end = 1 + WIDTH * n;
    all_zero(&bytes[end..])
}

// How many ops wait.
pub fn count(holdback: &[u8]) -> usize
    requires { sound_holdback width holdback.now ≡ true }
    ensures { result ≡ byte holdback.now 0 }
{
    usize::from(holdback[0])
}

// Whether the same bytes wait already.
pub fn is_waiting(holdback: &[u8], op: &[u8]) -> bool
    requires { Compared holdback.now op.now }
    ensures { result ≡ waits width op.now holdback.now }
{
    let ops = &holdback[1..1 + WIDTH * count(holdback)];
    ops.chunks_exact(WIDTH).any(|waiting| waiting == op)
}

// Stores an op at a place of a holdback.
fn put_at(holdback: &mut [u8], at: usize, op: &[u8])
    requires { at + length op.now ≤ length holdback.old }
    ensures { holdback.new ≡ put_at holdback.old at op.now }
{
    holdback[at..at + op.len()].copy_from_slice(op);
}

// Puts an op into the first free place.
pub fn put_last(holdback: &mut [u8], op: &[u8])
    requires { Roomy holdback.old op.now }
    ensures { holdback.new
        ≡ holdback_of width (holdback_ops width holdback.old ++ (op.now ∷ [])) }
{
    let n = holdback[0];
    let at = 1 + WIDTH * usize::from(n);
    put_at(holdback, at, op);
    holdback[0] = n + 1;
}

// Moves the bytes of a part down by an op; those at the end become zero.
fn close_up(part: &mut [u8])
    requires { width ≤ length part.old }
    ensures { part.new ≡ drop width part.old ++ replicate width 0 }
{
    let end = part.len() - WIDTH;
    part.copy_within(WIDTH.., 0);
    part[end..].fill(0);
}

// Closes up the bytes of a holdback from a place on.
fn close_at(holdback: &mut [u8], at: usize)
    requires { at + width ≤ length holdback.old }
    ensures { holdback.new ≡ close_at holdback.old at }
{
    close_up(&mut holdback[at..]);
}

// Frees a place: the ops behind it close up.
pub fn free_place(holdback: &mut [u8], i: usize)
    requires { Occupied holdback.old i }
    ensures { holdback.new ≡ holdback_of width (without (holdback_ops width holdback.old) i) }
{
    let n = holdback[0];
    let at = 1 + WIDTH * i;
    close_at(holdback, at);
    holdback[0] = n - 1;
}
