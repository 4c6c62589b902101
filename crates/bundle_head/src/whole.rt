ghost use Rattle.std.specs.Prelude.{◌≡◌, ◌*◌, ◌≤◌, ltb, length};
ghost use Rattle.lists.specs.Lists.{all};
ghost use Rattle.rules.specs.Bundle.{head_size, ops_by, whole_bundle};
ghost use Rattle.rules.specs.File.{chunks, width};
ghost use Rattle.bundle_head.specs.Head.{BodiesOf, HeadEnd, agrees, agrees_at, filled};

use crate::bits::head_bytes;
use crate::head::{head_counts, total};
use codec::replica_at;
use soundness::WIDTH;

// How many bytes the head has.
pub fn head_size(bundle: &[u8]) -> usize
    requires { 1 ≤ length bundle.now }
    ensures { (result ≡ head_size bundle.now) × (1 ≤ result) × (result ≤ 9) }
{
    head_bytes(bundle[0])
}

// Whether no count byte is 0.
fn none_zero(counts: &[u8]) -> bool
    ensures { result ≡ all (ltb 0) counts.now }
{
    counts.iter().all(|count| 0 < *count)
}

// How many of n bodies are of a replica.
fn bodies_by(bodies: &[u8], n: usize, s: usize) -> usize
    requires { width * n ≤ length bodies.now }
    ensures { result ≡ ops_by (chunks width n bodies.now) s }
{
    let bodies = &bodies[..WIDTH * n];
    bodies
        .chunks_exact(WIDTH)
        .filter(|body| usize::from(replica_at(body, 0)) == s)
        .count()
}

// Whether of a replica there are as many bodies as the head says.
fn agrees_at(bodies: &[u8], n: usize, counts: [u8; 8], s: usize) -> bool
    requires { BodiesOf bodies.now n s }
    ensures { result ≡ agrees_at (chunks width n bodies.now) counts s }
{
    bodies_by(bodies, n, s) == usize::from(counts[s - 1])
}

// Whether of each replica there are as many bodies as the head says.
fn bodies_agree(bodies: &[u8], n: usize, counts: [u8; 8]) -> bool
    requires { width * n ≤ length bodies.now }
    ensures { result ≡ agrees (chunks width n bodies.now) counts }
{
    (1..9usize).all(|s| agrees_at(bodies, n, counts, s))
}

// Whether the length and the bodies' replicas are what a head of so many bytes says.
fn is_filled(bundle: &[u8], size: usize) -> bool
    requires { HeadEnd bundle.now size }
    ensures { result ≡ filled bundle.now }
{
    let counts = head_counts(bundle, bundle[0]);
    let n = total(counts);
    if bundle.len() != size + WIDTH * n {
        return false;
    }
    bodies_agree(&bundle[size..], n, counts)
}

// Whether the bytes are a bundle whose head is whole and agrees with the rest (number 12).
pub fn is_whole(bundle: &[u8]) -> bool
    ensures { result ≡ whole_bundle width bundle.now }
{
    if bundle.len() == 0 {
        return false;
    }
    let size = head_size(bundle);
    if bundle.len() < size {
        return false;
    }
    if !none_zero(&bundle[1..size]) {
        return false;
    }
    is_filled(bundle, size)
}
