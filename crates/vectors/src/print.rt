ghost use Rattle.std.specs.Prelude.{◌<◌};

use codec::{Delivered, Refusal};
use std::io::Print;

pub fn text(rt: &impl Print, s: &[u8]) {
    let _written = rt.write_all(s);
}

pub fn number(rt: &impl Print, n: usize) {
    let _written = print!(rt; "{n}");
}

fn wide_number(rt: &impl Print, n: u64) {
    let _written = print!(rt; "{n}");
}

pub fn refused(rt: &impl Print, why: Refusal) {
    text(rt, b"r ");
    number(rt, usize::from(why));
}

// What a call that is not refused answers.
pub trait Reply {
    fn tell<P: Print>(self, rt: &P);
}

impl Reply for usize {
    fn tell<P: Print>(self, rt: &P) {
        text(rt, b"a ");
        number(rt, self);
    }
}

impl Reply for () {
    fn tell<P: Print>(self, rt: &P) {
        text(rt, b"d");
    }
}

impl Reply for Delivered {
    fn tell<P: Print>(self, rt: &P) {
        match self {
            Delivered::HadIt => text(rt, b"h"),
            Delivered::Waiting => text(rt, b"w"),
            Delivered::Accepted(end) => end.tell(rt),
        }
    }
}

pub fn answered<T: Reply>(rt: &impl Print, answer: Result<T, Refusal>) {
    match answer {
        Ok(reply) => reply.tell(rt),
        Err(why) => refused(rt, why),
    }
}

const DIGITS: [u8; 16] = *b"0123456789abcdef";

// The bytes in hexadecimal, of which there are at most 64, by one write: `print!` would be one for each byte.
fn hex(rt: &impl Print, bytes: &[u8]) {
    if 64 < bytes.len() {
        return;
    }
    let mut out = [0u8; 128];
    for (i, byte) in bytes.iter().enumerate() {
        out[2 * i] = DIGITS[usize::from(*byte / 16)];
        out[2 * i + 1] = DIGITS[usize::from(*byte % 16)];
    }
    front(rt, &out, 2 * bytes.len());
}

// Writes the first n bytes.
pub fn front(rt: &impl Print, bytes: &[u8], n: usize) {
    if n <= bytes.len() {
        let _written = rt.write_all(&bytes[..n]);
    }
}

// A digest of bytes.
fn digest(bytes: &[u8]) -> u64
    ensures { result < 4294967291 }
{
    let mut h: u64 = 0;
    for byte in bytes {
        h = mixed(h, *byte);
    }
    h
}

// Lent memory after a call: its digest, and its bytes if they are few.
pub fn memory(rt: &impl Print, bytes: &[u8]) {
    text(rt, b" ");
    wide_number(rt, digest(bytes));
    if bytes.len() <= 64 {
        text(rt, b" ");
        hex(rt, bytes);
    }
}

// A digest step for one byte.
fn mixed(h: u64, byte: u8) -> u64
    requires { h < 4294967291 }
    ensures { result < 4294967291 }
{
    (h * 257 + u64::from(byte) + 1) % 4294967291
}

// The same of the first n bytes.
pub fn memory_front(rt: &impl Print, bytes: &[u8], n: usize) {
    if n <= bytes.len() {
        memory(rt, &bytes[..n]);
    }
}

// The digest of two-byte numbers, high byte first.
fn digest_words(words: &[u16]) -> u64 {
    let mut h: u64 = 0;
    for word in words {
        let [high, low] = word.to_be_bytes();
        h = mixed(mixed(h, high), low);
    }
    h
}

// Lent two-byte numbers after a call, as `memory`.
pub fn numbers(rt: &impl Print, words: &[u16]) {
    text(rt, b" ");
    wide_number(rt, digest_words(words));
    if words.len() <= 32 {
        text(rt, b" ");
        each_word(rt, words);
    }
}

fn each_word(rt: &impl Print, words: &[u16]) {
    for word in words {
        let _written = print!(rt; "{word:04x}");
    }
}
