#![tactic(auto, using(crate::proofs::DeliverCases::delivering))]

ghost use Rattle.std.specs.Prelude.{◌≡◌, true, leb};
ghost use Rattle.rules.specs.Op.{is_replica, count_in};
ghost use Rattle.rules.specs.File.{width, log_of};
ghost use Rattle.rules.specs.Sound.{sound};
ghost use Rattle.oplog.specs.Places.{Held};
ghost use Rattle.codec.specs.Answers.{answer_by, answer_of, delivery_of};
ghost use Rattle.delivery.specs.Delivering.{names_in, Readable, Again, Fresh};
ghost use Rattle.rules.specs.Answer.{had_it};
ghost use Rattle.rules.specs.Deliver as rules;

use crate::adding::{accept, last_test};
use codec::{Delivered, Fields, Refusal, read_op, vector_at};
use oplog::{counts_of, place, same_op};
use soundness::WIDTH;
use structure::{closed_in, names_known};
use vector::within;

// Number 4: whether the op that is held of this replica and sequence is another.
fn answer_held(file: &[u8], fields: Fields, op: &[u8]) -> Result<(), Refusal>
    requires { Again file.now op.now fields }
    ensures { answer_by (λ _. had_it) result ≡ rules.deliver_answer width file.now op.now }
{
    let at = place(
        file,
        usize::from(fields.replica),
        usize::from(fields.sequence),
        WIDTH,
    );
    if !same_op(file, at, op) {
        return Err(Refusal::Conflict);
    }
    Ok(())
}

// Whether an op of this replica and sequence is held.
fn is_held(counts: [u8; 8], fields: Fields) -> bool
    requires { is_replica fields.replica ≡ true }
    ensures { result ≡ leb fields.sequence (count_in counts fields.replica) }
{
    fields.sequence <= counts[usize::from(fields.replica) - 1]
}

// Number 7: whether the nodes that an op names are known to its vector.
fn names(file: &[u8], v: [u8; 8], fields: Fields) -> bool
    requires { Held width file.now v }
    ensures { result ≡ names_in (log_of width file.now) v fields }
{
    let own = u16::from_be_bytes([fields.replica, fields.sequence]);
    names_known(file, v, fields.kind, fields.node, fields.parent, own, WIDTH)
}

// The tests 5, 6, 7 and 8, where no op of this replica and sequence is held.
fn answer_new(file: &[u8], counts: [u8; 8], fields: Fields, op: &[u8]) -> Result<usize, Refusal>
    requires { Fresh file.now op.now fields counts }
    ensures { answer_of result ≡ rules.deliver_answer width file.now op.now }
{
    let v = vector_at(op, 0);
    if !within(v, counts) {
        return Err(Refusal::Early);
    }
    if !closed_in(file, v, WIDTH) {
        return Err(Refusal::NotClosed);
    }
    if !names(file, v, fields) {
        return Err(Refusal::Unknown);
    }
    last_test(file)
}

// Delivers an op that reads to a sound log.
pub fn deliver_read(buf: &mut [u8], fields: Fields, op: &[u8]) -> Result<Delivered, Refusal>
    requires { Readable buf.old op.now fields }
    ensures { record { answer = delivery_of result; buffer = buf.new }
        ≡ rules.deliver width buf.old op.now }
{
    let counts = counts_of(buf, WIDTH);
    if is_held(counts, fields) {
        answer_held(buf, fields, op)?;
        return Ok(Delivered::HadIt);
    }
    let end = answer_new(buf, counts, fields, op)?;
    accept(buf, counts, fields.replica, op);
    Ok(Delivered::Accepted(end))
}

// Delivers an op to a sound log: the tests from 2 on.
pub fn deliver_next(buf: &mut [u8], op: &[u8]) -> Result<Delivered, Refusal>
    requires { sound width buf.old ≡ true }
    ensures { record { answer = delivery_of result; buffer = buf.new }
        ≡ rules.deliver width buf.old op.now }
{
    let fields = read_op(op, WIDTH)?;
    deliver_read(buf, fields, op)
}
