ghost use Rattle.std.specs.Prelude.{◌≡◌, ◌≤◌, length, map, replicate};
ghost use Rattle.rules.specs.File.{log_of, width};
ghost use Rattle.rules.specs.Tree.{most_ops};
ghost use Rattle.page_rules.specs.Page.{padded, page_filled, page, page_of};
ghost use Rattle.page.specs.Renewing.{OneMoreLent, Renewable, Took, slot_in_entry};

use oplog::counts_of;
use page_tables::{fill, shows};
use schedule::{Entry, OPS, Schedule, write_order};
use soundness::WIDTH;
use undo::{Undoable, first_beyond};

// Puts the slots of entries into a table of zeros, which stay behind them: a table, since the one that C lends is compared with it. By index: of a table that
// iter_mut lent a proof knows no element. It is lent: handed back by value, it would stand on the stack twice.
#[tactic(auto, using(crate::proofs::RenewLaws::slots_none, crate::proofs::RenewLaws::slots_more))]
fn put_slots(entries: &[Entry], slots: &mut [u16; OPS])
    requires { (length entries.now ≤ most_ops) × (slots.old ≡ replicate most_ops 0) }
    ensures { slots.new ≡ padded (map slot_in_entry entries.now) }
{
    for (place, entry) in entries.iter().enumerate() {
        slots[place] = entry.slot;
    }
}

// Judges the old ops, looks whether the lent tables show that, and brings them on to all ops. Answers
// how many ops were taken back; where the lent tables are built anew, that is all of the old ones.
fn rejudge(
    file: &[u8],
    old: [u8; 8],
    all: [u8; 8],
    entries: &[Entry],
    order: &mut [u16],
    parents: &mut [u16],
    outcomes: &mut [u8],
) -> usize
    requires { Renewable file.now old all entries.now order.old parents.old outcomes.old }
    ensures { (page order.new parents.new outcomes.new
        ≡ page_filled (page order.old parents.old outcomes.old) (page_of (log_of width file.now)))
        × Took (log_of width file.now) old
        (page order.old parents.old outcomes.old) result }
{
    let mut slots = [0; OPS];
    put_slots(entries, &mut slots);
    let mut judged = Undoable::new();
    judged.judge_along(file, old, entries, WIDTH);
    let place = first_beyond(entries, old);
    let is_true = shows(
        order,
        parents,
        outcomes,
        &slots,
        place,
        &judged.tables.parents,
        &judged.tables.outcomes,
    );
    let taken = judged.carry(file, old, all, &entries[place..], WIDTH);
    fill(
        order,
        parents,
        outcomes,
        &slots,
        &judged.tables.parents,
        &judged.tables.outcomes,
    );
    if is_true {
        return taken;
    }
    entries.len() - 1
}

// Brings lent tables on to the page of a file that has one op more than the old counts, and answers
// how many ops were taken back.
pub(crate) fn renew(
    file: &[u8],
    old: [u8; 8],
    order: &mut [u16],
    parents: &mut [u16],
    outcomes: &mut [u8],
) -> usize
    requires { OneMoreLent file.now old order.old parents.old outcomes.old }
    ensures { (page order.new parents.new outcomes.new
        ≡ page_filled (page order.old parents.old outcomes.old) (page_of (log_of width file.now)))
        × Took (log_of width file.now) old
        (page order.old parents.old outcomes.old) result }
{
    let all = counts_of(file, WIDTH);
    let mut schedule = Schedule::new();
    write_order(file, all, &mut schedule, WIDTH);
    rejudge(file, old, all, schedule.entries(), order, parents, outcomes)
}
