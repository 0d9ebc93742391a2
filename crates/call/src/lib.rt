// Open, and any step of a machine: the shape first, 16 where it is wrong; then the step of the transaction that it names.
#![tactic(auto)]

ghost use Rattle.std.specs.Prelude.{◌≡◌, [], ◌<◌, ◌≤◌, length};
ghost use Rattle.base_limits.specs.Limits.{most_live};
ghost use Rattle.base_protocol.specs.declared.Answer.TheVariants as tell;
ghost use Rattle.shape.specs.Shape.{words_of};
ghost use Rattle.call.specs.Calls.{left, swept_for, call_of, placed_of, cleared, fresh_of, closed_of, open_of};

use base_protocol::{Answer, Extent, Refusal, Sizes, Step};
use shape::{Machine, others_of, right_shape, tables_lent};
use shape_open::can_open;
use step::{Place, Stepped, step};
use table::{BUCKET_WORDS, ROW_WORDS, VERSION_WORDS, release_every, unclaim_every};
use txn_places::{free_places, place_of, wanted};

// An answer, with the machine that goes back.
#[derive(Clone, Copy)]
pub struct Called {
    pub answer: Answer,
    pub machine: Machine,
}

// ---- open

// A machine with no version and no transaction.
fn fresh(sizes: Sizes, clock: u64) -> Machine
    ensures { result ≡ fresh_of sizes clock }
{
    Machine {
        sizes,
        clock,
        used: 0,
        txns: free_places(),
    }
}

// A closed machine, of no shape: every step of it gets 16.
pub fn closed() -> Machine
    ensures { result ≡ closed_of }
{
    fresh(
        Sizes {
            rows: 0,
            versions: 0,
            buckets: 0,
        },
        0,
    )
}

// A refused open leaves a closed machine.
fn refused_open(why: Refusal) -> Called
    ensures { result ≡ record { answer = tell.Refused why; machine = closed_of } }
{
    Called {
        answer: Answer::Refused(why),
        machine: closed(),
    }
}

// The first n words of a table become 0.
#[tactic(auto, unfolding(crate::specs::Calls::cleared))]
fn clear(xs: &mut [u64], n: usize)
    requires { n ≤ length xs.old }
    ensures { xs.new ≡ cleared n xs.old }
{
    xs[..n].fill(0);
}

// Open: a fresh store in the lent tables; words past a table's size keep their contents, and so do the lists.
// Stays with the lent tables one by one, here and below: a rule of the project (docs/DECISIONS.md, 69), and so a signature says which it may write.
#[tactic(auto, unfolding(crate::specs::Calls::open_of))]
pub fn open(
    rows: &mut [u64],
    versions: &mut [u64],
    buckets: &mut [u64],
    lists: &[u64],
    sizes: Sizes,
    clock: u64,
) -> Called
    ensures { left result rows.new versions.new buckets.new lists.now []
        ≡ open_of rows.old versions.old buckets.old lists.now sizes clock }
{
    if !can_open(sizes, clock) {
        return refused_open(Refusal::WrongSize);
    }
    if !tables_lent(rows, versions, buckets, lists, sizes) {
        return refused_open(Refusal::WrongShape);
    }
    clear(rows, ROW_WORDS * (sizes.rows as usize));
    clear(versions, VERSION_WORDS * (sizes.versions as usize + 1));
    clear(buckets, BUCKET_WORDS * (sizes.buckets as usize));
    Called {
        answer: Answer::Done,
        machine: fresh(sizes, clock),
    }
}

// ---- steps

// The record goes back to its place, and clock and last used pointer are taken over.
fn placed(m: Machine, p: usize, done: Stepped) -> Called
    requires { p < most_live }
    ensures { result ≡ placed_of m p done }
{
    let mut txns = m.txns;
    txns[p] = done.txn;
    Called {
        answer: done.answer,
        machine: Machine {
            clock: done.clock,
            used: done.used,
            txns,
            ..m
        },
    }
}

// Where the record ended, every bucket and every claim that still carries its number is freed.
#[tactic(auto, unfolding(crate::specs::Calls::swept_for))]
fn sweep(rows: &mut [u64], buckets: &mut [u64], sizes: Sizes, number: u64, number_after: u64)
    ensures { record { rows = rows.exit.now; buckets = buckets.new }
        ≡ swept_for rows.entry.now buckets.old sizes number number_after }
{
    if number == 0 || number_after != 0 {
        return;
    }
    unclaim_every(rows, sizes.rows, number);
    release_every(buckets, sizes.buckets, number);
}

// Any step: the shape first, then the step of the transaction that it names; nothing stays held or claimed for one that ended.
#[tactic(auto, unfolding(crate::specs::Calls::call_of))]
pub fn call(
    rows: &mut [u64],
    versions: &mut [u64],
    buckets: &mut [u64],
    lists: &mut [u64],
    found: &mut [u64],
    m: Machine,
    s: Step,
) -> Called
    ensures { left result rows.new versions.new buckets.new lists.new found.new
        ≡ call_of (words_of rows.old versions.old buckets.old lists.old found.old m) s }
{
    if !right_shape(rows, versions, buckets, lists, m) {
        return Called {
            answer: Answer::Refused(Refusal::WrongShape),
            machine: m,
        };
    }
    let Machine {
        sizes,
        clock,
        used,
        txns,
    } = m;
    let others = others_of(txns);
    let p = place_of(&others.numbers, wanted(s));
    let txn = txns[p];
    let extent = Extent { sizes, clock, used };
    let place = Place {
        extent,
        others,
        txn,
    };
    let done = step(rows, versions, buckets, lists, found, place, s);
    sweep(rows, buckets, sizes, txn.number, done.txn.number);
    placed(m, p, done)
}

// A step that finds no rows needs no list for them.
pub fn call_without_list(
    rows: &mut [u64],
    versions: &mut [u64],
    buckets: &mut [u64],
    lists: &mut [u64],
    m: Machine,
    s: Step,
) -> Called
    ensures { left result rows.new versions.new buckets.new lists.new []
        ≡ call_of (words_of rows.old versions.old buckets.old lists.old [] m) s }
{
    let mut none = [0u64; 0];
    call(rows, versions, buckets, lists, &mut none, m, s)
}
