// One step: the transaction at its place, the lent tables, and what the step needs to know of the other places.
#![tactic(auto)]

ghost use Rattle.std.specs.Prelude.{◌≡◌, []};
ghost use Rattle.txn.specs.Methods.{whole_of};
ghost use Rattle.step.specs.Steps.{with_clock, with_begun, kept_by, kept_installed, with_kept, clock_after, publish_step, keeps_of, in_published};
ghost use Rattle.step.specs.Steps.{step_of, keeping_of, kept_in, placing_of};

use base_numbers::one_more;
use base_protocol::{Answer, Extent, Refusal, Step};
use finish_install::{Installed, install};
use finish_publish::{abort, end, publish};
use txn::{Answered, Parts, Rest, Transaction, refused};
use txn_begin::{Begun, begin};
use txn_places::{Others, live_count, misses};
use write_prepare::{prepare, validate};

// What a step finds beside the tables: how far the store reaches, the other places, and the transaction at its own.
#[derive(Clone, Copy)]
pub struct Place {
    pub extent: Extent,
    pub others: Others,
    pub txn: Transaction,
}

// The same without the transaction.
// Stays beside `Place`, which repeats its fields: definitions and theorems of a step say a place's `extent` (`step_of`), and `beside.extent` is no plainer.
#[derive(Clone, Copy)]
pub struct Beside {
    pub extent: Extent,
    pub others: Others,
}

// What a step leaves beside the tables.
#[derive(Clone, Copy)]
pub struct Stepped {
    pub answer: Answer,
    pub txn: Transaction,
    pub clock: u64,
    pub used: u64,
}

// What a step leaves beside the tables that keeps its transaction: clock, number and snapshot stay.
#[derive(Clone, Copy)]
pub struct Kept {
    pub answer: Answer,
    pub rest: Rest,
    pub used: u64,
}

// A step that leaves clock and versions alone.
fn with_clock(a: Answered, clock: u64, used: u64) -> Stepped
    ensures { result ≡ with_clock a clock used }
{
    Stepped {
        answer: a.answer,
        txn: a.txn,
        clock,
        used,
    }
}

fn with_begun(b: Begun, used: u64) -> Stepped
    ensures { result ≡ with_begun b used }
{
    Stepped {
        answer: b.answer,
        txn: b.txn,
        clock: b.clock,
        used,
    }
}

// What a step leaves that keeps its transaction.
fn keep(a: Answered, used: u64) -> Kept
    ensures { result ≡ kept_by a used }
{
    Kept {
        answer: a.answer,
        rest: Rest::from(a.txn),
        used,
    }
}

impl From<Installed> for Kept {
    ghost from_gives = { λ i k. k ≡ kept_installed i };

    fn from(i: Installed) -> Kept {
        Kept {
            answer: i.answer,
            rest: Rest::from(i.txn),
            used: i.used,
        }
    }
}

// What a step that keeps its transaction leaves, with what it kept.
fn with_kept(k: Kept, p: Parts, clock: u64) -> Stepped
    ensures { result ≡ with_kept k p clock }
{
    Stepped {
        answer: k.answer,
        txn: Transaction::from(Parts { rest: k.rest, ..p }),
        clock,
        used: k.used,
    }
}

// The clock after a publish: up by 1 where it was not refused.
fn published_clock(answer: Answer, clock: u64) -> u64
    ensures { result ≡ clock_after answer clock }
{
    match answer {
        Answer::Stamp(_) => one_more(clock),
        _ => clock,
    }
}

// Publish moves the clock.
// Stays with the lent tables one by one, here and below: the C interface lends them and the definitions over words take them so (docs/DECISIONS.md, 69).
#[tactic(auto, unfolding(crate::specs::Steps::publish_step))]
fn step_publish(
    rows: &mut [u64],
    versions: &[u64],
    buckets: &mut [u64],
    lists: &[u64],
    extent: Extent,
    t: Transaction,
) -> Stepped
    ensures { record { stepped = result; rows = rows.new; buckets = buckets.new }
        ≡ publish_step rows.old versions.now buckets.old lists.now extent t }
{
    let a = publish(rows, versions, buckets, lists, extent, t);
    with_clock(a, published_clock(a.answer, extent.clock), extent.used)
}

// Whether a step keeps its transaction, with number and snapshot: all but begin, publish and abort.
// Stays a test before two halves that refuse each other's steps: each half promises its own (`keeping_of`, `placing_of`; docs/DECISIONS.md, 72).
pub fn keeps(s: Step) -> bool
    ensures { result ≡ keeps_of s }
{
    !matches!(s, Step::Begin | Step::Publish { .. } | Step::Abort { .. })
}

// A step that keeps its transaction; any other is refused. The record comes in parts, so that no arm copies more of it than it needs.
#[tactic(auto, unfolding(crate::specs::Steps::step_of))]
pub fn step_keeping(
    rows: &mut [u64],
    versions: &mut [u64],
    buckets: &mut [u64],
    lists: &mut [u64],
    found: &mut [u64],
    beside: Beside,
    parts: Parts,
    s: Step,
) -> Kept
    ensures { record {
      kept = result;
      rows = rows.exit.now;
      versions = versions.new;
      buckets = buckets.new;
      lists = lists.new;
      found = found.new;
    }
        ≡ kept_in
        (keeping_of
        (record {
          rows = rows.entry.now;
          versions = versions.old;
          buckets = buckets.old;
          lists = lists.old;
          found = found.old;
        })
        (record { extent = beside.extent; others = beside.others; txn = whole_of parts }) s) }
{
    let Beside { extent, others } = beside;
    let used = extent.used;
    if misses(parts.number, s) {
        return keep(refused(parts.into(), Refusal::NoSuch), used);
    }
    match s {
        Step::Capture { key, .. } => keep(
            Transaction::from(parts).capture(buckets, lists, extent.sizes.buckets, key),
            used,
        ),
        Step::Collect { .. } => keep(
            Transaction::from(parts).collect(rows, buckets, lists, extent.sizes.rows),
            used,
        ),
        Step::Rows { room, .. } => keep(
            read::rows(rows, versions, lists, found, extent, parts.into(), room),
            used,
        ),
        Step::Put {
            row,
            key,
            payload,
            ..
        } => keep(
            Transaction::from(parts).put(lists, extent.sizes.rows, row, key, payload),
            used,
        ),
        Step::Erase { row, .. } => keep(
            Transaction::from(parts).erase(lists, extent.sizes.rows, row),
            used,
        ),
        Step::Prepare { .. } => keep(
            prepare(
                rows,
                versions,
                buckets,
                lists,
                extent,
                others.prepared,
                parts.into(),
            ),
            used,
        ),
        Step::Install { .. } => install(rows, versions, lists, used, parts.into()).into(),
        Step::End { .. } => keep(end(parts.into()), used),
        Step::Validate { .. } => keep(validate(versions, buckets, lists, parts.into()), used),
        _ => keep(refused(parts.into(), Refusal::NoSuch), used),
    }
}

// Begin, publish and abort; any other step is refused.
#[tactic(auto, unfolding(crate::specs::Steps::step_of))]
pub fn step_placing(
    rows: &mut [u64],
    versions: &[u64],
    buckets: &mut [u64],
    lists: &[u64],
    beside: Beside,
    t: Transaction,
    s: Step,
) -> Stepped
    ensures { in_published (record { stepped = result; rows = rows.exit.now; buckets = buckets.new })
        (record { rows = rows.entry.now; versions = versions.now; buckets = buckets.old; lists = lists.now; found = [] })
        ≡ placing_of
        (record { rows = rows.entry.now; versions = versions.now; buckets = buckets.old; lists = lists.now; found = [] })
        (record { extent = beside.extent; others = beside.others; txn = t }) s }
{
    let Beside { extent, others } = beside;
    let Extent { clock, used, .. } = extent;
    if misses(t.number, s) {
        return with_clock(refused(t, Refusal::NoSuch), clock, used);
    }
    match s {
        Step::Begin => with_begun(
            begin(others.active, live_count(others.numbers), clock, t),
            used,
        ),
        Step::Publish { .. } => step_publish(rows, versions, buckets, lists, extent, t),
        Step::Abort { .. } => with_clock(
            abort(rows, versions, buckets, lists, extent.sizes.buckets, t),
            clock,
            used,
        ),
        _ => with_clock(refused(t, Refusal::NoSuch), clock, used),
    }
}

// A step of the transaction at its place; the record that comes in has the number that the step names, or the step is refused.
#[tactic(auto, unfolding(crate::specs::Steps::step_of))]
pub fn step(
    rows: &mut [u64],
    versions: &mut [u64],
    buckets: &mut [u64],
    lists: &mut [u64],
    found: &mut [u64],
    place: Place,
    s: Step,
) -> Stepped
    ensures { record {
      stepped = result;
      rows = rows.exit.now;
      versions = versions.new;
      buckets = buckets.new;
      lists = lists.new;
      found = found.new;
    }
        ≡ step_of
        (record {
          rows = rows.entry.now;
          versions = versions.old;
          buckets = buckets.old;
          lists = lists.old;
          found = found.old;
        })
        place s }
{
    let Place {
        extent,
        others,
        txn,
    } = place;
    let beside = Beside { extent, others };
    if keeps(s) {
        let parts = Parts::from(txn);
        let k = step_keeping(rows, versions, buckets, lists, found, beside, parts, s);
        return with_kept(k, parts, extent.clock);
    }
    step_placing(rows, versions, buckets, lists, beside, txn, s)
}
