// The shape that public steps test first: the model's test, and that the lent tables, the records' slots and the lists of postings fit.
#![tactic(auto)]

ghost use Rattle.std.specs.Prelude.{◌≡◌, [], ◌<◌, ◌&&◌};
ghost use Rattle.base_limits.specs.Limits.{most_live};
ghost use Rattle.step.specs.Words.{others_in};
ghost use Rattle.model.specs.Shape.{good_sizes};
ghost use Rattle.base_protocol.specs.View.{sizes_view};
ghost use Rattle.shape.specs.Shape.{tables_lent, in_place, all_in_place, tables_fit, shape_of, words_of};
ghost use Rattle.shape.specs.Tests.{txns_fit, distinct_at, all_distinct, numbers_fit};

use base_limits::{LAST_NUMBER, MOST_ACTIVE, MOST_LIVE};
use base_numbers::sum_within;
use base_protocol::{Extent, Sizes};
use shape_chains::chains_fit;
use shape_open::good_sizes;
use shape_postings::lists_tell;
use shape_txn::{counts_fit, place_fits};
use table::lists::SLOT_WORDS;
use table::{BUCKET_WORDS, ROW_WORDS, VERSION_WORDS};
use txn::{Transaction, phase_rank};
use txn_needs::versions::reserved;
use txn_places::{Others, active_number, live_count, prepared_count};

// A store beside its lent tables: sizes, clock, last used pointer, and the eight records.
#[derive(Clone, Copy)]
pub struct Machine {
    pub sizes: Sizes,
    pub clock: u64,
    pub used: u64,
    pub txns: [Transaction; MOST_LIVE],
}

// Whether each lent table has the words that its size names; divided, so that no size wraps.
// Stays with the lent tables one by one, here and below: so the C interface lends them, and `tables_lent` and the definitions behind it take their words.
pub fn tables_lent(
    rows: &[u64],
    versions: &[u64],
    buckets: &[u64],
    lists: &[u64],
    sizes: Sizes,
) -> bool
    ensures { result ≡ tables_lent rows.now versions.now buckets.now lists.now sizes }
{
    sizes.rows <= (rows.len() / ROW_WORDS) as u64
        && sizes.versions < (versions.len() / VERSION_WORDS) as u64
        && sizes.buckets <= (buckets.len() / BUCKET_WORDS) as u64
        && MOST_LIVE * SLOT_WORDS <= lists.len()
}

// Whether a record, of a free place too, stands in the slot of its place, with no more active numbers and entries than its snapshot and its lists hold.
fn in_place(i: usize, t: Transaction) -> bool
    ensures { result ≡ in_place i t }
{
    t.slot as usize == i && t.snapshot.active_n <= MOST_ACTIVE && counts_fit(t)
}

fn all_in_place(txns: [Transaction; MOST_LIVE]) -> bool
    ensures { result ≡ all_in_place txns }
{
    txns.iter().enumerate().all(|(i, t)| in_place(i, *t))
}

// Whether each record has its shape, or its place is free.
fn txns_fit(
    rows: &[u64],
    versions: &[u64],
    lists: &[u64],
    extent: Extent,
    txns: [Transaction; MOST_LIVE],
) -> bool
    ensures { result ≡ txns_fit rows.now versions.now lists.now extent txns }
{
    txns.iter()
        .all(|t| place_fits(rows, versions, lists, extent, *t))
}

// What a step needs to know of the other places.
pub fn others_of(txns: [Transaction; MOST_LIVE]) -> Others
    ensures { result ≡ others_in txns }
{
    Others {
        numbers: txns.map(|t| t.number),
        active: txns.map(|t| active_number(t.number, phase_rank(t.phase))),
        prepared: txns.map(|t| prepared_count(t.number, phase_rank(t.phase), t.writes_n)),
    }
}

// Whether what stands at a place is free or unlike all before it.
fn distinct_at(numbers: [u64; MOST_LIVE], i: usize) -> bool
    requires { i < most_live }
    ensures { result ≡ distinct_at numbers i }
{
    numbers[i] == 0 || !numbers[..i].contains(&numbers[i])
}

// Whether live numbers are distinct.
fn distinct_numbers(numbers: [u64; MOST_LIVE]) -> bool
    ensures { result ≡ all_distinct numbers }
{
    (0..MOST_LIVE).all(|i| distinct_at(numbers, i))
}

// Whether the lent tables and the lists of postings fit a machine within the limits, and its records stand in their slots.
fn tables_fit(rows: &[u64], versions: &[u64], buckets: &[u64], lists: &[u64], m: Machine) -> bool
    ensures { result ≡ (tables_fit (words_of rows.now versions.now buckets.now lists.now [] m) && good_sizes (sizes_view m.sizes)) }
{
    tables_lent(rows, versions, buckets, lists, m.sizes)
        && all_in_place(m.txns)
        && good_sizes(m.sizes)
        && lists_tell(rows, m.sizes.rows)
}

// Whether live numbers are distinct, and the numbers and the versions last for what is live.
fn numbers_fit(
    rows: &[u64],
    versions: &[u64],
    lists: &[u64],
    extent: Extent,
    others: Others,
) -> bool
    ensures { result ≡ numbers_fit rows.now versions.now lists.now extent others }
{
    distinct_numbers(others.numbers)
        && sum_within(extent.clock, live_count(others.numbers), LAST_NUMBER)
        && sum_within(
            extent.used,
            reserved(rows, versions, lists, others.prepared),
            extent.sizes.versions,
        )
}

// Whether the machine and its lent tables have the shape that every step asks for.
pub fn right_shape(
    rows: &[u64],
    versions: &[u64],
    buckets: &[u64],
    lists: &[u64],
    m: Machine,
) -> bool
    ensures { result ≡ shape_of (words_of rows.now versions.now buckets.now lists.now [] m) }
{
    let Machine {
        sizes,
        clock,
        used,
        txns,
    } = m;
    let extent = Extent { sizes, clock, used };
    tables_fit(rows, versions, buckets, lists, m)
        && clock >= 1
        && chains_fit(rows, versions, sizes, used)
        && txns_fit(rows, versions, lists, extent, txns)
        && numbers_fit(rows, versions, lists, extent, others_of(txns))
}
