// What the shape asks of one transaction's record and its lists.
#![tactic(auto)]

ghost use Rattle.std.specs.Prelude.{◌≡◌};
ghost use Rattle.shape_txn.specs.TxnShape.{counts_fit, writes_in, record_in, records_in, candidates_in, reads_in, ranges_fit, row_fits, rows_headed, heads_fit};
ghost use Rattle.shape_txn.specs.TxnShape.{txn_fits, place_fits};

use base_limits::{MOST_INDEX_READS, MOST_RECORDS, MOST_ROWS, MOST_WRITES};
use base_numbers::within;
use base_protocol::Extent;
use table::lists::{candidate_at, read_bucket_at, record_ptr_at, record_row_at, write_row_at};
use table_scans::least_of;
use txn::{INSTALLED, Transaction, bucket_in, phase_rank};
use txn_needs::{gets_version, headed_by};

// Whether counts are within limits.
pub fn counts_fit(t: Transaction) -> bool
    ensures { result ≡ counts_fit t }
{
    t.reads_n <= MOST_INDEX_READS
        && t.writes_n <= MOST_WRITES
        && t.records_n <= MOST_RECORDS
        && t.candidates_n <= MOST_ROWS as u32
}

// Whether rows, buckets and recorded pointers are in range, list by list.
// Stays with the lent tables one by one, here and below: so the C interface lends them, and `ranges_fit` and the definitions behind it take their words.
fn writes_in(lists: &[u64], t: Transaction, row_count: u64) -> bool
    ensures { result ≡ writes_in lists.now t row_count }
{
    (0..t.writes_n).all(|i| write_row_at(lists, t.slot, i) < row_count)
}

fn record_in(row_count: u64, used: u64, row: u64, ptr: u64) -> bool
    ensures { result ≡ record_in row_count used row ptr }
{
    row < row_count && within(ptr, used)
}

fn records_in(lists: &[u64], t: Transaction, row_count: u64, used: u64) -> bool
    ensures { result ≡ records_in lists.now t row_count used }
{
    (0..t.records_n).all(|i| {
        record_in(
            row_count,
            used,
            record_row_at(lists, t.slot, i),
            record_ptr_at(lists, t.slot, i),
        )
    })
}

fn candidates_in(lists: &[u64], t: Transaction, row_count: u64) -> bool
    ensures { result ≡ candidates_in lists.now t row_count }
{
    (0..t.candidates_n).all(|i| candidate_at(lists, t.slot, i) < row_count)
}

fn reads_in(lists: &[u64], t: Transaction, bucket_count: u64) -> bool
    ensures { result ≡ reads_in lists.now t bucket_count }
{
    (0..t.reads_n).all(|i| read_bucket_at(lists, t.slot, i) < bucket_count)
}

#[tactic(auto, unfolding(crate::specs::TxnShape::ranges_fit))]
fn ranges_fit(lists: &[u64], extent: Extent, t: Transaction) -> bool
    ensures { result ≡ ranges_fit lists.now extent t }
{
    writes_in(lists, t, extent.sizes.rows)
        && records_in(lists, t, extent.sizes.rows, extent.used)
        && candidates_in(lists, t, extent.sizes.rows)
        && reads_in(lists, t, extent.sizes.buckets)
        && bucket_in(t.phase) < extent.sizes.buckets
}

// Whether a pending row is headed by the transaction's version; or its last write is an erase and it has no live head.
fn row_fits(rows: &[u64], versions: &[u64], lists: &[u64], t: Transaction, row: u64) -> bool
    ensures { result ≡ row_fits rows.now versions.now lists.now t row }
{
    headed_by(rows, versions, t.number, row)
        || !gets_version(rows, versions, lists, t.slot, t.writes_n, row)
}

fn rows_headed(rows: &[u64], versions: &[u64], lists: &[u64], t: Transaction) -> bool
    ensures { result ≡ rows_headed rows.now versions.now lists.now t }
{
    (0..t.writes_n).all(|i| row_fits(rows, versions, lists, t, write_row_at(lists, t.slot, i)))
}

// Whether each pending row of an Installed or Ended transaction is headed as it must be.
#[tactic(auto, unfolding(crate::specs::TxnShape::heads_fit))]
fn heads_fit(rows: &[u64], versions: &[u64], lists: &[u64], t: Transaction) -> bool
    ensures { result ≡ heads_fit rows.now versions.now lists.now t }
{
    phase_rank(t.phase) < INSTALLED || rows_headed(rows, versions, lists, t)
}

// Whether a live transaction has its shape.
#[tactic(auto, unfolding(crate::specs::TxnShape::txn_fits))]
fn txn_fits(rows: &[u64], versions: &[u64], lists: &[u64], extent: Extent, t: Transaction) -> bool
    ensures { result ≡ txn_fits rows.now versions.now lists.now extent t }
{
    t.number < extent.clock
        && t.snapshot.xmin == least_of(t.number, t.snapshot.active, t.snapshot.active_n)
        && counts_fit(t)
        && ranges_fit(lists, extent, t)
        && heads_fit(rows, versions, lists, t)
}

// The same of what stands at a place; a free one is asked for nothing.
#[tactic(auto, unfolding(crate::specs::TxnShape::place_fits))]
pub fn place_fits(
    rows: &[u64],
    versions: &[u64],
    lists: &[u64],
    extent: Extent,
    t: Transaction,
) -> bool
    ensures { result ≡ place_fits rows.now versions.now lists.now extent t }
{
    t.number == 0 || txn_fits(rows, versions, lists, extent, t)
}
