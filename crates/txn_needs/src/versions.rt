// The pending rows that get a version, and how many versions Prepared transactions have reserved.
ghost use Rattle.std.specs.Prelude.{◌≡◌};
ghost use Rattle.base_limits.specs.Limits.{most_live};
ghost use Rattle.txn_needs.specs.Listing.{listed_of};
ghost use Rattle.txn_needs.specs.Needs.{push_all, rows_written};
ghost use Rattle.txn_needs.specs.Versions.{pending_into, versions_into, versions_in, reserved_in};

use super::{Listing, gets_version};
use base_limits::{MOST_BUCKETS, MOST_LIVE, MOST_WRITES};
use table::lists::write_row_at;
use table_buckets::{canonical_buckets_sort, sorted_count};

// Words for the rows of all pending writes of a transaction.
pub const MOST_PENDING: usize = MOST_WRITES as usize;

// The rows of the pending writes, as they stand.
// Stays with lists, slot and count one by one, here and below: the definitions over words take them so (`rows_written`), and a struct would serve one call.
fn push_rows(lists: &[u64], slot: u32, count: u32, out: &mut Listing)
    ensures same_words { out.new.out.ghost_name ≡ out.old.out.ghost_name }
    ensures listed { listed_of out.new ≡ push_all (listed_of out.old) (rows_written lists.now slot count) }
{
    for i in 0..count {
        out.push(write_row_at(lists, slot, i));
    }
}

// The distinct rows of the pending writes go ascending to the front of `out`; tells how many they are.
#[tactic(auto, unfolding(crate::specs::Versions::pending_into, crate::specs::Versions::rows_listed))]
pub fn pending_rows(lists: &[u64], slot: u32, count: u32, out: &mut [u64]) -> usize
    ensures { record { out = out.exit.now; n = result } ≡ pending_into lists.now slot count out.entry.now }
{
    let mut words = [0; MOST_PENDING];
    let mut pending = Listing::new(&mut words);
    push_rows(lists, slot, count, &mut pending);
    sorted_count(canonical_buckets_sort(pending.as_slice(), MOST_BUCKETS, out))
}

// The distinct rows of the pending writes that get a version go ascending to the front of `out`; tells how many they are.
// Stays with the lent tables one by one, here and below: the C interface lends them and the definitions over words take them so (docs/DECISIONS.md, 69).
pub fn version_rows(
    rows: &[u64],
    versions: &[u64],
    lists: &[u64],
    slot: u32,
    count: u32,
    out: &mut [u64],
) -> usize
    ensures { record { out = out.exit.now; n = result }
        ≡ versions_into rows.now versions.now lists.now slot count out.entry.now }
{
    let mut pending = [0; MOST_PENDING];
    let n = pending_rows(lists, slot, count, &mut pending);
    let mut kept = Listing::new(out);
    for row in &pending[..n.min(MOST_PENDING)] {
        let gets = gets_version(rows, versions, lists, slot, count, *row);
        if gets {
            kept.push(*row);
        }
    }
    kept.n
}

// How many distinct rows of the pending writes of a slot get a version.
pub fn count_versions(rows: &[u64], versions: &[u64], lists: &[u64], slot: u32, count: u32) -> u64
    ensures { result ≡ versions_in rows.now versions.now lists.now slot count }
{
    if count == 0 {
        return 0;
    }
    let mut list = [0; MOST_PENDING];
    version_rows(rows, versions, lists, slot, count, &mut list).min(MOST_PENDING) as u64
}

// The versions that Prepared transactions have reserved: of each slot the distinct rows that get one, of its first pending writes, as many as `prepared` says.
pub fn reserved(rows: &[u64], versions: &[u64], lists: &[u64], prepared: [u32; MOST_LIVE]) -> u64
    ensures { result ≡ reserved_in rows.now versions.now lists.now prepared most_live }
{
    let mut sum = 0;
    for (slot, count) in prepared.iter().enumerate() {
        sum += count_versions(rows, versions, lists, slot as u32, *count);
    }
    sum
}
