// Scans of a snapshot's active numbers and of a transaction's lists.
#![tactic(auto)]

ghost use Rattle.std.specs.Prelude.{◌≡◌, cond, min, ltb, take};
ghost use Rattle.base_lists.specs.Lists.{least};
ghost use Rattle.table_scans.specs.Scans.{is_active, latest_pending, already_recorded, read_prefix};

use base_limits::{MOST_ACTIVE, MOST_INDEX_READS, MOST_RECORDS, MOST_WRITES};
use table::lists::{read_bucket_at, record_ptr_at, write_row_at};

// Whether id is one of the first `count` active numbers.
pub fn active_contains(active: &[u64], count: usize, id: u64) -> bool
    ensures { result ≡ is_active active.now count id }
{
    active.iter().take(count).any(|x| *x == id)
}

// The lesser of x and n, where x stands at a place below the count; else n.
fn lower(x: u64, n: u64, i: usize, count: usize) -> u64
    ensures { result ≡ cond (ltb i count) (min x n) n }
{
    if i < count {
        return if x < n { x } else { n };
    }
    n
}

// The least of a number and the first `count` active numbers. The loop has no way out but its end: so the compiler works it out once for all rows of a read.
// Stays an array with a count, by value: a rule of the project, the form that document 01 names (docs/DECISIONS.md).
// Stays a function that chooses by the place: with `enumerate` and `min` it is worked out again for each row, 567 instructions a step in place of 560.
pub fn least_of(number: u64, active: [u64; MOST_ACTIVE], count: usize) -> u64
    ensures { result ≡ least number (take count active) }
{
    let mut lowest = number;
    for i in 0..MOST_ACTIVE {
        lowest = lower(active[i], lowest, i, count);
    }
    lowest
}

// The place of the last of the first `count` pending writes with this row.
// Stays three words, lists, slot and count, here and below: the definitions take them so (`latest_pending`), and docs/CONTRACTS.md names the three searches.
pub fn latest_pending(lists: &[u64], slot: u32, count: u32, row: u64) -> Option<u32>
    ensures { result ≡ latest_pending lists.now slot count row }
{
    for i in (0..count.min(MOST_WRITES)).rev() {
        if write_row_at(lists, slot, i) == row {
            return Some(i);
        }
    }
    None
}

// Whether one of the first `count` read records has this pointer.
pub fn read_already_recorded(lists: &[u64], slot: u32, count: u32, ptr: u64) -> bool
    ensures { result ≡ already_recorded lists.now slot count ptr }
{
    (0..count.min(MOST_RECORDS)).any(|i| record_ptr_at(lists, slot, i) == ptr)
}

// The place of the first of the first `prior_len` index reads with this bucket.
pub fn find_read_prefix(lists: &[u64], slot: u32, prior_len: u32, bucket: u64) -> Option<u32>
    ensures { result ≡ read_prefix lists.now slot prior_len bucket }
{
    (0..prior_len.min(MOST_INDEX_READS)).find(|i| read_bucket_at(lists, slot, *i) == bucket)
}
