// The read records that a read adds: one for each version whose pointer is not yet recorded.
#![tactic(auto)]

ghost use Rattle.std.specs.Prelude.{◌≡◌, cond, ◌+◌, ◌≤◌, ◌<◌, eqb, take, get_or};
ghost use Rattle.base_limits.specs.Limits.{most_records, last_number};
ghost use Rattle.read_record.specs.Recording.{known_pointers, planned, records_for, put_records, recorded_of};
ghost use Rattle.read_record.specs.Inner.{new_pointer, count_of, add_record};

use base_limits::MOST_RECORDS;
use table::lists::{ReadRecord, put_record};
use table::{word, xmin_at};
use table_scans::read_already_recorded;

// The pointer, or 0 where a record has it or it is one of those before it.
// Stays 0 for none: `record_versions` promises the pointers so (`planned`).
fn new_pointer(lists: &[u64], before: &[u64], slot: u32, records_n: u32, ptr: u64) -> u64
    ensures { result ≡ new_pointer (known_pointers lists.now slot records_n) before.now ptr }
{
    if read_already_recorded(lists, slot, records_n, ptr) || before.contains(&ptr) {
        return 0;
    }
    ptr
}

// Leaves of the pointers those that are new, 0 for the others; tells how many they are.
// Stays a loop over places: each word is changed where it stands, by those before it.
fn plan(lists: &[u64], through: &mut [u64], slot: u32, records_n: u32) -> usize
    ensures added { result ≡ count_of (planned (known_pointers lists.now slot records_n) through.old) }
    ensures left { through.new ≡ planned (known_pointers lists.now slot records_n) through.old }
{
    let mut added = 0;
    for i in 0..through.len() {
        let ptr = through[i];
        let new = new_pointer(lists, &through[..i], slot, records_n, ptr);
        through[i] = new;
        if new != 0 {
            added += 1;
        }
    }
    added
}

// Stores the record of a new pointer as read record `at`.
// Stays with the lent tables one by one, here and below: so the C interface lends them, and `records_for`, `recorded_of` take their words.
fn add_record(versions: &[u64], lists: &mut [u64], slot: u32, at: u32, row: u64, ptr: u64) -> u32
    requires { at ≤ most_records }
    ensures { record { at = result; lists = lists.new }
        ≡ add_record versions.now (record { at = at; lists = lists.old }) slot row ptr }
{
    if ptr == 0 {
        return at;
    }
    put_record(
        lists,
        slot,
        at,
        ReadRecord {
            row,
            ptr,
            xmin: xmin_at(versions, ptr as usize),
        },
    );
    at + 1
}

// Stores the records of the new pointers one behind the other, in row order.
fn add_records(
    versions: &[u64],
    lists: &mut [u64],
    matched: &[u64],
    through: &[u64],
    slot: u32,
    from: u32,
)
    requires { from + count_of through.now ≤ most_records }
    ensures { lists.new
        ≡ put_records lists.old slot from (records_for versions.now matched.now through.now) }
{
    let mut at = from;
    for (i, ptr) in through.iter().enumerate() {
        at = add_record(versions, lists, slot, at, word(matched, i), *ptr);
    }
}

// Adds a record for each matched row whose pointer is new, in row order; tells how many read records there are then.
// None where they would be more than 128.
// Stays with rows and pointers in two lists: `record_versions` promises of lists of any two lengths, as a row that is missing is 0 (`records_for`).
pub fn record_versions(
    versions: &[u64],
    lists: &mut [u64],
    matched: &[u64],
    through: &mut [u64],
    slot: u32,
    records_n: u32,
) -> Option<u32>
    ensures { record { told = result; lists = lists.new; pointers = through.new }
        ≡ recorded_of versions.now lists.old matched.now through.old slot records_n }
{
    let added = plan(lists, through, slot, records_n);
    let after = records_n as usize + added;
    if after > MOST_RECORDS as usize {
        return None;
    }
    add_records(versions, lists, matched, through, slot, records_n);
    Some(after as u32)
}
