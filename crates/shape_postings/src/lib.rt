// Whether each list has exactly the rows posted with its keys, ascending.
#![tactic(auto)]

ghost use Rattle.std.specs.Prelude.{◌≡◌, true, ◌+◌, ◌<◌};
ghost use Rattle.base_lists.specs.Lists.{every};
ghost use Rattle.table_postings.specs.Links.{named_before, ends_at};
ghost use Rattle.shape_postings.specs.Told.{told_within};
ghost use Rattle.shape_postings.specs.Kept.{Sized, LastKept};

use base_limits::MOST_ROWS;
use table::{POSTED, POSTED_KEY, ROW_WORDS};
use table_postings::{link_at, list_for};

// Whether a row is not posted, or is named by the link behind the last row before it in its list; a posted row's place is kept as the last.
// Stays beside `table::posted_at`, which tests the place: the loops read without a test (docs/DECISIONS.md, 74).
// Stays two clauses of three contracts: `LastKept` is of both the lent rows and the places, and a struct would lend them to be unlent in one line.
fn row_named(rows: &[u64], row_count: u64, last: &mut [u16; MOST_ROWS], row: u64) -> bool
    requires { (row < row_count) × Sized rows.now row_count × LastKept rows.now row_count row last.old }
    ensures { (result ≡ named_before rows.now row_count row)
        × LastKept rows.now row_count (row + 1) last.new }
{
    let entry = ROW_WORDS * row as usize;
    if rows[entry + POSTED] == 0 {
        return true;
    }
    let list = list_for(row_count, rows[entry + POSTED_KEY]);
    let place = last[list as usize] as u64;
    last[list as usize] = (row + 1) as u16;
    link_at(rows, list, place) == row + 1
}

// Whether every row is, from a start at which no place is kept; then the place of each list's last row is.
// Stays a loop: each turn changes `last`, which the test of an `all` should not, and so it is no plainer.
fn rows_named(rows: &[u64], row_count: u64, last: &mut [u16; MOST_ROWS]) -> bool
    requires { Sized rows.now row_count × LastKept rows.now row_count 0 last.old }
    ensures { (result ≡ every row_count (named_before rows.now row_count))
        × (result ≡ true → LastKept rows.now row_count row_count last.new) }
{
    for row in 0..row_count {
        if !row_named(rows, row_count, last, row) {
            return false;
        }
    }
    true
}

// Whether the link behind each list's last row names none.
fn lists_end(rows: &[u64], row_count: u64, last: &[u16; MOST_ROWS]) -> bool
    requires { Sized rows.now row_count × LastKept rows.now row_count row_count last.now }
    ensures { result ≡ every row_count (ends_at rows.now row_count) }
{
    (0..row_count).all(|list| link_at(rows, list, last[list as usize] as u64) == 0)
}

// Whether the lists tell the postings, over no more rows than their limit and a table that holds them.
// A call of its own, as `shape_chains::chains_fit` is.
#[inline(never)]
pub fn lists_tell(rows: &[u64], row_count: u64) -> bool
    ensures { result ≡ told_within rows.now row_count }
{
    if row_count > MOST_ROWS as u64 || rows.len() < ROW_WORDS * row_count as usize {
        return false;
    }
    let mut last = [0u16; MOST_ROWS];
    rows_named(rows, row_count, &mut last) && lists_end(rows, row_count, &last)
}
