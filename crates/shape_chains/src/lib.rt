// Pointers in range: heads at most the last used pointer, each next below its own.
#![tactic(auto)]

ghost use Rattle.std.specs.Prelude.{◌≡◌, true, false, ℕ, IsTrue, ◌+◌, ◌*◌, ◌<◌, leb, ltb, length};
ghost use Rattle.table.specs.Fields.{row_words, version_words, head_of, next_of};
ghost use Rattle.shape_chains.specs.ChainsShape.{heads_in, nexts_fall, chains_fit};

use base_protocol::Sizes;
use table::{HEAD, NEXT, ROW_WORDS, VERSION_WORDS};

// How many numbers are tested at once.
const AT_ONCE: usize = 4;

// Whether a test holds at each number below end. Four are tested at once, so that no branch stands between them, and the last few one by one.
// Stays in fours: `(0..end).all(test)` takes twice the time for each row and version, and every step looks at all of them.
fn all_below<F: Fn(usize) -> bool>(end: usize, test: F) -> bool
    requires { (i : ℕ) → i < end → F.pre test i }
    ensures holds { IsTrue result → (i : ℕ) → i < end → F.post test i true }
    ensures fails { result ≡ false → (i : ℕ) × (i < end) × F.post test i false }
{
    let fours = end / AT_ONCE;
    for four in 0..fours {
        let at = AT_ONCE * four;
        if !(test(at) & test(at + 1) & test(at + 2) & test(at + 3)) {
            return false;
        }
    }
    for i in AT_ONCE * fours..end {
        if !test(i) {
            return false;
        }
    }
    true
}

// Whether a row whose head stands in the table has it at most the last used pointer.
// Stays beside `table::head_at`, and `next_falls` beside `next_at`: these test the place, and DECISIONS 74 has the loops read without a test.
#[tactic(auto, unfolding(table::specs::Words::field))]
fn head_in(rows: &[u64], row: usize, used: u64) -> bool
    requires { row_words * row < length rows.now }
    ensures { result ≡ leb (head_of rows.now row) used }
{
    rows[ROW_WORDS * row + HEAD] <= used
}

// Whether heads are at most the last used pointer; only those that the table holds are looked at, since a row past it has head 0.
fn heads_in(rows: &[u64], row_count: u64, used: u64) -> bool
    ensures { result ≡ heads_in rows.now row_count used }
{
    let held = (rows.len() + (ROW_WORDS - 1 - HEAD)) / ROW_WORDS;
    let end = row_count.min(held as u64) as usize;
    all_below(end, |row| head_in(rows, row, used))
}

// Whether a version whose next stands in the table has it below its own pointer.
#[tactic(auto, unfolding(table::specs::Words::field))]
fn next_falls(versions: &[u64], p: usize) -> bool
    requires { version_words * p + 2 < length versions.now }
    ensures { result ≡ ltb (next_of versions.now p) p }
{
    versions[VERSION_WORDS * p + NEXT] < p as u64
}

// Whether each next is below its own pointer; only those that the table holds are looked at, since a version past it has next 0.
fn nexts_fall(versions: &[u64], used: u64) -> bool
    ensures { result ≡ nexts_fall versions.now used }
{
    if versions.len() <= NEXT {
        return true;
    }
    let last = (versions.len() - 1 - NEXT) / VERSION_WORDS;
    let end = used.min(last as u64) as usize;
    all_below(end, |p| next_falls(versions, p + 1))
}

// Whether used pointers, heads and nexts are in range.
// A call of its own: put in line into a step, its loops load again at each turn what the step holds besides.
#[inline(never)]
pub fn chains_fit(rows: &[u64], versions: &[u64], sizes: Sizes, used: u64) -> bool
    ensures { result ≡ chains_fit rows.now versions.now sizes used }
{
    used <= sizes.versions && heads_in(rows, sizes.rows, used) && nexts_fall(versions, used)
}
