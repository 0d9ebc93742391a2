// The rows that a read looks at: candidates joined with own pending rows.
#![tactic(auto)]

ghost use Rattle.std.specs.Prelude.{◌≡◌, ◌≤◌, ◌<◌};
ghost use Rattle.base_limits.specs.Limits.{most_rows};
ghost use Rattle.read_gather.specs.Gathering.{candidate_rows, written_rows, wanted_rows, most_wanted, keep_below, copied};

use base_limits::{MOST_ROWS, MOST_WRITES};
use table::lists::{candidate_at, write_row_at};
use table::set_word;
use txn::Transaction;

// Puts the row behind the n words before it, where it is below the bound.
// Stays with a count beside the words: `copied`, which `gather` promises, counts past the end of the words, where `txn_needs::Listing` stops (`push_one`).
fn keep_below(out: &mut [u64], n: usize, row: u64, bound: u64) -> usize
    requires { n < most_wanted }
    ensures { record { n = result; words = out.new } ≡ keep_below bound row (record { n = n; words = out.old }) }
{
    if row < bound {
        set_word(out, n, row);
        return n + 1;
    }
    n
}

// Candidates joined with own pending rows, as they stand: those below the bound go to the front.
pub fn gather(lists: &[u64], out: &mut [u64], t: Transaction, bound: u64) -> usize
    ensures { record { n = result; words = out.new } ≡ copied out.old 0 bound (wanted_rows lists.now t) }
{
    let mut n = 0;
    for i in 0..t.candidates_n.min(MOST_ROWS as u32) {
        n = keep_below(out, n, candidate_at(lists, t.slot, i), bound);
    }
    for i in 0..t.writes_n.min(MOST_WRITES) {
        n = keep_below(out, n, write_row_at(lists, t.slot, i), bound);
    }
    n
}
