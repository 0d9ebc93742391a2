// The eight places of the live transactions: which one a step goes to, and what a step needs to know of the others.
#![tactic(auto)]

ghost use Rattle.std.specs.Prelude.{◌≡◌};
ghost use Rattle.txn_places.specs.Places.{wanted_of, is_begin, misses_of, place_in, active_by, prepared_by, live_in, free_places};

use base_limits::MOST_LIVE;
use base_protocol::Step;
use std::array;
use txn::{ENDED, PREPARED, Transaction, idle};

// Of each place: its number, 0 where it is free; its number while it is active; how many pending writes it has reserved versions for.
// Stays three arrays (docs/DECISIONS.md, 40): `place_of` looks through the numbers alone, `begin` through the active ones, `prepare` through the counts.
#[derive(Clone, Copy)]
pub struct Others {
    pub numbers: [u64; MOST_LIVE],
    pub active: [u64; MOST_LIVE],
    pub prepared: [u32; MOST_LIVE],
}

// The number that a step names; 0, a free place's, for begin.
// Stays 0 for none: `wanted_of` promises it, and begin looks for a free place by it.
pub fn wanted(s: Step) -> u64
    ensures { result ≡ wanted_of s }
{
    match s {
        Step::Begin => 0,
        Step::Capture { number, .. }
        | Step::Collect { number }
        | Step::Rows { number, .. }
        | Step::Put { number, .. }
        | Step::Erase { number, .. }
        | Step::Prepare { number }
        | Step::Install { number }
        | Step::End { number }
        | Step::Publish { number }
        | Step::Validate { number }
        | Step::Abort { number } => number,
    }
}

// The first place with this number, and place 0 where there is none. All are looked at, from the last on, so that no branch depends on which it is.
// Stays by index: tried as `numbers.iter().enumerate().rev()`, of which an invariant has the iterator and no `i`, and no plainer here.
pub fn place_of(numbers: &[u64], number: u64) -> usize
    ensures { result ≡ place_in numbers.now number }
{
    let mut place = 0;
    for i in (0..numbers.len()).rev() {
        if numbers[i] == number {
            place = i;
        }
    }
    place
}

// A place's number while it is active, and 0 where it is free or Ended; `rank` is the number of its phase.
// Stays a number: theorems on `active_by` and `prepared_by` speak of any rank, and a replay has no more of a place than the words of its `Rest`.
pub fn active_number(number: u64, rank: u64) -> u64
    ensures { result ≡ active_by number rank }
{
    if rank == ENDED { 0 } else { number }
}

// How many pending writes a place has reserved versions for: those of a live Prepared transaction.
pub fn prepared_count(number: u64, rank: u64, writes_n: u32) -> u32
    ensures { result ≡ prepared_by number rank writes_n }
{
    if number != 0 && rank == PREPARED {
        writes_n
    } else {
        0
    }
}

// How many places are not free.
pub fn live_count(numbers: [u64; MOST_LIVE]) -> u64
    ensures { result ≡ live_in numbers }
{
    numbers.iter().filter(|number| **number != 0).count() as u64
}

// Whether a step is a begin.
fn is_begin(s: Step) -> bool
    ensures { result ≡ is_begin s }
{
    matches!(s, Step::Begin)
}

// Whether the record that comes in is not the one that a step names; begin asks for a free place itself.
#[tactic(auto, unfolding(crate::specs::Places::misses_of))]
pub fn misses(number: u64, s: Step) -> bool
    ensures { result ≡ misses_of number s }
{
    let asked = wanted(s);
    !is_begin(s) && (asked == 0 || number != asked)
}

// Eight free places, each with its own slot.
pub fn free_places() -> [Transaction; MOST_LIVE]
    ensures { result ≡ free_places }
{
    array::from_fn(|slot| idle(slot as u32))
}
