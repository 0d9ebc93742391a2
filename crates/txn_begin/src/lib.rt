// Begin: a number from the clock, and the snapshot that is kept with it.
#![tactic(auto)]

ghost use Rattle.std.specs.Prelude.{◌≡◌};
ghost use Rattle.txn_begin.specs.Begin.{keep_active, snapshot_of, spent, begin_of};

use base_limits::{LAST_NUMBER, MOST_ACTIVE, MOST_LIVE};
use base_numbers::{one_more, sum_within};
use base_protocol::{Answer, Refusal};
use table_chain::Snapshot;
use txn::{Transaction, idle};

// The active numbers kept so far, and how many they are.
// Stays an array with a count: it goes into a `Snapshot` as it is, whose form document 01 names (docs/DECISIONS.md), and `keep_active` promises both.
#[derive(Clone, Copy)]
pub struct Kept {
    pub active: [u64; MOST_ACTIVE],
    pub n: usize,
    pub least: u64,
}

// What begin leaves.
#[derive(Clone, Copy)]
pub struct Begun {
    pub answer: Answer,
    pub txn: Transaction,
    pub clock: u64,
}

impl Kept {
    // One place more: its number is kept where it is active, 0 where it is not.
    #[tactic(auto, unfolding(crate::specs::Begin::keep_active))]
    fn keep(&mut self, number: u64)
        ensures { self.new ≡ keep_active self.old number }
    {
        if number != 0 && self.n < MOST_ACTIVE {
            self.active[self.n] = number;
            self.n += 1;
            self.least = number.min(self.least);
        }
    }
}

// The snapshot of a new transaction: the clock after begin as xmax, and as active numbers those of the eight places that are not 0.
fn snapshot(active: [u64; MOST_LIVE], clock: u64) -> Snapshot
    ensures { result ≡ snapshot_of active clock }
{
    let mut kept = Kept {
        active: [0; MOST_ACTIVE],
        n: 0,
        least: clock,
    };
    for number in &active {
        kept.keep(*number);
    }
    Snapshot {
        xmin: kept.least,
        xmax: one_more(clock),
        active: kept.active,
        active_n: kept.n,
    }
}

// Whether clock, live transactions and 2 are above the last number.
#[tactic(auto, unfolding(crate::specs::Begin::spent))]
fn no_numbers(clock: u64, live: u64) -> bool
    ensures { result ≡ spent clock live }
{
    !sum_within(live, 2, LAST_NUMBER) || !sum_within(clock, live + 2, LAST_NUMBER)
}

// Begin, at a free place: the record that comes in has number 0.
#[tactic(auto, unfolding(crate::specs::Begin::begin_of))]
pub fn begin(active: [u64; MOST_LIVE], live: u64, clock: u64, t: Transaction) -> Begun
    ensures { result ≡ begin_of active live clock t }
{
    if t.number != 0 {
        return Begun {
            answer: Answer::Refused(Refusal::Full),
            txn: t,
            clock,
        };
    }
    if no_numbers(clock, live) {
        return Begun {
            answer: Answer::Refused(Refusal::NoNumbers),
            txn: t,
            clock,
        };
    }
    Begun {
        answer: Answer::Number(clock),
        txn: Transaction {
            number: clock,
            snapshot: snapshot(active, clock),
            ..idle(t.slot)
        },
        clock: one_more(clock),
    }
}
