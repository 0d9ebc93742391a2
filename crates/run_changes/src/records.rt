// A record and the machine's own numbers as words, in the order of their names, and back.
ghost use Rattle.std.specs.Prelude.{◌≡◌};
ghost use Rattle.run_changes.specs.RecordWords.{record_words, low, record_of, own_words, own_of};

use base_protocol::Sizes;
use shape::Machine;
use table_chain::Snapshot;
use txn::{Transaction, bucket_in, key_in, phase_from, phase_rank};

// Words of a record, its seven active numbers with them, and the machine's own.
pub const RECORD_WORDS: usize = 20;

pub const OWN_WORDS: usize = 5;

// A record as words.
#[derive(Clone, Copy)]
pub struct RecordWords(pub [u64; RECORD_WORDS]);

impl From<Transaction> for RecordWords {
    ghost from_gives = { λ t words. words.0 ≡ record_words t };

    #[tactic(auto, unfolding(crate::specs::RecordWords::record_words))]
    fn from(t: Transaction) -> RecordWords {
        let [a, b, c, d, e, f, g] = t.snapshot.active;
        RecordWords([
            t.number,
            t.snapshot.xmin,
            t.snapshot.xmax,
            t.snapshot.active_n as u64,
            u64::from(t.marked),
            phase_rank(t.phase),
            bucket_in(t.phase),
            key_in(t.phase),
            u64::from(t.slot),
            u64::from(t.reads_n),
            u64::from(t.writes_n),
            u64::from(t.records_n),
            u64::from(t.candidates_n),
            a,
            b,
            c,
            d,
            e,
            f,
            g,
        ])
    }
}

// A slot and a count have 32 bits.
fn low_bits(x: u64) -> u32
    ensures { result ≡ low x }
{
    (x % (1 << 32)) as u32
}

impl From<RecordWords> for Transaction {
    ghost from_gives = { λ words t. t ≡ record_of words.0 };

    #[tactic(auto, unfolding(crate::specs::RecordWords::record_of))]
    fn from(words: RecordWords) -> Transaction {
        let [
            number,
            xmin,
            xmax,
            active_n,
            mark,
            rank,
            bucket,
            key,
            slot,
            reads_n,
            writes_n,
            records_n,
            candidates_n,
            a,
            b,
            c,
            d,
            e,
            f,
            g,
        ] = words.0;
        Transaction {
            number,
            snapshot: Snapshot {
                xmin,
                xmax,
                active: [a, b, c, d, e, f, g],
                active_n: active_n as usize,
            },
            marked: mark != 0,
            phase: phase_from(rank, bucket, key),
            slot: low_bits(slot),
            reads_n: low_bits(reads_n),
            writes_n: low_bits(writes_n),
            records_n: low_bits(records_n),
            candidates_n: low_bits(candidates_n),
        }
    }
}

// The machine's own words, and the machine with others.
// Stays two functions: the five words are a part of a machine, which is not made of them alone.
#[tactic(auto, unfolding(crate::specs::RecordWords::own_words))]
pub fn own_words(m: Machine) -> [u64; OWN_WORDS]
    ensures { result ≡ own_words m }
{
    [
        m.clock,
        m.used,
        m.sizes.rows,
        m.sizes.versions,
        m.sizes.buckets,
    ]
}

#[tactic(auto, unfolding(crate::specs::RecordWords::own_of))]
pub fn with_own(m: Machine, words: [u64; OWN_WORDS]) -> Machine
    ensures { result ≡ own_of m.txns words }
{
    let [clock, used, rows, versions, buckets] = words;
    Machine {
        sizes: Sizes {
            rows,
            versions,
            buckets,
        },
        clock,
        used,
        ..m
    }
}
