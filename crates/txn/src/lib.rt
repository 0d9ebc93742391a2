// The transaction's record: it goes in by value and comes back; its lists stand in its slot of the lent lists.
#![tactic(auto)]

ghost use Rattle.std.specs.Prelude.{◌≡◌, false};
ghost use Rattle.model.specs.Store.{rank, bucket_in, key_in};
ghost use Rattle.txn.specs.View.{phase_view};
ghost use Rattle.txn.specs.Methods.{idle_of, phase_from, rest_of, parts_of, whole_of, with_phase, with_mark};
ghost use Rattle.txn.specs.Methods.{taken_by, refused_of, too_many, hold_of, capture_of, write_of, collect_of};

use base_limits::{MOST_ACTIVE, MOST_INDEX_READS, MOST_WRITES};
use base_protocol::{Answer, Refusal};
use table::lists::{IndexRead, Write, put_read, put_write};
use table::{holder_at, set_holder, stamp_at};
use table_buckets::{bucket_of, stamp_precedes_snapshot};
use table_chain::Snapshot;
use table_postings::keep_posted;
use table_scans::find_read_prefix;

// The phase carries its bucket and key.
#[derive(Clone, Copy, PartialEq, Eq)]
pub enum Phase {
    Open,
    Holding { bucket: u64, key: u64 },
    Collected { key: u64 },
    Prepared,
    Installed,
    Ended,
}

// Number 0 marks a free place.
// Stays with four counts beside its slot: the lists themselves stand in lent words (docs/DECISIONS.md, 34 and 37).
#[derive(Clone, Copy)]
pub struct Transaction {
    pub number: u64,
    pub snapshot: Snapshot,
    pub marked: bool,
    pub phase: Phase,
    pub slot: u32,
    pub reads_n: u32,
    pub writes_n: u32,
    pub records_n: u32,
    pub candidates_n: u32,
}

// A record without its number, its snapshot and its slot, in words: what a step may change that keeps its transaction.
// Stays words, the phase as its number: `whole_of` and its theorems (`whole-unmarked`, `whole_open`) speak of any words, and a replay keeps an array of these.
#[derive(Clone, Copy)]
pub struct Rest {
    pub marked: u64,
    pub rank: u64,
    pub bucket: u64,
    pub key: u64,
    pub reads_n: u32,
    pub writes_n: u32,
    pub records_n: u32,
    pub candidates_n: u32,
}

// A record in parts.
#[derive(Clone, Copy)]
pub struct Parts {
    pub number: u64,
    pub snapshot: Snapshot,
    pub rest: Rest,
    pub slot: u32,
}

// An answer, with the record that goes back.
#[derive(Clone, Copy)]
pub struct Answered {
    pub answer: Answer,
    pub txn: Transaction,
}

// Phases as numbers, in document 01's order.
// Stays numbers: `phase_rank` promises them (`rank` of the model), and a replay keeps a phase as its number (`Rest`).
pub const OPEN: u64 = 1;

pub const HOLDING: u64 = 2;

pub const COLLECTED: u64 = 3;

pub const PREPARED: u64 = 4;

pub const INSTALLED: u64 = 5;

pub const ENDED: u64 = 6;

// The number of a phase.
// Stays a function, as does `phase_from`: docs/PROMISES.md names both; a `From` beside would be a second name of each, and from three words no plainer.
pub fn phase_rank(phase: Phase) -> u64
    ensures { result ≡ rank (phase_view phase) }
{
    match phase {
        Phase::Open => OPEN,
        Phase::Holding { .. } => HOLDING,
        Phase::Collected { .. } => COLLECTED,
        Phase::Prepared => PREPARED,
        Phase::Installed => INSTALLED,
        Phase::Ended => ENDED,
    }
}

// The bucket that a phase carries, and the key; 0 where it carries none.
// Stays 0 for none: `bucket_in` and `key_in` promise it, and a replay keeps both as words (`Rest`).
pub fn bucket_in(phase: Phase) -> u64
    ensures { result ≡ bucket_in (phase_view phase) }
{
    match phase {
        Phase::Holding { bucket, .. } => bucket,
        _ => 0,
    }
}

pub fn key_in(phase: Phase) -> u64
    ensures { result ≡ key_in (phase_view phase) }
{
    match phase {
        Phase::Holding { key, .. } | Phase::Collected { key } => key,
        _ => 0,
    }
}

// What stands at a free place.
pub fn idle(slot: u32) -> Transaction
    ensures { result ≡ idle_of slot }
{
    Transaction {
        number: 0,
        snapshot: Snapshot {
            xmin: 0,
            xmax: 0,
            active: [0; MOST_ACTIVE],
            active_n: 0,
        },
        marked: false,
        phase: Phase::Open,
        slot,
        reads_n: 0,
        writes_n: 0,
        records_n: 0,
        candidates_n: 0,
    }
}

// Whether what carries this number is taken by another: neither free nor the own number's.
pub fn by_another(carried: u64, number: u64) -> bool
    ensures { result ≡ taken_by carried number }
{
    carried != 0 && carried != number
}

// The phase of a number, with the bucket and the key that it carries.
pub fn phase_from(rank: u64, bucket: u64, key: u64) -> Phase
    ensures { result ≡ phase_from rank bucket key }
{
    match rank {
        HOLDING => Phase::Holding { bucket, key },
        COLLECTED => Phase::Collected { key },
        PREPARED => Phase::Prepared,
        INSTALLED => Phase::Installed,
        ENDED => Phase::Ended,
        _ => Phase::Open,
    }
}

// The rest of a record.
impl From<Transaction> for Rest {
    ghost from_gives = { λ t r. r ≡ rest_of t };

    fn from(t: Transaction) -> Rest {
        Rest {
            marked: u64::from(t.marked),
            rank: phase_rank(t.phase),
            bucket: bucket_in(t.phase),
            key: key_in(t.phase),
            reads_n: t.reads_n,
            writes_n: t.writes_n,
            records_n: t.records_n,
            candidates_n: t.candidates_n,
        }
    }
}

// The parts of a record.
impl From<Transaction> for Parts {
    ghost from_gives = { λ t p. p ≡ parts_of t };

    fn from(t: Transaction) -> Parts {
        Parts {
            number: t.number,
            snapshot: t.snapshot,
            rest: Rest::from(t),
            slot: t.slot,
        }
    }
}

// The record of its parts.
impl From<Parts> for Transaction {
    ghost from_gives = { λ p t. t ≡ whole_of p };

    fn from(p: Parts) -> Transaction {
        let Parts {
            number,
            snapshot,
            rest,
            slot,
        } = p;
        let Rest {
            marked,
            rank,
            bucket,
            key,
            reads_n,
            writes_n,
            records_n,
            candidates_n,
        } = rest;
        Transaction {
            number,
            snapshot,
            marked: marked != 0,
            phase: phase_from(rank, bucket, key),
            slot,
            reads_n,
            writes_n,
            records_n,
            candidates_n,
        }
    }
}

// A refusal, with the record that came in.
pub fn refused(txn: Transaction, why: Refusal) -> Answered
    ensures { result ≡ refused_of txn why }
{
    Answered {
        answer: Answer::Refused(why),
        txn,
    }
}

impl Transaction {
    // The same transaction in another phase.
    pub fn with_phase(self, phase: Phase) -> Transaction
        ensures { result ≡ with_phase self phase }
    {
        Self { phase, ..self }
    }

    // The same transaction, marked.
    pub fn with_mark(self) -> Transaction
        ensures { result ≡ with_mark self }
    {
        Self {
            marked: true,
            ..self
        }
    }

    // Holds a bucket: the first capture of it adds an index read, a later one none.
    #[tactic(auto, unfolding(crate::specs::Methods::hold_of))]
    fn hold(
        self,
        lists: &mut [u64],
        found: Option<u32>,
        bucket: u64,
        key: u64,
        stamp: u64,
    ) -> Transaction
        requires { too_many found self.reads_n ≡ false }
        ensures { record { txn = result; lists = lists.new } ≡ hold_of self lists.old found bucket key stamp }
    {
        let n = self.reads_n;
        let held = self.with_phase(Phase::Holding { bucket, key });
        match found {
            Some(_) => held,
            None => {
                put_read(lists, self.slot, n, IndexRead { bucket, stamp });
                Self {
                    reads_n: n + 1,
                    ..held
                }
            }
        }
    }

    // Capture: takes the key's bucket; a stale stamp marks the transaction.
    // Stays with the lent tables one by one, here and below: the C interface lends them and the definitions over words take them so (docs/DECISIONS.md, 69).
    #[tactic(auto, unfolding(crate::specs::Methods::capture_at))]
    pub fn capture(
        self,
        buckets: &mut [u64],
        lists: &mut [u64],
        bucket_count: u64,
        key: u64,
    ) -> Answered
        ensures { record { reply = result; buckets = buckets.new; lists = lists.new }
            ≡ capture_of self buckets.old lists.old bucket_count key }
    {
        let n = self.reads_n;
        if self.phase != Phase::Open {
            return refused(self, Refusal::WrongPhase);
        }
        if self.marked {
            return refused(self, Refusal::Marked);
        }
        let bucket = bucket_of(bucket_count, key);
        if by_another(holder_at(buckets, bucket as usize), self.number) {
            return refused(self, Refusal::Taken);
        }
        let stamp = stamp_at(buckets, bucket as usize);
        if !stamp_precedes_snapshot(stamp, self.number) {
            return refused(self.with_mark(), Refusal::Stale);
        }
        let found = find_read_prefix(lists, self.slot, n, bucket);
        if too_many(found, n) {
            return refused(self, Refusal::ManyReads);
        }
        set_holder(buckets, bucket as usize, self.number);
        Answered {
            answer: Answer::Stamp(stamp),
            txn: self.hold(lists, found, bucket, key, stamp),
        }
    }

    // Put and erase: appends a pending write; an erase has no key.
    #[tactic(auto, unfolding(crate::specs::Methods::write_of))]
    fn write(self, lists: &mut [u64], row_count: u64, w: Write) -> Answered
        ensures { record { reply = result; lists = lists.new } ≡ write_of self lists.old row_count w }
    {
        let n = self.writes_n;
        if self.phase != Phase::Open {
            return refused(self, Refusal::WrongPhase);
        }
        if self.marked {
            return refused(self, Refusal::Marked);
        }
        if w.row >= row_count {
            return refused(self, Refusal::NoRow);
        }
        if n >= MOST_WRITES {
            return refused(self, Refusal::ManyWrites);
        }
        put_write(lists, self.slot, n, w);
        Answered {
            answer: Answer::Done,
            txn: Self {
                writes_n: n + 1,
                ..self
            },
        }
    }

    pub fn put(
        self,
        lists: &mut [u64],
        row_count: u64,
        row: u64,
        key: u64,
        payload: u64,
    ) -> Answered
        ensures { record { reply = result; lists = lists.new }
            ≡ write_of self lists.old row_count (record { row = row; keyed = 1; key = key; payload = payload }) }
    {
        let pending = Write {
            row,
            keyed: 1,
            key,
            payload,
        };
        self.write(lists, row_count, pending)
    }

    pub fn erase(self, lists: &mut [u64], row_count: u64, row: u64) -> Answered
        ensures { record { reply = result; lists = lists.new }
            ≡ write_of self lists.old row_count (record { row = row; keyed = 0; key = 0; payload = 0 }) }
    {
        let erasure = Write {
            row,
            keyed: 0,
            key: 0,
            payload: 0,
        };
        self.write(lists, row_count, erasure)
    }

    // Collect: of the key's list the rows posted with exactly the key are kept ascending. The bucket that the phase carries is freed, whoever holds it.
    #[tactic(auto, unfolding(crate::specs::Methods::collect_of))]
    pub fn collect(
        self,
        rows: &[u64],
        buckets: &mut [u64],
        lists: &mut [u64],
        row_count: u64,
    ) -> Answered
        ensures { record { reply = result; buckets = buckets.new; lists = lists.new }
            ≡ collect_of self rows.now buckets.old lists.old row_count }
    {
        let Phase::Holding { bucket, key } = self.phase else {
            return refused(self, Refusal::WrongPhase);
        };
        let n = keep_posted(rows, lists, self.slot, row_count, key);
        set_holder(buckets, bucket as usize, 0);
        let collected = self.with_phase(Phase::Collected { key });
        Answered {
            answer: Answer::Count(n as u64),
            txn: Self {
                candidates_n: n,
                ..collected
            },
        }
    }
}

// Whether a bucket without an index read would get a 17th.
fn too_many(found: Option<u32>, n: u32) -> bool
    ensures { result ≡ too_many found n }
{
    found.is_none() && n >= MOST_INDEX_READS
}
