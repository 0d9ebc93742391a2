// A store of the largest sizes: every version is made, and then one transaction is validated many times, alone and beside seven with full lists.
// How many times stands on standard input, a line for each; the cost of a public step is what a higher count costs more.
#![tactic(auto)]

use base_limits::{MOST_ACTIVE, MOST_INDEX_READS, MOST_RECORDS, MOST_WRITES};
use report_answers::numbers_of;
use std::io::Read;
use std::{fmt, io};
use toruxeng::{
    Answer, BUCKET_WORDS, MOST_BUCKETS, MOST_LIVE, MOST_ROWS, MOST_VERSIONS, ROW_WORDS, SLOT_WORDS,
    Sizes, Store, VERSION_WORDS, closed,
};
use txn::Transaction;

// The words that the tables have; the version table has an entry 0 besides.
const ROWS_LENT: usize = ROW_WORDS * MOST_ROWS;

const VERSIONS_LENT: usize = VERSION_WORDS * (MOST_VERSIONS + 1);

const BUCKETS_LENT: usize = BUCKET_WORDS * MOST_BUCKETS;

const LISTS_LENT: usize = SLOT_WORDS * MOST_LIVE;

// The index reads, the read records and the writes of one transaction.
const READS: u64 = MOST_INDEX_READS as u64;

const RECORDS: u64 = MOST_RECORDS as u64;

const WRITES: u64 = MOST_WRITES as u64;

// The writes that fill the store, counted from 0; and the one from which on each row gets its last.
const FILLED: u64 = MOST_VERSIONS as u64;

const LAST_WRITES: u64 = (MOST_VERSIONS - MOST_ROWS) as u64;

// The rows beside each other that have one key: so many that all reads together leave as many read records as there can be.
const ROWS_OF_KEY: u64 = RECORDS / READS;

// The buckets from one key to the next: each key has its own.
const KEY_STEP: u64 = MOST_BUCKETS as u64 / (FILLED / ROWS_OF_KEY);

// All but the validated transaction read, each the rows behind those of the one before it.
const READERS: u64 = MOST_ACTIVE as u64;

// No count is higher than ten times this.
const MOST_COUNT: u64 = 100000;

// The bytes of standard input that are read.
const MOST_INPUT: usize = 64;

// How many validates there are of a transaction alone, and of one beside seven others.
#[derive(Clone, Copy)]
struct Counts {
    alone: u64,
    beside: u64,
}

// The row of the i-th write of all.
fn row_of(i: u64) -> u64 {
    i % MOST_ROWS as u64
}

// The key of the i-th write of all.
fn key_of(i: u64) -> u64 {
    i % FILLED / ROWS_OF_KEY * KEY_STEP
}

// A store, what its last step answered, and how many steps were refused so far.
#[derive(Drop)]
struct Player<'a> {
    store: Store<'a>,
    last: Answer,
    refusals: u64,
}

impl Player<'_> {
    // What a step answered, and its refusal counted.
    fn heard(&mut self, answer: Answer) {
        self.last = answer;
        if matches!(answer, Answer::Refused(_)) {
            self.refusals = self.refusals.wrapping_add(1);
        }
    }

    // A transaction begins; its number is 0, which names nobody, where it was refused.
    fn begin(&mut self) -> u64 {
        let answer = self.store.begin();
        self.heard(answer);
        match answer {
            Answer::Number(number) => number,
            _ => 0,
        }
    }

    // As many puts as a transaction may have, from the write `first` on.
    fn put_all(&mut self, number: u64, first: u64) {
        for i in 0..WRITES {
            let write = first.wrapping_add(i);
            let answer = self.store.put(number, row_of(write), key_of(write), write);
            self.heard(answer);
        }
    }

    // What was written is prepared, installed, ended and published.
    fn finish(&mut self, number: u64) {
        let answer = self.store.prepare(number);
        self.heard(answer);
        let answer = self.store.install(number);
        self.heard(answer);
        let answer = self.store.end(number);
        self.heard(answer);
        let answer = self.store.publish(number);
        self.heard(answer);
    }

    // Every version is made, by transactions that write as many rows as they may.
    fn fill(&mut self) {
        for i in 0..FILLED / WRITES {
            let number = self.begin();
            self.put_all(number, i * WRITES);
            self.finish(number);
        }
    }

    // Looks a key up: capture, collect, rows.
    fn look_up(&mut self, number: u64, key: u64) {
        let answer = self.store.capture(number, key);
        self.heard(answer);
        let answer = self.store.collect(number);
        self.heard(answer);
        let answer = self.store.rows(&mut [0; MOST_ROWS], number);
        self.heard(answer);
    }

    // As many keys as a transaction may are looked up, from that of the write `first` on.
    fn look_up_all(&mut self, number: u64, first: u64) {
        for i in 0..READS {
            self.look_up(number, key_of(first.wrapping_add(i * ROWS_OF_KEY)));
        }
    }

    // The readers begin, each with full lists.
    fn crowd(&mut self) {
        for i in 0..READERS {
            let first = LAST_WRITES + i * RECORDS;
            let number = self.begin();
            self.look_up_all(number, first);
            self.put_all(number, first);
        }
    }

    // A transaction is validated so many times.
    fn validate_all(&mut self, number: u64, count: u64) {
        for _ in 0..count {
            let answer = self.store.validate(number);
            self.heard(answer);
        }
    }

    // How many transactions have full lists.
    fn full_count(&self) -> usize {
        self.store
            .machine
            .txns
            .iter()
            .filter(|t| lists_full(**t))
            .count()
    }
}

// What the last step answered, the refusals so far, clock and used.
impl fmt::Display for Player<'_> {
    fn fmt<W: fmt::Write>(&self, f: &mut fmt::Formatter<W>) -> fmt::Result {
        let [number, value, ..] = numbers_of(self.last).list;
        let refusals = self.refusals;
        let clock = self.store.machine.clock;
        let used = self.store.machine.used;
        write!(
            f,
            "{number} {value}, refused so far {refusals}, clock {clock}, used {used}"
        )
    }
}

// Whether no list of a transaction takes another entry.
fn lists_full(t: Transaction) -> bool {
    t.reads_n == MOST_INDEX_READS && t.records_n == MOST_RECORDS && t.writes_n == MOST_WRITES
}

// The whole: filled, validated alone, validated in a crowd with full lists; and no ninth transaction begins.
fn play(rt: &impl Print, player: &mut Player, counts: Counts) -> io::Result<()> {
    let sizes = Sizes {
        rows: MOST_ROWS as u64,
        versions: MOST_VERSIONS as u64,
        buckets: MOST_BUCKETS as u64,
    };
    let opened = player.store.open(sizes, 1);
    player.heard(opened);
    player.fill();
    println!(rt; "filled, the last publish: {player}")?;
    let number = player.begin();
    player.validate_all(number, counts.alone);
    println!(rt; "one live, the last validate: {player}")?;
    player.crowd();
    println!(rt; "eight live, the last put: {player}")?;
    println!(rt; "with full lists: {}", player.full_count())?;
    player.validate_all(number, counts.beside);
    println!(rt; "eight live, the last validate: {player}")?;
    player.begin();
    println!(rt; "a ninth begin: {player}")
}

// A count with one digit more; what is no digit, and what would be too many, is passed over.
fn with_digit(count: u64, byte: u8) -> u64 {
    match byte {
        b'0'..=b'9' if count < MOST_COUNT => 10 * count + u64::from(byte - b'0'),
        _ => count,
    }
}

fn count_in(text: &[u8]) -> u64 {
    text.iter().fold(0, |count, byte| with_digit(count, *byte))
}

// The counts on the first line and behind it.
fn counts_of(text: &[u8]) -> Counts {
    let end = text
        .iter()
        .position(|byte| *byte == b'\n')
        .unwrap_or(text.len());
    Counts {
        alone: count_in(&text[..end]),
        beside: count_in(&text[end..]),
    }
}

// The counts that standard input asks for.
fn counts_read(rt: &(impl Input + AllocGlobal)) -> io::Result<Counts> {
    let mut input = Vec::new(rt.alloc());
    rt.reader().take(MOST_INPUT as u64).read_to_end(&mut input)?;
    Ok(counts_of(input.as_slice()))
}

fn main(rt: HostRuntime) -> io::Result<()> {
    let counts = counts_read(&rt)?;
    let mut player = Player {
        store: Store {
            rows: &mut [0; ROWS_LENT],
            versions: &mut [0; VERSIONS_LENT],
            buckets: &mut [0; BUCKETS_LENT],
            lists: &mut [0; LISTS_LENT],
            machine: closed(),
        },
        last: Answer::Done,
        refusals: 0,
    };
    play(&rt, &mut player, counts)
}
