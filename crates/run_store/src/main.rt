// A program that holds the store itself: a key is published, a tap reads it, the key is revoked in between, and the tap learns that its read no longer stands.
#![tactic(auto)]

use std::{fmt, io};
use toruxeng::{
    Answer, BUCKET_WORDS, MOST_LIVE, ROW_WORDS, SLOT_WORDS, Sizes, Store, VERSION_WORDS, Verdict,
    closed,
};

// The store's sizes, and the words that its tables have; the version table has an entry 0 besides.
const ROWS: usize = 4;

const VERSIONS: usize = 8;

const BUCKETS: usize = 4;

const ROWS_LENT: usize = ROW_WORDS * ROWS;

const VERSIONS_LENT: usize = VERSION_WORDS * (VERSIONS + 1);

const BUCKETS_LENT: usize = BUCKET_WORDS * BUCKETS;

const LISTS_LENT: usize = SLOT_WORDS * MOST_LIVE;

// The key that is published and revoked, in row 2.
const KEY: u64 = 7;

const ROW: u64 = 2;

// An answer in words. A verdict says whether what the tap relied on stands, and else the first that does not.
#[derive(Clone, Copy)]
struct Told(Answer);

impl fmt::Display for Told {
    fn fmt<W: fmt::Write>(&self, f: &mut fmt::Formatter<W>) -> fmt::Result {
        match self.0 {
            Answer::Done => write!(f, "done"),
            Answer::Number(n) => write!(f, "number {n}"),
            Answer::Stamp(n) => write!(f, "stamp {n}"),
            Answer::Count(n) => write!(f, "candidates {n}"),
            Answer::Rows(n) => write!(f, "found {n}"),
            Answer::Judged(Verdict::Clear) => write!(f, "no conflict"),
            Answer::Judged(Verdict::Bucket { bucket, .. }) => write!(
                f,
                "conflict in bucket {bucket}"
            ),
            Answer::Judged(Verdict::Row { row, .. }) => write!(f, "conflict in row {row}"),
            Answer::Judged(Verdict::Mark) => write!(f, "marked"),
            Answer::Refused(why) => write!(f, "refused with {}", u64::from(why)),
        }
    }
}

// A step, and what it answered.
fn tell(rt: &impl Print, step: &str, answer: Answer) -> io::Result<()> {
    println!(rt; "  {step}: {}", Told(answer))
}

// A transaction begins; its number is 0, which names nobody, where it was refused.
fn begin(rt: &impl Print, store: &mut Store) -> io::Result<u64> {
    let answer = store.begin();
    tell(rt, "begin", answer)?;
    match answer {
        Answer::Number(n) => Ok(n),
        _ => Ok(0),
    }
}

// What was written is prepared, installed, ended and published.
fn finish(rt: &impl Print, store: &mut Store, number: u64) -> io::Result<()> {
    tell(rt, "prepare", store.prepare(number))?;
    tell(rt, "install", store.install(number))?;
    tell(rt, "end", store.end(number))?;
    tell(rt, "publish", store.publish(number))
}

// The key goes to its row, with payload 100.
fn publish_key(rt: &impl Print, store: &mut Store) -> io::Result<()> {
    println!(rt; "a key is published")?;
    let number = begin(rt, store)?;
    tell(rt, "put", store.put(number, ROW, KEY, 100))?;
    finish(rt, store, number)
}

// The key's row is erased.
fn revoke(rt: &impl Print, store: &mut Store) -> io::Result<()> {
    println!(rt; "the key is revoked")?;
    let number = begin(rt, store)?;
    tell(rt, "erase", store.erase(number, ROW))?;
    finish(rt, store, number)
}

// A tap looks the key up: capture, collect, rows.
fn look_up(rt: &impl Print, store: &mut Store, found: &mut [u64]) -> io::Result<u64> {
    println!(rt; "a tap looks the key up")?;
    let number = begin(rt, store)?;
    tell(rt, "capture", store.capture(number, KEY))?;
    tell(rt, "collect", store.collect(number))?;
    tell(rt, "rows", store.rows(found, number))?;
    Ok(number)
}

// The whole: a tap, and a revocation between its read and its validation.
fn play(rt: &impl Print, store: &mut Store, found: &mut [u64; ROWS]) -> io::Result<()> {
    println!(rt; "a store is opened")?;
    let sizes = Sizes {
        rows: ROWS as u64,
        versions: VERSIONS as u64,
        buckets: BUCKETS as u64,
    };
    tell(rt, "open", store.open(sizes, 1))?;
    publish_key(rt, store)?;
    let tap = look_up(rt, store, found)?;
    revoke(rt, store)?;
    println!(rt; "does the tap's read stand?")?;
    tell(rt, "validate", store.validate(tap))?;
    println!(rt; "the row found was {}", found[0])
}

fn main(rt: HostRuntime) -> io::Result<()> {
    let mut store = Store {
        rows: &mut [0; ROWS_LENT],
        versions: &mut [0; VERSIONS_LENT],
        buckets: &mut [0; BUCKETS_LENT],
        lists: &mut [0; LISTS_LENT],
        machine: closed(),
    };
    play(&rt, &mut store, &mut [0; ROWS])
}
