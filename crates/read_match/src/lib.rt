// The matching rule: how a row matches a transaction's key.
#![tactic(auto)]

ghost use Rattle.std.specs.Prelude.{◌≡◌};
ghost use Rattle.read_match.specs.Matching.{look, carries, by_version, by_write, match_of};

use table::lists::write_at;
use table::{head_at, key_at, keyed_at};
use table_chain::first_visible;
use table_scans::latest_pending;
use txn::Transaction;

// How a row matches the key: not, through its last pending write, or through the version that the walk finds.
// Stays an enum of three: in an Option of the pointer, pointer 0 would stand for an own write.
#[derive(Clone, Copy)]
pub enum Match {
    No,
    Write,
    Version(u64),
}

// Who reads what: the transaction, the key, the last used pointer, and the room for the rows.
#[derive(Clone, Copy)]
pub struct Reading {
    pub txn: Transaction,
    pub key: u64,
    pub used: u64,
    pub room: u64,
}

// Whether a key, beside the word that says whether there is one, is the key wanted.
// Stays two numbers: both are read as they stand in a version or a pending write, whose `keyed` may be any word (`carries`); a `Key` would be made for it.
fn carries_key(keyed: u64, key: u64, wanted: u64) -> bool
    ensures { result ≡ carries keyed key wanted }
{
    keyed != 0 && key == wanted
}

// By the version that the walk found.
fn by_version(versions: &[u64], key: u64, seen: Option<u64>) -> Match
    ensures { result ≡ by_version versions.now key seen }
{
    match seen {
        Some(p)
            if carries_key(
                keyed_at(versions, p as usize),
                key_at(versions, p as usize),
                key,
            ) => Match::Version(p),
        _ => Match::No,
    }
}

// By the pending write at place i.
fn by_write(lists: &[u64], slot: u32, i: u32, key: u64) -> Match
    ensures { result ≡ by_write lists.now slot i key }
{
    let write = write_at(lists, slot, i);
    if carries_key(write.keyed, write.key, key) {
        Match::Write
    } else {
        Match::No
    }
}

// How a row matches: its last pending write decides, and where it has none the version seen.
// Stays with the lent tables one by one: so the C interface lends them, and `look`, which `match_of` promises, takes their words.
#[tactic(auto, unfolding(crate::specs::Matching::match_of))]
pub fn match_of(rows: &[u64], versions: &[u64], lists: &[u64], reading: Reading, row: u64) -> Match
    ensures { result ≡ match_of (look rows.now versions.now lists.now reading) row }
{
    let Reading {
        txn: t,
        key,
        used,
        ..
    } = reading;
    if let Some(i) = latest_pending(lists, t.slot, t.writes_n, row) {
        return by_write(lists, t.slot, i, key);
    }
    let head = head_at(rows, row as usize);
    by_version(
        versions,
        key,
        first_visible(versions, used as usize, t.snapshot, head),
    )
}
