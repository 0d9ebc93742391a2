// Words of a state by their names: what stands there, and another word there. So a state can be made that no step leads to, and looked at behind any step.
#![tactic(auto)]

ghost use Rattle.std.specs.Prelude.{◌≡◌, ◌≤◌, length};
ghost use Rattle.table.specs.Lists.{slot_words};
ghost use Rattle.run_changes.specs.Changes.{word_of, IsNarrow, entry_place, list_place, lists_place, record_place, seen_in, record_seen, look_of};
ghost use Rattle.run_changes.specs.Changes.{state_in, changed_in, record_changed, own_changed, change_of};
ghost use Rattle.toruxeng.specs.Stores.{SameTables};

use base_limits::{MOST_ACTIVE, MOST_INDEX_READS, MOST_LIVE, MOST_RECORDS, MOST_ROWS, MOST_WRITES};
use names::word_named;
use records::{RecordWords, own_words, with_own};
use shape::Machine;
use table::lists::{
    CANDIDATE_WORDS, CANDIDATES_AT, READ_WORDS, READS_AT, RECORD_WORDS, RECORDS_AT, SLOT_WORDS,
    WRITE_WORDS, WRITES_AT,
};
use table::{BUCKET_WORDS, ROW_WORDS, VERSION_WORDS, set_word};
use toruxeng::Store;
use txn::Transaction;

mod names; // names.rt: the word that a name names
mod records; // records.rt: a record as words, and back

// Which word: its name's letters as a number, and the entry a, or the record at place a and there the entry b.
// Stays a number: `named` of run_script's specs/Names says which number a name is, and the theorems of the names speak of it.
#[derive(Clone, Copy)]
pub struct WordName {
    pub name: u64,
    pub a: u64,
    pub b: u64,
}

// The first name of a version's words, of a bucket's, of the lists', of a record's and of the machine's own.
const VERSION_NAMES: usize = ROW_WORDS;

const BUCKET_NAMES: usize = VERSION_NAMES + VERSION_WORDS;

const LIST_NAMES: usize = BUCKET_NAMES + BUCKET_WORDS;

const RECORD_NAMES: usize = LIST_NAMES + LIST_WORDS;

const OWN_NAMES: usize = RECORD_NAMES + RECORD_PARTS + 1;

// Among the words of an entry of every list, the first of a write's, of a read record's, of a candidate's; and how many there are.
const WRITE_FIELDS: usize = READ_WORDS;

const RECORD_FIELDS: usize = WRITE_FIELDS + WRITE_WORDS;

const CANDIDATE_FIELDS: usize = RECORD_FIELDS + RECORD_WORDS;

const LIST_WORDS: usize = CANDIDATE_FIELDS + CANDIDATE_WORDS;

// Parts of a record that are no active number.
const RECORD_PARTS: usize = 13;

// What a name names, and which of its words.
#[derive(Clone, Copy)]
enum Word {
    Row(usize),
    Version(usize),
    Bucket(usize),
    Entry(usize),
    Record(usize),
    Own(usize),
}

// A list of a record: where it starts in its slot, how many words an entry has, and how many entries it has room for.
// Stays beside table's `SlotList`: as `EntryList { list: SlotList, room }` it would be no plainer.
// That list, its constants and its place are private to table, which would promise all of them, each with an edit, for this crate alone.
#[derive(Clone, Copy)]
struct EntryList {
    off: usize,
    words: usize,
    room: u32,
    ghost narrow: { (off ≤ slot_words) × (words ≤ 8) },
}

const READS: EntryList = EntryList {
    off: READS_AT,
    words: READ_WORDS,
    room: MOST_INDEX_READS,
};

const WRITES: EntryList = EntryList {
    off: WRITES_AT,
    words: WRITE_WORDS,
    room: MOST_WRITES,
};

const RECORDS: EntryList = EntryList {
    off: RECORDS_AT,
    words: RECORD_WORDS,
    room: MOST_RECORDS,
};

const CANDIDATES: EntryList = EntryList {
    off: CANDIDATES_AT,
    words: CANDIDATE_WORDS,
    room: MOST_ROWS as u32,
};

// What a name names, by its place among all names.
fn word_of(k: usize) -> Word
    ensures same { result ≡ word_of k }
    ensures narrow { IsNarrow result }
{
    match k {
        ..VERSION_NAMES => Word::Row(k),
        VERSION_NAMES..BUCKET_NAMES => Word::Version(k - VERSION_NAMES),
        BUCKET_NAMES..LIST_NAMES => Word::Bucket(k - BUCKET_NAMES),
        LIST_NAMES..RECORD_NAMES => Word::Entry(k - LIST_NAMES),
        RECORD_NAMES..OWN_NAMES => Word::Record(k - RECORD_NAMES),
        _ => Word::Own(k - OWN_NAMES),
    }
}

// ---- where a word stands

// Word `field` of entry i of a table whose entries have `width` words.
fn entry_place(table: &[u64], width: usize, field: usize, i: u64) -> Option<usize>
    requires { (width ≤ 8) × (field ≤ 8) }
    ensures { result ≡ entry_place (length table.now) width field i }
{
    let i = i as usize;
    if i < table.len() {
        Some(width * i + field)
    } else {
        None
    }
}

impl EntryList {
    // Word `field` of entry i of this list of the record at a place.
    fn place(self, field: usize, place: u64, i: u64) -> Option<usize>
        requires { field ≤ 8 }
        ensures { result ≡ list_place (record { off = self.off; w = self.words; room = self.room }) field place i }
    {
        if place < MOST_LIVE as u64 && i < u64::from(self.room) {
            Some(SLOT_WORDS * (place as usize) + self.off + self.words * (i as usize) + field)
        } else {
            None
        }
    }
}

// Of the words of all four lists, by number.
#[tactic(auto, unfolding(crate::specs::Changes::lists_place))]
fn lists_place(k: usize, place: u64, i: u64) -> Option<usize>
    ensures { result ≡ lists_place k place i }
{
    match k {
        ..WRITE_FIELDS => READS.place(k, place, i),
        WRITE_FIELDS..RECORD_FIELDS => WRITES.place(k - WRITE_FIELDS, place, i),
        RECORD_FIELDS..CANDIDATE_FIELDS => RECORDS.place(k - RECORD_FIELDS, place, i),
        _ => CANDIDATES.place(0, place, i),
    }
}

// Among the words of a record: one of its parts, or its active number i.
fn record_place(k: usize, i: u64) -> Option<usize>
    ensures { result ≡ record_place k i }
{
    if k < RECORD_PARTS {
        Some(k)
    } else if i < MOST_ACTIVE as u64 {
        Some(RECORD_PARTS + i as usize)
    } else {
        None
    }
}

// ---- what stands there

fn seen_in(words: &[u64], at: Option<usize>) -> Option<u64>
    ensures { result ≡ seen_in words.now at }
{
    words.get(at?).copied()
}

// A word of the record at a place.
#[tactic(auto, unfolding(crate::specs::Changes::record_seen))]
fn record_seen(m: Machine, k: usize, place: u64, i: u64) -> Option<u64>
    ensures { result ≡ record_seen m k place i }
{
    let words = RecordWords::from(*m.txns.get(place as usize)?);
    seen_in(&words.0, record_place(k, i))
}

// The word of this name, of a table, of a record or of the machine's own.
// Stays beside `look`: who lends tables to read alone has no store in hand, and was promised this before.
pub fn look_at(
    rows: &[u64],
    versions: &[u64],
    buckets: &[u64],
    lists: &[u64],
    m: Machine,
    word: WordName,
) -> Option<u64>
    ensures { result ≡ look_of
        (record { rows = rows.now; versions = versions.now; buckets = buckets.now; lists = lists.now; machine = m })
        word }
{
    match word_of(word_named(word.name)?) {
        Word::Row(k) => seen_in(rows, entry_place(rows, ROW_WORDS, k, word.a)),
        Word::Version(k) => seen_in(versions, entry_place(versions, VERSION_WORDS, k, word.a)),
        Word::Bucket(k) => seen_in(buckets, entry_place(buckets, BUCKET_WORDS, k, word.a)),
        Word::Entry(k) => seen_in(lists, lists_place(k, word.a, word.b)),
        Word::Record(k) => record_seen(m, k, word.a, word.b),
        Word::Own(k) => own_words(m).get(k).copied(),
    }
}

// The same of a store in hand.
pub fn look(store: &Store, word: WordName) -> Option<u64>
    ensures { result ≡ look_of (state_in store.now) word }
{
    look_at(
        store.rows,
        store.versions,
        store.buckets,
        store.lists,
        store.machine,
        word,
    )
}

// ---- another word there

fn change_in(words: &mut [u64], at: Option<usize>, value: u64)
    ensures { words.new ≡ changed_in words.old at value }
{
    if let Some(at) = at {
        set_word(words, at, value);
    }
}

#[tactic(auto, unfolding(crate::specs::Changes::record_changed))]
fn record_changed(m: Machine, k: usize, place: u64, i: u64, value: u64) -> Machine
    ensures { result ≡ record_changed m k place i value }
{
    let mut changed = m;
    let at = place as usize;
    if at < MOST_LIVE {
        let mut words = RecordWords::from(m.txns[at]);
        change_in(&mut words.0, record_place(k, i), value);
        changed.txns[at] = Transaction::from(words);
    }
    changed
}

fn own_changed(m: Machine, k: usize, value: u64) -> Machine
    ensures { result ≡ own_changed m k value }
{
    let mut words = own_words(m);
    set_word(&mut words, k, value);
    with_own(m, words)
}

// Another word of this name, where `look` would see one.
pub fn change(store: &mut Store, word: WordName, value: u64)
    ensures tables { SameTables store.old store.new }
    ensures words { state_in store.new ≡ change_of (state_in store.old) word value }
{
    let Some(k) = word_named(word.name) else {
        return;
    };
    match word_of(k) {
        Word::Row(k) => {
            let rows = &mut *store.rows;
            let at = entry_place(rows, ROW_WORDS, k, word.a);
            change_in(rows, at, value);
        }
        Word::Version(k) => {
            let versions = &mut *store.versions;
            let at = entry_place(versions, VERSION_WORDS, k, word.a);
            change_in(versions, at, value);
        }
        Word::Bucket(k) => {
            let buckets = &mut *store.buckets;
            let at = entry_place(buckets, BUCKET_WORDS, k, word.a);
            change_in(buckets, at, value);
        }
        Word::Entry(k) => change_in(store.lists, lists_place(k, word.a, word.b), value),
        Word::Record(k) => {
            store.machine = record_changed(store.machine, k, word.a, word.b, value);
        }
        Word::Own(k) => store.machine = own_changed(store.machine, k, value),
    }
}
