// The lists of a transaction: index reads, pending writes, read records and candidates, each at a fixed place of its slot.
ghost use Rattle.std.specs.Prelude.{◌≡◌, [], ◌∷◌, ◌+◌, ◌*◌, ◌≤◌, ◌<◌, get_or, length};
ghost use Rattle.std.proofs.lemmas.List.Edits.{sets};
ghost use Rattle.table.specs.Regions.{words};
ghost use Rattle.table.specs.Lists.{slot_words, reads, writes, records, candidates, read_at, write_at, record_at, candidate_at, stored};

use super::{set_word, word};
use base_limits::{MOST_INDEX_READS, MOST_RECORDS, MOST_ROWS, MOST_WRITES};

// Words of an entry of each list, and where the list starts in its slot: where the one before it ends.
pub const READ_WORDS: usize = 2;

pub const WRITE_WORDS: usize = 4;

pub const RECORD_WORDS: usize = 3;

pub const CANDIDATE_WORDS: usize = 1;

pub const READS_AT: usize = 0;

pub const WRITES_AT: usize = READS_AT + READ_WORDS * (MOST_INDEX_READS as usize);

pub const RECORDS_AT: usize = WRITES_AT + WRITE_WORDS * (MOST_WRITES as usize);

pub const CANDIDATES_AT: usize = RECORDS_AT + RECORD_WORDS * (MOST_RECORDS as usize);

// Words of a slot.
pub const SLOT_WORDS: usize = CANDIDATES_AT + CANDIDATE_WORDS * MOST_ROWS;

// An index read, a pending write (keyed 0 for an erase), a read record.
#[derive(Clone, Copy)]
pub struct IndexRead {
    pub bucket: u64,
    pub stamp: u64,
}

// Stays a word beside a key, and no Option: `write_at` promises the words as they stand, and install copies any `keyed` into its version (`version_stored`).
#[derive(Clone, Copy)]
pub struct Write {
    pub row: u64,
    pub keyed: u64,
    pub key: u64,
    pub payload: u64,
}

#[derive(Clone, Copy)]
pub struct ReadRecord {
    pub row: u64,
    pub ptr: u64,
    pub xmin: u64,
}

// A list of a slot: where it starts in the slot, and how many words an entry has.
#[derive(Clone, Copy)]
struct SlotList {
    at: usize,
    words: usize,
    ghost low: { (at ≤ slot_words) × (words ≤ 8) },
}

const READS: SlotList = SlotList {
    at: READS_AT,
    words: READ_WORDS,
};

const WRITES: SlotList = SlotList {
    at: WRITES_AT,
    words: WRITE_WORDS,
};

const RECORDS: SlotList = SlotList {
    at: RECORDS_AT,
    words: RECORD_WORDS,
};

const CANDIDATES: SlotList = SlotList {
    at: CANDIDATES_AT,
    words: CANDIDATE_WORDS,
};

impl SlotList {
    // Where entry i stands. Slot and i are of 32 bits, so that no place wraps.
    fn place(self, slot: u32, i: u32) -> usize
        ensures { result ≡ slot_words * slot + self.at + self.words * i }
    {
        SLOT_WORDS * (slot as usize) + self.at + self.words * (i as usize)
    }

    // Word k of entry i.
    fn get(self, lists: &[u64], slot: u32, i: u32, k: usize) -> u64
        requires { k < self.words }
        ensures { result ≡ get_or (words self.words (slot_words * slot + self.at + self.words * i) lists.now) k 0 }
    {
        word(lists, self.place(slot, i) + k)
    }

    // Entry i is stored, whole.
    fn put(self, lists: &mut [u64], slot: u32, i: u32, entry: &[u64])
        requires { length entry.now ≤ 8 }
        ensures { lists.new ≡ sets lists.old (slot_words * slot + self.at + self.words * i) entry.now }
    {
        let at = self.place(slot, i);
        for (k, x) in entry.iter().enumerate() {
            set_word(lists, at + k, *x);
        }
    }
}

// Stays a function for each word: each promises a field of a definition (`read_at`), and `read_stamp_at(lists, slot, i)` is plainer than `READS.get(.., 1)`.
// Index reads: bucket, stamp.
pub fn read_bucket_at(lists: &[u64], slot: u32, i: u32) -> u64
    ensures { result ≡ (read_at lists.now slot i).bucket }
{
    READS.get(lists, slot, i, 0)
}

pub fn read_stamp_at(lists: &[u64], slot: u32, i: u32) -> u64
    ensures { result ≡ (read_at lists.now slot i).stamp }
{
    READS.get(lists, slot, i, 1)
}

pub fn read_at(lists: &[u64], slot: u32, i: u32) -> IndexRead
    ensures { result ≡ read_at lists.now slot i }
{
    IndexRead {
        bucket: read_bucket_at(lists, slot, i),
        stamp: read_stamp_at(lists, slot, i),
    }
}

pub fn put_read(lists: &mut [u64], slot: u32, i: u32, r: IndexRead)
    ensures { lists.new ≡ stored reads lists.old slot i (r.bucket ∷ r.stamp ∷ []) }
{
    READS.put(lists, slot, i, &[r.bucket, r.stamp]);
}

// Pending writes: row, keyed, key, payload.
pub fn write_row_at(lists: &[u64], slot: u32, i: u32) -> u64
    ensures { result ≡ (write_at lists.now slot i).row }
{
    WRITES.get(lists, slot, i, 0)
}

pub fn write_keyed_at(lists: &[u64], slot: u32, i: u32) -> u64
    ensures { result ≡ (write_at lists.now slot i).keyed }
{
    WRITES.get(lists, slot, i, 1)
}

pub fn write_key_at(lists: &[u64], slot: u32, i: u32) -> u64
    ensures { result ≡ (write_at lists.now slot i).key }
{
    WRITES.get(lists, slot, i, 2)
}

pub fn write_payload_at(lists: &[u64], slot: u32, i: u32) -> u64
    ensures { result ≡ (write_at lists.now slot i).payload }
{
    WRITES.get(lists, slot, i, 3)
}

pub fn write_at(lists: &[u64], slot: u32, i: u32) -> Write
    ensures { result ≡ write_at lists.now slot i }
{
    Write {
        row: write_row_at(lists, slot, i),
        keyed: write_keyed_at(lists, slot, i),
        key: write_key_at(lists, slot, i),
        payload: write_payload_at(lists, slot, i),
    }
}

pub fn put_write(lists: &mut [u64], slot: u32, i: u32, w: Write)
    ensures { lists.new ≡ stored writes lists.old slot i (w.row ∷ w.keyed ∷ w.key ∷ w.payload ∷ []) }
{
    WRITES.put(lists, slot, i, &[w.row, w.keyed, w.key, w.payload]);
}

// Read records: row, pointer, xmin.
pub fn record_row_at(lists: &[u64], slot: u32, i: u32) -> u64
    ensures { result ≡ (record_at lists.now slot i).row }
{
    RECORDS.get(lists, slot, i, 0)
}

pub fn record_ptr_at(lists: &[u64], slot: u32, i: u32) -> u64
    ensures { result ≡ (record_at lists.now slot i).ptr }
{
    RECORDS.get(lists, slot, i, 1)
}

pub fn record_xmin_at(lists: &[u64], slot: u32, i: u32) -> u64
    ensures { result ≡ (record_at lists.now slot i).xmin }
{
    RECORDS.get(lists, slot, i, 2)
}

pub fn record_at(lists: &[u64], slot: u32, i: u32) -> ReadRecord
    ensures { result ≡ record_at lists.now slot i }
{
    ReadRecord {
        row: record_row_at(lists, slot, i),
        ptr: record_ptr_at(lists, slot, i),
        xmin: record_xmin_at(lists, slot, i),
    }
}

pub fn put_record(lists: &mut [u64], slot: u32, i: u32, r: ReadRecord)
    ensures { lists.new ≡ stored records lists.old slot i (r.row ∷ r.ptr ∷ r.xmin ∷ []) }
{
    RECORDS.put(lists, slot, i, &[r.row, r.ptr, r.xmin]);
}

// Candidates: row.
pub fn candidate_at(lists: &[u64], slot: u32, i: u32) -> u64
    ensures { result ≡ candidate_at lists.now slot i }
{
    CANDIDATES.get(lists, slot, i, 0)
}

pub fn put_candidate(lists: &mut [u64], slot: u32, i: u32, row: u64)
    ensures { lists.new ≡ stored candidates lists.old slot i (row ∷ []) }
{
    CANDIDATES.put(lists, slot, i, &[row]);
}
