// Holders of buckets and claims of rows: what a transaction needs, whether another has it, taking it and freeing it.
#![tactic(auto)]

ghost use Rattle.std.specs.Prelude.{◌≡◌};
ghost use Rattle.model.specs.Store.{same_key};
ghost use Rattle.txn_needs.specs.Keys.{gets_version_of, headed_by, key_of, version_key, is_installed, old_key_of, new_key_of, keys_of, changed_keys};
ghost use Rattle.txn_needs.specs.Needs.{push_one, push_all, front, buckets_for, keys_need, reads_need, written_by, writes_need, writes_change};
ghost use Rattle.txn_needs.specs.Listing.{listed_of};
ghost use Rattle.table.specs.Fields.{set_claims, clear_claims, clear_holders};
ghost use Rattle.txn_needs.specs.Taken.{any_taken, any_claimed};

use table::lists::{read_bucket_at, write_key_at, write_keyed_at, write_row_at};
use table::{
    claim_at, head_at, holder_at, key_at, keyed_at, next_at, release, set_claim, unclaim, xmin_at,
};
use table_buckets::bucket_of;
use table_scans::latest_pending;
use txn::{Phase, Transaction, by_another};

pub mod versions; // versions.rt: the rows that get a version

// A key, or none where `keyed` is 0.
// Stays a word beside a key, and no Option: `keyed` is the lent word, of any value, and publish posts it as it stands (`finish_publish`, `posted_one`).
#[derive(Clone, Copy)]
pub struct Key {
    pub keyed: u64,
    pub key: u64,
}

pub const NO_KEY: Key = Key { keyed: 0, key: 0 };

// The old and the new key of a pending row.
#[derive(Clone, Copy)]
pub struct Keys {
    pub old: Key,
    pub new: Key,
}

// The key of the version at a pointer; none at 0.
#[tactic(auto, unfolding(crate::specs::Keys::version_key))]
pub fn key_of_version(versions: &[u64], ptr: u64) -> Key
    ensures { result ≡ version_key versions.now ptr }
{
    if ptr == 0 {
        return NO_KEY;
    }
    Key {
        keyed: keyed_at(versions, ptr as usize),
        key: key_at(versions, ptr as usize),
    }
}

// The key that a row had before its pending write: the head version's; once installed, that of the version after the head.
// Stays with the lent tables one by one, here and below: the C interface lends them and the definitions over words take them so (docs/DECISIONS.md, 69).
#[tactic(auto, unfolding(crate::specs::Keys::old_key_of))]
pub fn old_key(rows: &[u64], versions: &[u64], installed: bool, row: u64) -> Key
    ensures { result ≡ old_key_of rows.now versions.now installed row }
{
    let head = head_at(rows, row as usize);
    if installed {
        return key_of_version(versions, next_at(versions, head as usize));
    }
    key_of_version(versions, head)
}

// The key of a row's last pending write; none where it has no such write.
// Stays with lists, slot and count one by one, here and below: the definitions over words take them so (`new_key_of`), and a struct would serve one call each.
#[tactic(auto, unfolding(crate::specs::Keys::new_key_of))]
pub fn new_key(lists: &[u64], slot: u32, count: u32, row: u64) -> Key
    ensures { result ≡ new_key_of lists.now slot count row }
{
    match latest_pending(lists, slot, count, row) {
        Some(i) => Key {
            keyed: write_keyed_at(lists, slot, i),
            key: write_key_at(lists, slot, i),
        },
        None => NO_KEY,
    }
}

// Whether a transaction in this phase has installed its writes.
fn is_installed(phase: Phase) -> bool
    ensures { result ≡ is_installed phase }
{
    matches!(phase, Phase::Installed | Phase::Ended)
}

// The old and the new key of a row that a transaction writes.
#[tactic(auto, unfolding(crate::specs::Keys::keys_of))]
fn keys_of(rows: &[u64], versions: &[u64], lists: &[u64], t: Transaction, row: u64) -> Keys
    ensures { result ≡ keys_of rows.now versions.now lists.now t row }
{
    Keys {
        old: old_key(rows, versions, is_installed(t.phase), row),
        new: new_key(lists, t.slot, t.writes_n, row),
    }
}

// Whether two keys are the same: none differs from any key.
// Stays written out: `keyed` words that differ are the same to it while neither is 0 (`same_key`), which no derive says.
#[tactic(auto, unfolding(model::specs::Store::same_key))]
pub fn same_key(a: Key, b: Key) -> bool
    ensures { result ≡ same_key (key_of a) (key_of b) }
{
    match (a.keyed, b.keyed) {
        (0, 0) => true,
        (0, _) | (_, 0) => false,
        _ => a.key == b.key,
    }
}

// A list in lent words: the first `n` words of `out` are listed.
// Stays with `same_words` in each contract below: it relates the list before a call and after it, which no invariant of the type can say.
#[derive(Drop)]
pub struct Listing<'a> {
    pub out: &'a mut [u64],
    pub n: usize,
}

impl<'a> Listing<'a> {
    // Nothing is listed yet.
    pub fn new(out: &'a mut [u64]) -> Self
        ensures same_words { result.out.ghost_name ≡ out.entry.ghost_name }
        ensures listed { listed_of result ≡ record { out = out.old; n = 0 } }
    {
        Self { out, n: 0 }
    }

    // What is listed.
    pub fn as_slice(&self) -> &[u64]
        ensures { result.now ≡ front (listed_of self.now) }
    {
        &self.out[..self.n.min(self.out.len())]
    }

    // One number more, where there is room for it.
    #[tactic(auto, unfolding(crate::specs::Needs::push_one))]
    pub fn push(&mut self, x: u64)
        ensures same_words { self.new.out.ghost_name ≡ self.old.out.ghost_name }
        ensures listed { listed_of self.new ≡ push_one (listed_of self.old) x }
    {
        if self.n < self.out.len() {
            self.out[self.n] = x;
            self.n += 1;
        }
    }

    // The bucket of a key; no key needs none.
    #[tactic(auto, unfolding(crate::specs::Needs::push_all, crate::specs::Needs::buckets_for))]
    pub fn push_key(&mut self, bucket_count: u64, key: Key)
        ensures same_words { self.new.out.ghost_name ≡ self.old.out.ghost_name }
        ensures listed { listed_of self.new ≡ push_all (listed_of self.old) (buckets_for bucket_count key) }
    {
        if key.keyed != 0 {
            self.push(bucket_of(bucket_count, key.key));
        }
    }

    // The buckets of a row's old and new key.
    fn push_keys(&mut self, bucket_count: u64, keys: Keys)
        ensures same_words { self.new.out.ghost_name ≡ self.old.out.ghost_name }
        ensures listed { listed_of self.new ≡ push_all (listed_of self.old) (keys_need bucket_count keys) }
    {
        self.push_key(bucket_count, keys.old);
        self.push_key(bucket_count, keys.new);
    }

    // The buckets of the index reads.
    pub fn push_reads(&mut self, lists: &[u64], t: Transaction)
        ensures same_words { self.new.out.ghost_name ≡ self.old.out.ghost_name }
        ensures listed { listed_of self.new ≡ push_all (listed_of self.old) (reads_need lists.now t) }
    {
        for i in 0..t.reads_n {
            self.push(read_bucket_at(lists, t.slot, i));
        }
    }

    // The buckets of the old and the new key of every pending row.
    pub fn push_writes(
        &mut self,
        rows: &[u64],
        versions: &[u64],
        lists: &[u64],
        bucket_count: u64,
        t: Transaction,
    )
        ensures same_words { self.new.out.ghost_name ≡ self.old.out.ghost_name }
        ensures listed { listed_of self.new
            ≡ push_all (listed_of self.old) (writes_need rows.now versions.now lists.now bucket_count t) }
    {
        // The two keys are asked for here: handed to `keys_of`, the whole record would be copied for each row.
        let installed = is_installed(t.phase);
        for i in 0..t.writes_n {
            let row = write_row_at(lists, t.slot, i);
            let old = old_key(rows, versions, installed, row);
            let new = new_key(lists, t.slot, t.writes_n, row);
            self.push_keys(bucket_count, Keys { old, new });
        }
    }

    // The buckets that a publish stamps: of the pending rows whose key changed.
    pub fn push_changes(
        &mut self,
        rows: &[u64],
        versions: &[u64],
        lists: &[u64],
        bucket_count: u64,
        t: Transaction,
    )
        ensures same_words { self.new.out.ghost_name ≡ self.old.out.ghost_name }
        ensures listed { listed_of self.new
            ≡ push_all (listed_of self.old) (writes_change rows.now versions.now lists.now bucket_count t) }
    {
        for i in 0..t.writes_n {
            let keys = changed_keys(rows, versions, lists, t, write_row_at(lists, t.slot, i));
            self.push_keys(bucket_count, keys);
        }
    }
}

// Whether a row is headed by a version of this number.
#[tactic(auto, unfolding(crate::specs::Keys::headed_by))]
pub fn headed_by(rows: &[u64], versions: &[u64], number: u64, row: u64) -> bool
    ensures { result ≡ headed_by rows.now versions.now number row }
{
    let head = head_at(rows, row as usize);
    head != 0 && xmin_at(versions, head as usize) == number
}

// Whether a pending row gets a version: where its head is live or its last write is a put.
#[tactic(auto, unfolding(crate::specs::Keys::gets_version_of))]
pub fn gets_version(
    rows: &[u64],
    versions: &[u64],
    lists: &[u64],
    slot: u32,
    count: u32,
    row: u64,
) -> bool
    ensures { result ≡ gets_version_of rows.now versions.now lists.now slot count row }
{
    old_key(rows, versions, false, row).keyed != 0 || new_key(lists, slot, count, row).keyed != 0
}

// The old and the new key of a pending row; none twice where no version was made or they are the same.
#[tactic(auto, unfolding(crate::specs::Keys::changed_keys))]
fn changed_keys(rows: &[u64], versions: &[u64], lists: &[u64], t: Transaction, row: u64) -> Keys
    ensures { result ≡ changed_keys rows.now versions.now lists.now t row }
{
    let none = Keys {
        old: NO_KEY,
        new: NO_KEY,
    };
    if !headed_by(rows, versions, t.number, row) {
        return none;
    }
    let keys = keys_of(rows, versions, lists, t, row);
    if same_key(keys.old, keys.new) {
        return none;
    }
    keys
}

// Whether a bucket of a list is held by another.
pub fn any_taken(buckets: &[u64], list: &[u64], number: u64) -> bool
    ensures { result ≡ any_taken buckets.now list.now number }
{
    list.iter()
        .any(|b| by_another(holder_at(buckets, *b as usize), number))
}

// Whether a pending row is claimed by another.
pub fn any_claimed(rows: &[u64], lists: &[u64], t: Transaction) -> bool
    ensures { result ≡ any_claimed rows.now lists.now t }
{
    (0..t.writes_n).any(|i| {
        by_another(
            claim_at(rows, write_row_at(lists, t.slot, i) as usize),
            t.number,
        )
    })
}

// Frees those of a list's buckets that carry the number.
pub fn release_all(buckets: &mut [u64], list: &[u64], number: u64)
    ensures { buckets.new ≡ clear_holders buckets.old number list.now }
{
    for bucket in list {
        release(buckets, *bucket as usize, number);
    }
}

// Every pending row gets a claim.
pub fn claim_all(rows: &mut [u64], lists: &[u64], t: Transaction)
    ensures { rows.new ≡ set_claims rows.old t.number (written_by lists.now t) }
{
    for i in 0..t.writes_n {
        set_claim(rows, write_row_at(lists, t.slot, i) as usize, t.number);
    }
}

// Frees the claims of those pending rows that carry the number.
pub fn unclaim_all(rows: &mut [u64], lists: &[u64], t: Transaction)
    ensures { rows.new ≡ clear_claims rows.old t.number (written_by lists.now t) }
{
    for i in 0..t.writes_n {
        unclaim(rows, write_row_at(lists, t.slot, i) as usize, t.number);
    }
}
