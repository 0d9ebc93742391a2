// The lent tables: entries of a few words each, read and written by total functions.
#![tactic(auto)]

ghost use Rattle.std.specs.Prelude.{◌≡◌, ◌≤◌, get_or, set};
ghost use Rattle.table.specs.Words.{field, set_field, set_fields, clear_field, clear_every};
ghost use Rattle.table.specs.Fields.{row_words, version_words, bucket_words};
ghost use Rattle.table.specs.Fields.{xmin_of, set_xmin, xmax_of, set_xmax, next_of, set_next, keyed_of, set_keyed, key_of, set_key, payload_of, set_payload};
ghost use Rattle.table.specs.Fields.{head_of, set_head, claim_of, set_claim, unclaimed, unclaim_every, posted_of, set_posted, posted_key_of, set_posted_key};
ghost use Rattle.table.specs.Fields.{later_of, set_later, first_of, set_first};
ghost use Rattle.table.specs.Fields.{stamp_of, set_stamp, set_stamps, holder_of, set_holder, set_holders, released, release_every};

pub mod lists; // lists.rt: the lists of a transaction, in its slot

// How many words a row's entry has, a version's and a bucket's.
pub const ROW_WORDS: usize = 6;

pub const VERSION_WORDS: usize = 6;

pub const BUCKET_WORDS: usize = 2;

// Where the words of a row's entry stand in it.
pub const HEAD: usize = 0;

pub const CLAIM: usize = 1;

pub const POSTED: usize = 2;

pub const POSTED_KEY: usize = 3;

pub const LATER: usize = 4;

pub const FIRST: usize = 5;

// Of a version's.
pub const XMIN: usize = 0;

pub const XMAX: usize = 1;

pub const NEXT: usize = 2;

pub const KEYED: usize = 3;

pub const KEY: usize = 4;

pub const PAYLOAD: usize = 5;

// Of a bucket's.
pub const STAMP: usize = 0;

pub const HOLDER: usize = 1;

// The word at `at`, or 0.
pub fn word(xs: &[u64], at: usize) -> u64
    ensures { result ≡ get_or xs.now at 0 }
{
    xs.get(at).copied().unwrap_or(0)
}

// Stores v at `at`, if there is such a word.
pub fn set_word(xs: &mut [u64], at: usize, v: u64)
    ensures { xs.new ≡ set xs.old at v }
{
    if at < xs.len() {
        xs[at] = v;
    }
}

// A field of a table: how many words an entry has, and which of them the field is.
#[derive(Clone, Copy)]
struct Field {
    words: usize,
    at: usize,
    ghost few: { (1 ≤ words) × (words ≤ 8) × (at ≤ 8) },
}

// A field of a row, of a version, of a bucket.
fn of_row(at: usize) -> Field
    requires { at ≤ 8 }
    ensures { (result.words ≡ row_words) × (result.at ≡ at) }
{
    Field {
        words: ROW_WORDS,
        at,
    }
}

fn of_version(at: usize) -> Field
    requires { at ≤ 8 }
    ensures { (result.words ≡ version_words) × (result.at ≡ at) }
{
    Field {
        words: VERSION_WORDS,
        at,
    }
}

fn of_bucket(at: usize) -> Field
    requires { at ≤ 8 }
    ensures { (result.words ≡ bucket_words) × (result.at ≡ at) }
{
    Field {
        words: BUCKET_WORDS,
        at,
    }
}

impl Field {
    // The field of entry i; an i past the words is tested first, so that no place wraps.
    fn get(self, xs: &[u64], i: usize) -> u64
        ensures { result ≡ field self.words self.at xs.now i }
    {
        if i >= xs.len() {
            return 0;
        }
        word(xs, self.words * i + self.at)
    }

    fn set(self, xs: &mut [u64], i: usize, v: u64)
        ensures { xs.new ≡ set_field self.words self.at xs.old i v }
    {
        if i < xs.len() {
            set_word(xs, self.words * i + self.at, v);
        }
    }

    // The same at each entry that a list names.
    fn set_each(self, xs: &mut [u64], list: &[u64], v: u64)
        ensures { xs.new ≡ set_fields self.words self.at xs.old v list.now }
    {
        for i in list {
            self.set(xs, *i as usize, v);
        }
    }

    // The field of entry i becomes 0 where it was v.
    fn clear(self, xs: &mut [u64], i: usize, v: u64)
        ensures { xs.new ≡ clear_field self.words self.at xs.old i v }
    {
        if self.get(xs, i) == v {
            self.set(xs, i, 0);
        }
    }

    // The same at each entry below n.
    fn clear_every(self, xs: &mut [u64], n: u64, v: u64)
        ensures { xs.new ≡ clear_every self.words self.at xs.old n v }
    {
        for i in 0..n {
            self.clear(xs, i as usize, v);
        }
    }
}

// Stays a function for each field: each promises a definition of its own, and `head_at(rows, r)` is plainer than `of_row(HEAD).get(rows, r)`.
// Rows: head, claim, posted, posted key, later, first.
pub fn head_at(rows: &[u64], r: usize) -> u64
    ensures { result ≡ head_of rows.now r }
{
    of_row(HEAD).get(rows, r)
}

pub fn set_head(rows: &mut [u64], r: usize, x: u64)
    ensures { rows.new ≡ set_head rows.old r x }
{
    of_row(HEAD).set(rows, r, x);
}

pub fn claim_at(rows: &[u64], r: usize) -> u64
    ensures { result ≡ claim_of rows.now r }
{
    of_row(CLAIM).get(rows, r)
}

pub fn set_claim(rows: &mut [u64], r: usize, x: u64)
    ensures { rows.new ≡ set_claim rows.old r x }
{
    of_row(CLAIM).set(rows, r, x);
}

// A row is freed where its claim is the number.
pub fn unclaim(rows: &mut [u64], r: usize, number: u64)
    ensures { rows.new ≡ unclaimed rows.old r number }
{
    of_row(CLAIM).clear(rows, r, number);
}

// Every row below the count whose claim is the number becomes free.
pub fn unclaim_every(rows: &mut [u64], row_count: u64, number: u64)
    ensures { rows.new ≡ unclaim_every rows.old row_count number }
{
    of_row(CLAIM).clear_every(rows, row_count, number);
}

pub fn posted_at(rows: &[u64], r: usize) -> u64
    ensures { result ≡ posted_of rows.now r }
{
    of_row(POSTED).get(rows, r)
}

pub fn set_posted(rows: &mut [u64], r: usize, x: u64)
    ensures { rows.new ≡ set_posted rows.old r x }
{
    of_row(POSTED).set(rows, r, x);
}

pub fn posted_key_at(rows: &[u64], r: usize) -> u64
    ensures { result ≡ posted_key_of rows.now r }
{
    of_row(POSTED_KEY).get(rows, r)
}

pub fn set_posted_key(rows: &mut [u64], r: usize, x: u64)
    ensures { rows.new ≡ set_posted_key rows.old r x }
{
    of_row(POSTED_KEY).set(rows, r, x);
}

pub fn later_at(rows: &[u64], r: usize) -> u64
    ensures { result ≡ later_of rows.now r }
{
    of_row(LATER).get(rows, r)
}

pub fn set_later(rows: &mut [u64], r: usize, x: u64)
    ensures { rows.new ≡ set_later rows.old r x }
{
    of_row(LATER).set(rows, r, x);
}

pub fn first_at(rows: &[u64], r: usize) -> u64
    ensures { result ≡ first_of rows.now r }
{
    of_row(FIRST).get(rows, r)
}

pub fn set_first(rows: &mut [u64], r: usize, x: u64)
    ensures { rows.new ≡ set_first rows.old r x }
{
    of_row(FIRST).set(rows, r, x);
}

// Versions: xmin, xmax, next, keyed, key, payload.
pub fn xmin_at(versions: &[u64], p: usize) -> u64
    ensures { result ≡ xmin_of versions.now p }
{
    of_version(XMIN).get(versions, p)
}

pub fn set_xmin(versions: &mut [u64], p: usize, x: u64)
    ensures { versions.new ≡ set_xmin versions.old p x }
{
    of_version(XMIN).set(versions, p, x);
}

pub fn xmax_at(versions: &[u64], p: usize) -> u64
    ensures { result ≡ xmax_of versions.now p }
{
    of_version(XMAX).get(versions, p)
}

pub fn set_xmax(versions: &mut [u64], p: usize, x: u64)
    ensures { versions.new ≡ set_xmax versions.old p x }
{
    of_version(XMAX).set(versions, p, x);
}

pub fn next_at(versions: &[u64], p: usize) -> u64
    ensures { result ≡ next_of versions.now p }
{
    of_version(NEXT).get(versions, p)
}

pub fn set_next(versions: &mut [u64], p: usize, x: u64)
    ensures { versions.new ≡ set_next versions.old p x }
{
    of_version(NEXT).set(versions, p, x);
}

pub fn keyed_at(versions: &[u64], p: usize) -> u64
    ensures { result ≡ keyed_of versions.now p }
{
    of_version(KEYED).get(versions, p)
}

pub fn set_keyed(versions: &mut [u64], p: usize, x: u64)
    ensures { versions.new ≡ set_keyed versions.old p x }
{
    of_version(KEYED).set(versions, p, x);
}

pub fn key_at(versions: &[u64], p: usize) -> u64
    ensures { result ≡ key_of versions.now p }
{
    of_version(KEY).get(versions, p)
}

pub fn set_key(versions: &mut [u64], p: usize, x: u64)
    ensures { versions.new ≡ set_key versions.old p x }
{
    of_version(KEY).set(versions, p, x);
}

pub fn payload_at(versions: &[u64], p: usize) -> u64
    ensures { result ≡ payload_of versions.now p }
{
    of_version(PAYLOAD).get(versions, p)
}

pub fn set_payload(versions: &mut [u64], p: usize, x: u64)
    ensures { versions.new ≡ set_payload versions.old p x }
{
    of_version(PAYLOAD).set(versions, p, x);
}

// Buckets: stamp, holder.
pub fn stamp_at(buckets: &[u64], b: usize) -> u64
    ensures { result ≡ stamp_of buckets.now b }
{
    of_bucket(STAMP).get(buckets, b)
}

pub fn set_stamp(buckets: &mut [u64], b: usize, x: u64)
    ensures { buckets.new ≡ set_stamp buckets.old b x }
{
    of_bucket(STAMP).set(buckets, b, x);
}

// Every bucket of a list gets a stamp.
pub fn set_stamps(buckets: &mut [u64], list: &[u64], x: u64)
    ensures { buckets.new ≡ set_stamps buckets.old x list.now }
{
    of_bucket(STAMP).set_each(buckets, list, x);
}

pub fn holder_at(buckets: &[u64], b: usize) -> u64
    ensures { result ≡ holder_of buckets.now b }
{
    of_bucket(HOLDER).get(buckets, b)
}

pub fn set_holder(buckets: &mut [u64], b: usize, x: u64)
    ensures { buckets.new ≡ set_holder buckets.old b x }
{
    of_bucket(HOLDER).set(buckets, b, x);
}

// Every bucket of a list gets a holder.
pub fn set_holders(buckets: &mut [u64], list: &[u64], x: u64)
    ensures { buckets.new ≡ set_holders buckets.old x list.now }
{
    of_bucket(HOLDER).set_each(buckets, list, x);
}

// A bucket is freed where its holder is the number.
pub fn release(buckets: &mut [u64], b: usize, number: u64)
    ensures { buckets.new ≡ released buckets.old b number }
{
    of_bucket(HOLDER).clear(buckets, b, number);
}

// Every bucket below the count whose holder is the number becomes free.
pub fn release_every(buckets: &mut [u64], bucket_count: u64, number: u64)
    ensures { buckets.new ≡ release_every buckets.old bucket_count number }
{
    of_bucket(HOLDER).clear_every(buckets, bucket_count, number);
}
