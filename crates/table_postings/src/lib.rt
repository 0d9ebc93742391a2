// The list of a key: which of its rows a collect keeps, and how the posting of a row moves from one list to another.
#![tactic(auto)]

ghost use Rattle.std.specs.Prelude.{◌≡◌, cond, [], ◌∷◌, ◌+◌, ◌*◌, ◌<◌, ◌≤◌, length};
ghost use Rattle.base_limits.specs.Limits.{last_number};
ghost use Rattle.table.specs.Fields.{row_words, later_of};
ghost use Rattle.table_postings.specs.Postings.{list_for, posted_with, listed_with, kept_in};
ghost use Rattle.table_postings.specs.Links.{link_at, set_link, place_before, unlinked, linked, posted_to, taken_out, put_in, stays_listed, reposted};
ghost use Rattle.table_postings.specs.Keeping.{keep_all};

use base_limits::MOST_ROWS;
use table::lists::put_candidate;
use table::{
    LATER, POSTED, POSTED_KEY, ROW_WORDS, first_at, later_at, posted_at, posted_key_at, set_first,
    set_later, set_posted, set_posted_key,
};

// How many numbers half of a word holds, and what the halves of a key are multiplied with, so that keys in even steps do not fall together.
const HALF: u64 = 4294967296;

const UPPER_FACTOR: u64 = 1540483477;

const LOWER_FACTOR: u64 = 2654435769;

// Which list a key is in.
#[tactic(auto, unfolding(crate::specs::Postings::list_for))]
pub fn list_for(row_count: u64, key: u64) -> u64
    ensures { result ≡ list_for row_count key }
{
    let spread = (key / HALF * UPPER_FACTOR + key % HALF * LOWER_FACTOR) % HALF;
    spread * row_count.min(MOST_ROWS as u64) / HALF
}

// Whether a row is posted with the key. A row of a list is posted, and may have another key, so that is tested first.
// Stays three functions, and two for a link: collect with no test of the table's end took 950 instructions a step, with one 1,006 (docs/requests/x.md).
fn posted_with(rows: &[u64], row: usize, key: u64) -> bool
    ensures { result ≡ posted_with rows.now key row }
{
    posted_key_at(rows, row) == key && posted_at(rows, row) != 0
}

// The same of a row that stands whole in the table.
#[tactic(auto, unfolding(table::specs::Words::field))]
fn whole_posted_with(rows: &[u64], row: usize, key: u64) -> bool
    requires { row_words * (row + 1) ≤ length rows.now }
    ensures { result ≡ posted_with rows.now key row }
{
    rows[ROW_WORDS * row + POSTED_KEY] == key && rows[ROW_WORDS * row + POSTED] != 0
}

// The same where so many rows stand whole in the table: of these no word is looked for past its end.
fn quick_posted_with(rows: &[u64], whole: usize, row: usize, key: u64) -> bool
    requires { row_words * whole ≤ length rows.now }
    ensures { result ≡ posted_with rows.now key row }
{
    if row < whole {
        whole_posted_with(rows, row, key)
    } else {
        posted_with(rows, row, key)
    }
}

// A row's link, in the same way.
#[tactic(auto, unfolding(table::specs::Words::field))]
fn quick_later(rows: &[u64], whole: usize, row: usize) -> u64
    requires { row_words * whole ≤ length rows.now }
    ensures { result ≡ later_of rows.now row }
{
    if row < whole {
        rows[ROW_WORDS * row + LATER]
    } else {
        later_at(rows, row)
    }
}

// A row is kept behind the n kept before it where it is posted.
fn keep_one(posted: bool, lists: &mut [u64], slot: u32, n: u32, row: usize) -> u32
    requires { n < 4294967295 }
    ensures { record { n = result; lists = lists.new }
        ≡ keep_all slot (cond posted (row ∷ []) []) (record { n = n; lists = lists.old }) }
{
    if posted {
        put_candidate(lists, slot, n, row as u64);
        n + 1
    } else {
        n
    }
}

// Keeps the rows in the key's list that are posted with the key, and tells how many they are.
// A link that does not lead on to a row of the store ends the list.
// Stays a `while`: it goes from a row to the row that its link names, and counts no index; an iterator of the links would need the same test in its `next`.
pub fn keep_posted(rows: &[u64], lists: &mut [u64], slot: u32, row_count: u64, key: u64) -> u32
    ensures { (result ≡ length (listed_with rows.now row_count key))
        × (lists.new ≡ kept_in lists.old slot (listed_with rows.now row_count key)) }
{
    let whole = rows.len() / ROW_WORDS;
    let most = row_count.min(MOST_ROWS as u64);
    let mut link = first_at(rows, list_for(row_count, key) as usize);
    let mut place: u64 = 0;
    let mut n: u32 = 0;
    while place < link && link <= most {
        let row = (link - 1) as usize;
        n = keep_one(
            quick_posted_with(rows, whole, row, key),
            lists,
            slot,
            n,
            row,
        );
        place = link;
        link = quick_later(rows, whole, row);
    }
    n
}

// The link behind a place of a list.
// Stays 0 for none, as place and as link: `link_at` promises the words `first` and `later` as they stand, and in both 0 names no row.
pub fn link_at(rows: &[u64], list: u64, place: u64) -> u64
    ensures { result ≡ link_at rows.now list place }
{
    if place == 0 {
        first_at(rows, list as usize)
    } else {
        later_at(rows, (place - 1) as usize)
    }
}

fn set_link(rows: &mut [u64], list: u64, place: u64, link: u64)
    ensures { rows.new ≡ set_link rows.old list place link }
{
    if place == 0 {
        set_first(rows, list as usize, link);
    } else {
        set_later(rows, (place - 1) as usize, link);
    }
}

// The place in a list that a row stands behind, or would.
// Stays a `while`, as keep_posted does.
fn place_before(rows: &[u64], list: u64, row: u64) -> u64
    ensures { result ≡ place_before rows.now list row }
{
    let whole = rows.len() / ROW_WORDS;
    let mut place: u64 = 0;
    let mut link = first_at(rows, list as usize);
    while place < link && link <= row {
        place = link;
        link = quick_later(rows, whole, (link - 1) as usize);
    }
    place
}

// The row goes out of a list.
#[tactic(auto, unfolding(crate::specs::Links::unlinked))]
fn unlink(rows: &mut [u64], list: u64, row: u64)
    ensures { rows.new ≡ unlinked rows.old list row }
{
    let place = place_before(rows, list, row);
    let link = later_at(rows, row as usize);
    set_link(rows, list, place, link);
}

// The row goes into a list.
#[tactic(auto, unfolding(crate::specs::Links::linked))]
fn link(rows: &mut [u64], list: u64, row: u64)
    requires { row < last_number }
    ensures { rows.new ≡ linked rows.old list row }
{
    let place = place_before(rows, list, row);
    let behind = link_at(rows, list, place);
    set_later(rows, row as usize, behind);
    set_link(rows, list, place, row + 1);
}

// Whether a row was posted and is, in one list.
// Stays two numbers, keyed and key, here and below: `repost` promises them so, and `txn_needs::Key`, which has both, lies above.
fn stays_listed(rows: &[u64], row_count: u64, row: u64, keyed: u64, key: u64) -> bool
    ensures { result ≡ stays_listed rows.now row_count row keyed key }
{
    if posted_at(rows, row as usize) == 0 || keyed == 0 {
        return false;
    }
    let old = posted_key_at(rows, row as usize);
    old == key || list_for(row_count, old) == list_for(row_count, key)
}

// Out of the list of the old key, where the row is posted.
fn take_out(rows: &mut [u64], row_count: u64, row: u64)
    ensures { rows.new ≡ taken_out rows.old row_count row }
{
    if posted_at(rows, row as usize) != 0 {
        let list = list_for(row_count, posted_key_at(rows, row as usize));
        unlink(rows, list, row);
    }
}

// Into the list of the new key, where there is a key.
fn put_in(rows: &mut [u64], row_count: u64, row: u64, keyed: u64, key: u64)
    requires { row < last_number }
    ensures { rows.new ≡ put_in rows.old row_count row keyed key }
{
    if keyed != 0 {
        link(rows, list_for(row_count, key), row);
    }
}

// The posting of a row, which keyed 0 takes away; its list stays as it is.
// Stays no Option of a key: whatever word says that the pending write has a key, `posted_to` stores it as it is, and an Option has not that word.
fn set_posting(rows: &mut [u64], row: u64, keyed: u64, key: u64)
    ensures { rows.new ≡ posted_to rows.old row keyed key }
{
    set_posted(rows, row as usize, keyed);
    set_posted_key(rows, row as usize, key);
}

// The posting of a row follows its new key, and the row goes from the list of the old one to that of the new one.
#[tactic(auto, unfolding(crate::specs::Links::reposted))]
pub fn repost(rows: &mut [u64], row_count: u64, row: u64, keyed: u64, key: u64)
    ensures { rows.new ≡ reposted rows.old row_count row keyed key }
{
    if row >= rows.len() as u64 {
        return;
    }
    if stays_listed(rows, row_count, row, keyed, key) {
        set_posting(rows, row, keyed, key);
        return;
    }
    take_out(rows, row_count, row);
    set_posting(rows, row, keyed, key);
    put_in(rows, row_count, row, keyed, key);
}
