// End, publish and abort: a transaction's last steps.
#![tactic(auto)]

ghost use Rattle.std.specs.Prelude.{◌≡◌};
ghost use Rattle.txn_needs.specs.Listing.{listed_of};
ghost use Rattle.txn_needs.specs.Needs.{push_all, written_by};
ghost use Rattle.finish_publish.specs.Publish.{end_of, posted_one, posted_all, stamped_in, needed_in, publish_of, abort_of};

use base_limits::{MOST_INDEX_READS, MOST_WRITES};
use base_protocol::{Answer, Extent, Refusal};
use table::lists::write_row_at;
use table::set_stamps;
use table_postings::repost;
use txn::{Answered, Phase, Transaction, bucket_in, idle, refused};
use txn_needs::{Listing, new_key, release_all, unclaim_all};

// Words for the buckets of all index reads and of the old and the new keys of all pending writes, and for the one that Holding carries.
pub const MOST_HELD: usize = (MOST_INDEX_READS + MOST_WRITES + MOST_WRITES + 1) as usize;

// End (Installed): the number stops being active.
#[tactic(auto, unfolding(crate::specs::Publish::end_of))]
pub fn end(t: Transaction) -> Answered
    ensures { result ≡ end_of t }
{
    if t.phase != Phase::Installed {
        return refused(t, Refusal::WrongPhase);
    }
    Answered {
        answer: Answer::Done,
        txn: t.with_phase(Phase::Ended),
    }
}

// The posting of one row follows its new key, and the row goes to the list of that key.
#[tactic(auto, unfolding(crate::specs::Publish::posted_one))]
fn post(rows: &mut [u64], lists: &[u64], row_count: u64, t: Transaction, row: u64)
    ensures { rows.new ≡ posted_one rows.old lists.now row_count t row }
{
    let key = new_key(lists, t.slot, t.writes_n, row);
    repost(rows, row_count, row, key.keyed, key.key);
}

// Postings and their lists follow the new keys.
fn post_all(rows: &mut [u64], lists: &[u64], row_count: u64, t: Transaction)
    ensures { rows.new ≡ posted_all rows.old lists.now row_count t (written_by lists.now t) }
{
    for i in 0..t.writes_n {
        post(rows, lists, row_count, t, write_row_at(lists, t.slot, i));
    }
}

// Only where a version was made and old and new key differ do both their buckets get the clock as their stamp.
// Stays with the lent tables one by one, here and below: the C interface lends them and the definitions over words take them so (docs/DECISIONS.md, 69).
#[tactic(auto, unfolding(crate::specs::Publish::stamped_in))]
fn stamp_changes(
    rows: &[u64],
    versions: &[u64],
    buckets: &mut [u64],
    lists: &[u64],
    extent: Extent,
    t: Transaction,
)
    ensures { buckets.new
        ≡ stamped_in rows.now versions.now buckets.old lists.now extent t }
{
    let mut words = [0; MOST_HELD];
    let mut changed = Listing::new(&mut words);
    changed.push_changes(rows, versions, lists, extent.sizes.buckets, t);
    set_stamps(buckets, changed.as_slice(), extent.clock);
}

// What the transaction needs of the buckets: the one that Holding carries, the index reads', the old and the new keys'.
fn push_held(
    rows: &[u64],
    versions: &[u64],
    lists: &[u64],
    bucket_count: u64,
    t: Transaction,
    held: &mut Listing,
)
    ensures same_words { held.new.out.ghost_name ≡ held.old.out.ghost_name }
    ensures listed { listed_of held.new
        ≡ push_all (listed_of held.old) (needed_in rows.now versions.now lists.now bucket_count t) }
{
    held.push(bucket_in(t.phase));
    held.push_reads(lists, t);
    held.push_writes(rows, versions, lists, bucket_count, t);
}

// Publish (Ended): the stamp is the clock; buckets and claims are freed, the record ends.
// Stays with the lines that `abort` has too: with a function between, a step took 9 percent more instructions (docs/DECISIONS.md, 69).
#[tactic(auto, unfolding(crate::specs::Publish::publish_of, crate::specs::Publish::freed_in))]
pub fn publish(
    rows: &mut [u64],
    versions: &[u64],
    buckets: &mut [u64],
    lists: &[u64],
    extent: Extent,
    t: Transaction,
) -> Answered
    ensures { record { reply = result; rows = rows.new; buckets = buckets.new }
        ≡ publish_of rows.old versions.now buckets.old lists.now extent t }
{
    if t.phase != Phase::Ended {
        return refused(t, Refusal::WrongPhase);
    }
    stamp_changes(rows, versions, buckets, lists, extent, t);
    let mut words = [0; MOST_HELD];
    let mut held = Listing::new(&mut words);
    push_held(rows, versions, lists, extent.sizes.buckets, t, &mut held);
    release_all(buckets, held.as_slice(), t.number);
    post_all(rows, lists, extent.sizes.rows, t);
    unclaim_all(rows, lists, t);
    Answered {
        answer: Answer::Stamp(extent.clock),
        txn: idle(t.slot),
    }
}

// Abort (Open, Holding, Collected, Prepared): buckets and claims are freed, the record ends.
// Stays with the phases named here: `txn_needs::is_installed` is private there, and a call of it is no plainer than the two.
#[tactic(auto, unfolding(crate::specs::Publish::abort_of, crate::specs::Publish::freed_in))]
pub fn abort(
    rows: &mut [u64],
    versions: &[u64],
    buckets: &mut [u64],
    lists: &[u64],
    bucket_count: u64,
    t: Transaction,
) -> Answered
    ensures { record { reply = result; rows = rows.new; buckets = buckets.new }
        ≡ abort_of rows.old versions.now buckets.old lists.now bucket_count t }
{
    if matches!(t.phase, Phase::Installed | Phase::Ended) {
        return refused(t, Refusal::WrongPhase);
    }
    let mut words = [0; MOST_HELD];
    let mut held = Listing::new(&mut words);
    push_held(rows, versions, lists, bucket_count, t, &mut held);
    release_all(buckets, held.as_slice(), t.number);
    unclaim_all(rows, lists, t);
    Answered {
        answer: Answer::Done,
        txn: idle(t.slot),
    }
}
