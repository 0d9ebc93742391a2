// Validate and prepare: the verdict once nobody else has what the transaction needs; then it takes it all.
#![tactic(auto)]

ghost use Rattle.std.specs.Prelude.{◌≡◌};
ghost use Rattle.txn_needs.specs.Listing.{listed_of};
ghost use Rattle.txn_needs.specs.Needs.{push_all};
ghost use Rattle.write_prepare.specs.Prepare.{reads_taken_in, validate_of, is_clear, lacks, needs, prepare_of};

use base_limits::{MOST_INDEX_READS, MOST_LIVE, MOST_WRITES};
use base_numbers::sum_within;
use base_protocol::{Answer, Extent, Refusal, Verdict};
use table::lists::read_bucket_at;
use table::{holder_at, set_holders};
use txn::{Answered, Phase, Transaction, by_another, refused};
use txn_needs::versions::{count_versions, reserved};
use txn_needs::{Listing, any_claimed, any_taken, claim_all};
use write_verdict::verdict;

// Words for the buckets of all index reads and of the old and the new keys of all pending writes.
pub const MOST_NEEDED: usize = (MOST_INDEX_READS + MOST_WRITES + MOST_WRITES) as usize;

// Whether a bucket of an index read is held by another.
fn reads_taken(buckets: &[u64], lists: &[u64], t: Transaction) -> bool
    ensures { result ≡ reads_taken_in buckets.now lists.now t }
{
    let most = t.reads_n.min(MOST_NEEDED as u32);
    (0..most).any(|i| {
        by_another(
            holder_at(buckets, read_bucket_at(lists, t.slot, i) as usize),
            t.number,
        )
    })
}

// Validate (Open): the verdict; changes nothing.
// Stays with the lent tables one by one, here and below: the C interface lends them and the definitions over words take them so (docs/DECISIONS.md, 69).
#[tactic(auto, unfolding(crate::specs::Prepare::validate_of))]
pub fn validate(versions: &[u64], buckets: &[u64], lists: &[u64], t: Transaction) -> Answered
    ensures { result ≡ validate_of versions.now buckets.now lists.now t }
{
    if t.phase != Phase::Open {
        return refused(t, Refusal::WrongPhase);
    }
    if reads_taken(buckets, lists, t) {
        return refused(t, Refusal::Taken);
    }
    Answered {
        answer: Answer::Judged(verdict(versions, buckets, lists, t)),
        txn: t,
    }
}

// Whether a verdict is that there is no conflict.
fn is_clear(v: Verdict) -> bool
    ensures { result ≡ is_clear v }
{
    matches!(v, Verdict::Clear)
}

// Whether there are too few versions: used, reserved by others, and the own rows that get one are above the limit.
#[tactic(auto, unfolding(crate::specs::Prepare::lacks))]
fn no_versions(
    rows: &[u64],
    versions: &[u64],
    lists: &[u64],
    extent: Extent,
    prepared: [u32; MOST_LIVE],
    t: Transaction,
) -> bool
    ensures { result ≡ lacks rows.now versions.now lists.now extent prepared t }
{
    let others = reserved(rows, versions, lists, prepared);
    let own = count_versions(rows, versions, lists, t.slot, t.writes_n);
    !sum_within(extent.used, others + own, extent.sizes.versions)
}

// The buckets that prepare needs: of the index reads, and of the old and the new key of every pending row.
fn push_needed(
    rows: &[u64],
    versions: &[u64],
    lists: &[u64],
    bucket_count: u64,
    t: Transaction,
    needed: &mut Listing,
)
    ensures same_words { needed.new.out.ghost_name ≡ needed.old.out.ghost_name }
    ensures listed { listed_of needed.new
        ≡ push_all (listed_of needed.old) (needs rows.now versions.now lists.now bucket_count t) }
{
    needed.push_reads(lists, t);
    needed.push_writes(rows, versions, lists, bucket_count, t);
}

// Prepare (Open): takes every bucket it needs and claims every pending row.
#[tactic(auto, unfolding(crate::specs::Prepare::prepare_of, crate::specs::Prepare::prepare_with, crate::specs::Prepare::needed_into))]
pub fn prepare(
    rows: &mut [u64],
    versions: &[u64],
    buckets: &mut [u64],
    lists: &[u64],
    extent: Extent,
    prepared: [u32; MOST_LIVE],
    t: Transaction,
) -> Answered
    ensures { record { reply = result; rows = rows.new; buckets = buckets.new }
        ≡ prepare_of rows.old versions.now buckets.old lists.now extent prepared t }
{
    if t.phase != Phase::Open {
        return refused(t, Refusal::WrongPhase);
    }
    let mut words = [0; MOST_NEEDED];
    let mut needed = Listing::new(&mut words);
    push_needed(rows, versions, lists, extent.sizes.buckets, t, &mut needed);
    if any_taken(buckets, needed.as_slice(), t.number) {
        return refused(t, Refusal::Taken);
    }
    if any_claimed(rows, lists, t) {
        return refused(t, Refusal::Taken);
    }
    if !is_clear(verdict(versions, buckets, lists, t)) {
        return refused(t, Refusal::Conflict);
    }
    if no_versions(rows, versions, lists, extent, prepared, t) {
        return refused(t, Refusal::NoVersions);
    }
    set_holders(buckets, needed.as_slice(), t.number);
    claim_all(rows, lists, t);
    Answered {
        answer: Answer::Done,
        txn: t.with_phase(Phase::Prepared),
    }
}
