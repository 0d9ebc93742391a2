// The verdict on a transaction: the mark, the first index read whose bucket changed, the first read record that changed.
#![tactic(auto)]

ghost use Rattle.std.specs.Prelude.{◌≡◌};
ghost use Rattle.txn.specs.View.{read_view};
ghost use Rattle.model.specs.Verdict.{bad_read};
ghost use Rattle.write_verdict.specs.Judged.{stamps_view, changed_read, changed_record, bucket_told, row_told};
ghost use Rattle.write_verdict.specs.Judged.{ended_by, outright, looked_for, verdict_of};

use base_limits::MOST_ACTIVE;
use base_protocol::Verdict;
use table::lists::{IndexRead, ReadRecord, read_at, record_at};
use table::{stamp_at, xmax_at, xmin_at};
use table_buckets::stamp_precedes_snapshot;
use table_chain::Snapshot;
use table_scans::least_of;
use txn::Transaction;

// Whether an index read's bucket has changed: its present stamp differs, or is not below the number.
#[tactic(auto, unfolding(model::specs::Verdict::bad_read))]
fn read_changed(buckets: &[u64], read: IndexRead, number: u64) -> bool
    ensures { result ≡ bad_read (stamps_view buckets.now) number (read_view read) }
{
    let present = stamp_at(buckets, read.bucket as usize);
    present != read.stamp || !stamp_precedes_snapshot(present, number)
}

// The place of the first index read whose bucket has changed, or none.
fn index_read_conflict(buckets: &[u64], lists: &[u64], t: Transaction) -> Option<u32>
    ensures { result ≡ changed_read buckets.now lists.now t }
{
    (0..t.reads_n).find(|i| read_changed(buckets, read_at(lists, t.slot, *i), t.number))
}

// The number that ended a version; 0 where none did, or the own number.
// Stays 0 for none: `ended_by` promises it, and a version's word itself has 0 where none ended it.
fn ended_by(versions: &[u64], ptr: u64, number: u64) -> u64
    ensures { result ≡ ended_by versions.now ptr number }
{
    let xmax = xmax_at(versions, ptr as usize);
    if xmax == number { 0 } else { xmax }
}

// Whether a read record has changed whatever is active: another xmin, or ended at or above the snapshot's xmax.
fn changed_outright(versions: &[u64], read: ReadRecord, ended: u64, xmax: u64) -> bool
    ensures { result ≡ outright versions.now read ended xmax }
{
    xmin_at(versions, read.ptr as usize) != read.xmin || ended != 0 && xmax <= ended
}

// How many of the active numbers are looked at: none where no other number ended the version, or where that number is below them all.
fn looked_for(ended: u64, s: &Snapshot) -> usize
    ensures { result ≡ looked_for ended s.now }
{
    if ended == 0 || ended < least_of(s.xmin, s.active, s.active_n) {
        0
    } else {
        s.active_n.min(MOST_ACTIVE)
    }
}

// The place of the first read record that has changed, or none. A record has changed outright, or where one of the active numbers ended its version.
// Stays a scan in a scan, left by a label: a rule of the project, the form that document 01 names (docs/DECISIONS.md).
#[tactic(auto, using(crate::proofs::Laws::active_here, crate::proofs::Laws::active_past, crate::proofs::Laws::active_end))]
pub fn has_serialization_conflict(versions: &[u64], lists: &[u64], t: Transaction) -> Option<u32>
    ensures { result ≡ changed_record versions.now lists.now t }
{
    let s = &t.snapshot;
    let mut changed = None;
    'records: for i in 0..t.records_n {
        let read = record_at(lists, t.slot, i);
        let ended = ended_by(versions, read.ptr, t.number);
        if changed_outright(versions, read, ended, s.xmax) {
            changed = Some(i);
            break 'records;
        }
        for number in &s.active[..looked_for(ended, s)] {
            if *number == ended {
                changed = Some(i);
                break 'records;
            }
        }
    }
    changed
}

// The verdict on a bucket, where index read i has changed.
fn bucket_verdict(buckets: &[u64], lists: &[u64], slot: u32, i: u32) -> Verdict
    ensures { result ≡ bucket_told buckets.now lists.now slot i }
{
    let read = read_at(lists, slot, i);
    Verdict::Bucket {
        bucket: read.bucket,
        captured: read.stamp,
        present: stamp_at(buckets, read.bucket as usize),
    }
}

// The verdict on the rows: the first read record that has changed, if there is one.
fn row_verdict(versions: &[u64], lists: &[u64], t: Transaction) -> Verdict
    ensures { result ≡ row_told lists.now t.slot (changed_record versions.now lists.now t) }
{
    match has_serialization_conflict(versions, lists, t) {
        Some(i) => {
            let ReadRecord { row, ptr, .. } = record_at(lists, t.slot, i);
            Verdict::Row { row, ptr }
        }
        None => Verdict::Clear,
    }
}

// The verdict, which changes nothing.
// Stays with the lent tables one by one: the C interface lends them and the definitions over words take them so (docs/DECISIONS.md, 69).
pub fn verdict(versions: &[u64], buckets: &[u64], lists: &[u64], t: Transaction) -> Verdict
    ensures { result ≡ verdict_of versions.now buckets.now lists.now t }
{
    if t.marked {
        return Verdict::Mark;
    }
    match index_read_conflict(buckets, lists, t) {
        Some(i) => bucket_verdict(buckets, lists, t.slot, i),
        None => row_verdict(versions, lists, t),
    }
}
