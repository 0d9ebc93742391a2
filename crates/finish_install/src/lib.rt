// Install: for each distinct pending row that gets a version, ascending, one from its last write.
#![tactic(auto)]

ghost use Rattle.std.specs.Prelude.{◌≡◌};
ghost use Rattle.finish_install.specs.Install.{last_write_of, version_stored, pushed_row, pushed_rows, install_of};

use base_numbers::one_more;
use base_protocol::{Answer, Refusal};
use table::lists::{Write, write_at};
use table::{head_at, set_head, set_key, set_keyed, set_next, set_payload, set_xmax, set_xmin};
use table_scans::latest_pending;
use txn::{Phase, Transaction};
use txn_needs::versions::{MOST_PENDING, version_rows};

// What install leaves beside the tables.
#[derive(Clone, Copy)]
pub struct Installed {
    pub answer: Answer,
    pub txn: Transaction,
    pub used: u64,
}

// The last pending write of a row; an erase where it has none.
#[tactic(auto, unfolding(crate::specs::Install::last_write_of))]
fn last_write(lists: &[u64], slot: u32, count: u32, row: u64) -> Write
    ensures { result ≡ last_write_of lists.now slot count row }
{
    match latest_pending(lists, slot, count, row) {
        Some(i) => write_at(lists, slot, i),
        None => Write {
            row,
            keyed: 0,
            key: 0,
            payload: 0,
        },
    }
}

// A new version at pointer p, not ended.
#[tactic(auto, unfolding(crate::specs::Install::version_stored))]
fn store_version(versions: &mut [u64], p: usize, xmin: u64, next: u64, w: Write)
    ensures { versions.new ≡ version_stored versions.old p xmin next w }
{
    set_xmin(versions, p, xmin);
    set_xmax(versions, p, 0);
    set_next(versions, p, next);
    set_keyed(versions, p, w.keyed);
    set_key(versions, p, w.key);
    set_payload(versions, p, w.payload);
}

// One row gets a new version before its old head, which ends; tells the last used pointer.
// Stays with the lent tables one by one, here and below: the C interface lends them and the definitions over words take them so (docs/DECISIONS.md, 69).
#[tactic(auto, unfolding(crate::specs::Install::pushed_row))]
fn push_row(
    rows: &mut [u64],
    versions: &mut [u64],
    lists: &[u64],
    t: Transaction,
    row: u64,
    used: u64,
) -> u64
    ensures { record { rows = rows.exit.now; versions = versions.new; used = result }
        ≡ pushed_row (record { rows = rows.entry.now; versions = versions.old; used = used }) lists.now t row }
{
    let p = one_more(used);
    let head = head_at(rows, row as usize);
    let w = last_write(lists, t.slot, t.writes_n, row);
    store_version(versions, p as usize, t.number, head, w);
    set_xmax(versions, head as usize, t.number);
    set_head(rows, row as usize, p);
    p
}

// The same for each row of a list.
fn push_all_rows(
    rows: &mut [u64],
    versions: &mut [u64],
    lists: &[u64],
    t: Transaction,
    list: &[u64],
    used: u64,
) -> u64
    ensures { record { rows = rows.exit.now; versions = versions.new; used = result }
        ≡ pushed_rows (record { rows = rows.entry.now; versions = versions.old; used = used }) lists.now t list.now }
{
    let mut last = used;
    for row in list {
        last = push_row(rows, versions, lists, t, *row, last);
    }
    last
}

// Install (Prepared): becomes Installed.
#[tactic(auto, unfolding(crate::specs::Install::install_of, crate::specs::Install::to_install))]
pub fn install(
    rows: &mut [u64],
    versions: &mut [u64],
    lists: &[u64],
    used: u64,
    t: Transaction,
) -> Installed
    ensures { record { reply = result; rows = rows.exit.now; versions = versions.new }
        ≡ install_of (record { rows = rows.entry.now; versions = versions.old; used = used }) lists.now t }
{
    if t.phase != Phase::Prepared {
        return Installed {
            answer: Answer::Refused(Refusal::WrongPhase),
            txn: t,
            used,
        };
    }
    let mut list = [0; MOST_PENDING];
    let n = version_rows(rows, versions, lists, t.slot, t.writes_n, &mut list);
    let last = push_all_rows(rows, versions, lists, t, &list[..n.min(MOST_PENDING)], used);
    Installed {
        answer: Answer::Done,
        txn: t.with_phase(Phase::Installed),
        used: last,
    }
}
