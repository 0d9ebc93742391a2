// A log replayed into a report, over tables of its own or lent ones: the functions that a host calls.
#![tactic(auto)]

ghost use Rattle.std.specs.Prelude.{◌≡◌, ◌≤◌, min, length};
ghost use Rattle.step.specs.Steps.{Tables};
ghost use Rattle.model.specs.Replay.{replay, packed, reported, most_room};
ghost use Rattle.replay.specs.Replay.{Leaves, ended_as, opened_from};
ghost use Rattle.replay.specs.Lent.{Opens, fresh_in, words_from, replayed_in, lent_left, lent_of};

use base_limits::{MOST_BUCKETS, MOST_LIVE, MOST_ROWS, MOST_VERSIONS};
use base_protocol::{Answer, Extent, Refusal, Sizes};
use call::open;
use log_records::{Command, Reader};
use report::{answer_line, open_line};
use step::{Beside, keeps, step_keeping, step_placing};
use stop::{Stopped, stop_malformed, stop_unopened};
use table::lists::SLOT_WORDS;
use table::{BUCKET_WORDS, ROW_WORDS, VERSION_WORDS};
use txn::{Parts, Transaction, idle};
use txn_places::{Others, active_number, place_of, prepared_count, wanted};

mod stop; // stop.rt: how a replay stops

// The status stands above this, the bytes written below it.
// Stays packed: this is what the C functions answer.
pub const HALF: u64 = 4294967296;

// A replay behind its open: the sizes and the clock that it was opened with, where its next record stands, the bytes of its report so far.
#[derive(Clone, Copy)]
struct Opened {
    sizes: Sizes,
    clock: u64,
    at: usize,
    wrote: usize,
}

// The records after the open, each with its line: how many bytes of the report are written behind the last one, or how the replay stopped.
// Stays with the lent tables one by one: the functions for C are lent them so, and the definitions over words name each.
#[tactic(auto, using(crate::proofs::Turning::place_small))]
fn replay_steps(
    log: &[u8],
    report: &mut [u8],
    rows: &mut [u64],
    versions: &mut [u64],
    buckets: &mut [u64],
    lists: &mut [u64],
    found: &mut [u64],
    opened: Opened,
) -> Result<usize, Stopped>
    requires { Opens (record { rows = rows.now; versions = versions.old; buckets = buckets.old; lists = lists.old; found = found.old })
        opened.sizes opened.clock
        × (opened.wrote ≤ min (length report.old) most_room) }
    ensures { Leaves (ended_as result) report.new (opened_from log.now report.old opened) report.old
        × (◌≡◌ {A = Tables}
        (record {
          rows = rows.exit.now;
          versions = versions.new;
          buckets = buckets.new;
          lists = lists.new;
          found = found.new;
        })
        (words_from (min (length report.old) most_room) log.now opened.at opened.wrote
        (fresh_in
        (record {
          rows = rows.entry.now;
          versions = versions.old;
          buckets = buckets.old;
          lists = lists.old;
          found = found.old;
        })
        opened.sizes opened.clock)
        ).tables) }
{
    let sizes = opened.sizes;
    let Parts { snapshot, rest, .. } = Parts::from(idle(0));
    // Stays arrays beside each other: so a step stores what it changes alone, a snapshot at begin, publish and abort (docs/DECISIONS.md, 72).
    let mut snapshots = [snapshot; MOST_LIVE];
    let mut rests = [rest; MOST_LIVE];
    let mut others = Others {
        numbers: [0u64; MOST_LIVE],
        active: [0u64; MOST_LIVE],
        prepared: [0u32; MOST_LIVE],
    };
    let mut extent = Extent {
        sizes,
        clock: opened.clock,
        used: 0,
    };
    let mut wrote = opened.wrote;
    let mut reader = Reader::new(log, opened.at);
    // Stays a `while`: no index is counted, the reader moves to where its record ends, and a malformed one ends the replay.
    while reader.at < log.len() {
        let Ok(Command::Ask(s)) = reader.next() else {
            return Err(stop_malformed(report, wrote));
        };
        let k = place_of(&others.numbers, wanted(s));
        // Stays made in each arm: made once before them, what stands beside takes 27 instructions a step more (docs/DECISIONS.md, 72),
        // and with them the 580 that docs/requests/x.md allows are passed.
        let answer = if keeps(s) {
            let beside = Beside { extent, others };
            let parts = Parts {
                number: others.numbers[k],
                snapshot: snapshots[k],
                rest: rests[k],
                slot: k as u32,
            };
            let kept = step_keeping(rows, versions, buckets, lists, found, beside, parts, s);
            extent.used = kept.used;
            rests[k] = kept.rest;
            kept.answer
        } else {
            let beside = Beside { extent, others };
            let parts = Parts {
                number: others.numbers[k],
                snapshot: snapshots[k],
                rest: rests[k],
                slot: k as u32,
            };
            let u = step_placing(
                rows,
                versions,
                buckets,
                lists,
                beside,
                Transaction::from(parts),
                s,
            );
            extent.clock = u.clock;
            extent.used = u.used;
            let Parts {
                number,
                snapshot,
                rest,
                ..
            } = Parts::from(u.txn);
            rests[k] = rest;
            snapshots[k] = snapshot;
            others.numbers[k] = number;
            u.answer
        };
        let number = others.numbers[k];
        let rest = rests[k];
        others.active[k] = active_number(number, rest.rank);
        others.prepared[k] = prepared_count(number, rest.rank, rest.writes_n);
        let Some(end) = answer_line(report, wrote, s, answer, found) else {
            return Err(Stopped {
                status: u64::from(Refusal::NoRoom),
                wrote,
            });
        };
        wrote = end;
    }
    Ok(wrote)
}

// The first record, which must be an open that the lent tables are long enough for, and then the others.
fn replay_open(
    log: &[u8],
    report: &mut [u8],
    rows: &mut [u64],
    versions: &mut [u64],
    buckets: &mut [u64],
    lists: &mut [u64],
) -> Result<usize, Stopped>
    ensures { Leaves (ended_as result) report.new
        (replayed_in log.now report.old
        (record { rows = rows.entry.now; versions = versions.old; buckets = buckets.old; lists = lists.old }))
        report.old
        × (record { rows = rows.exit.now; versions = versions.new; buckets = buckets.new; lists = lists.new }
        ≡ lent_left log.now (min (length report.old) most_room)
        (record { rows = rows.entry.now; versions = versions.old; buckets = buckets.old; lists = lists.old })) }
{
    if log.is_empty() {
        return Ok(0);
    }
    let mut reader = Reader::new(log, 0);
    let Ok(Command::Open { sizes, clock }) = reader.next() else {
        return Err(stop_malformed(report, 0));
    };
    let called = open(rows, versions, buckets, lists, sizes, clock);
    if let Answer::Refused(why) = called.answer {
        return Err(stop_unopened(report, u64::from(why)));
    }
    let Some(wrote) = open_line(report, 0, 0) else {
        return Err(Stopped {
            status: u64::from(Refusal::NoRoom),
            wrote: 0,
        });
    };
    let opened = Opened {
        sizes,
        clock,
        at: reader.at,
        wrote,
    };
    let mut found = [0u64; MOST_ROWS];
    replay_steps(
        log, report, rows, versions, buckets, lists, &mut found, opened,
    )
}

// Replays a log into a report, over lent tables, whatever stands in them: status × 4,294,967,296 + bytes written.
pub fn toruxeng_replay_lent(
    log: &[u8],
    report: &mut [u8],
    rows: &mut [u64],
    versions: &mut [u64],
    buckets: &mut [u64],
    lists: &mut [u64],
) -> u64
    ensures { record {
      answer = result;
      report = report.new;
      tables = record { rows = rows.exit.now; versions = versions.new; buckets = buckets.new; lists = lists.new };
    }
        ≡ lent_of log.now report.old
        (record { rows = rows.entry.now; versions = versions.old; buckets = buckets.old; lists = lists.old }) }
{
    match replay_open(log, report, rows, versions, buckets, lists) {
        Ok(wrote) => wrote as u64,
        Err(stopped) => stopped.status * HALF + stopped.wrote as u64,
    }
}

// The same over tables of its own, of the greatest size.
pub fn toruxeng_replay(log: &[u8], report: &mut [u8]) -> u64
    ensures { (result ≡ packed (replay log.now (length report.old)))
        × (report.new ≡ reported (replay log.now (length report.old)) report.old) }
{
    let mut rows = [0u64; ROW_WORDS * MOST_ROWS];
    let mut versions = [0u64; VERSION_WORDS * (MOST_VERSIONS + 1)];
    let mut buckets = [0u64; BUCKET_WORDS * MOST_BUCKETS];
    let mut lists = [0u64; SLOT_WORDS * MOST_LIVE];
    toruxeng_replay_lent(
        log,
        report,
        &mut rows,
        &mut versions,
        &mut buckets,
        &mut lists,
    )
}
