// The two functions of `replay` for C: the static library that stands in the archives under the name libtoruxeng.a.
#![tactic(auto)]

ghost use Rattle.std.specs.Prelude.{◌≡◌, length};
ghost use Rattle.model.specs.Replay.{replay, packed, reported};
ghost use Rattle.replay.specs.Lent.{lent_of};

// Replays a log into a report, over lent tables, whatever stands in them: status × 4,294,967,296 + bytes written.
// Stays with the tables one by one: this is the C interface.
#[unsafe(no_mangle)]
pub extern "C" fn toruxeng_replay_lent(
    log: &[u8],
    report: &mut [u8],
    rows: &mut [u64],
    versions: &mut [u64],
    buckets: &mut [u64],
    lists: &mut [u64],
) -> u64
    ensures { record {
      answer = result;
      report = report.new;
      tables = record { rows = rows.exit.now; versions = versions.new; buckets = buckets.new; lists = lists.new };
    }
        ≡ lent_of log.now report.old
        (record { rows = rows.entry.now; versions = versions.old; buckets = buckets.old; lists = lists.old }) }
{
    replay::toruxeng_replay_lent(log, report, rows, versions, buckets, lists)
}

// The same over tables of its own, of the greatest size.
#[unsafe(no_mangle)]
pub extern "C" fn toruxeng_replay(log: &[u8], report: &mut [u8]) -> u64
    ensures { (result ≡ packed (replay log.now (length report.old)))
        × (report.new ≡ reported (replay log.now (length report.old)) report.old) }
{
    replay::toruxeng_replay(log, report)
}
