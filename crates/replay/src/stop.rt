// How a replay stops: with a last line, or with 10 where that line did not fit.
ghost use Rattle.std.specs.Prelude.{◌≡◌};
ghost use Rattle.replay.specs.Stops.{stop_after, malformed_at, unopened_at};

use base_protocol::Refusal;
use report::{bad_line, open_line};

// How a replay stops: its status, and how many bytes of the report it wrote.
// Stays a number: `stop_after`, `malformed_at` and the theorems of tightness/ReplayStop speak of any status, and C reads it.
#[derive(Clone, Copy)]
pub struct Stopped {
    pub status: u64,
    pub wrote: usize,
}

// How a replay stops after a last line: with this status, or with 10 where the line did not fit.
pub fn stop_after(line: Option<usize>, status: u64, at: usize) -> Stopped
    ensures { result ≡ stop_after line status at }
{
    match line {
        Some(wrote) => Stopped { status, wrote },
        None => Stopped {
            status: u64::from(Refusal::NoRoom),
            wrote: at,
        },
    }
}

// `bad 15`, and stop.
pub fn stop_malformed(report: &mut [u8], at: usize) -> Stopped
    ensures { record { stopped = result; report = report.new } ≡ malformed_at report.old at }
{
    let line = bad_line(report, at);
    stop_after(line, u64::from(Refusal::Malformed), at)
}

// The line of a refused open, and stop.
pub fn stop_unopened(report: &mut [u8], why: u64) -> Stopped
    ensures { record { stopped = result; report = report.new } ≡ unopened_at report.old why }
{
    let line = open_line(report, 0, why);
    stop_after(line, why, 0)
}
