// Replays the log on standard input: the report goes to standard output, and a status other than 0 is named on standard error.
#![tactic(auto)]

use replay::{HALF, toruxeng_replay};
use std::io;
use std::io::{Read, Write};

// A log must be shorter than this, and a report may be as long.
const MOST_LOG: usize = 262144;

const MOST_REPORT: usize = 1048576;

// Says a status in words.
// Stays a number: this is what the C function answers.
fn name_status(rt: &impl Eprint, status: u64) -> io::Result<()> {
    match status {
        0 => Ok(()),
        1 => eprintln!(rt;
            "replay_log: stopped with 1: the open asks for a size outside its range or for clock 0"
        ),
        10 => eprintln!(rt;
            "replay_log: stopped with 10: the next line does not fit into 1,048,576 bytes of report"
        ),
        _ => eprintln!(rt; "replay_log: stopped with 15: the log is malformed"),
    }
}

// Reads the log into its place, replays it into the report, and writes what it says.
fn replay_input(
    rt: &(impl Input + Print + Eprint),
    log: &mut Vec<u8>,
    report: &mut [u8],
) -> io::Result<()> {
    let n = rt.reader().take(MOST_LOG as u64).read_to_end(log)?;
    if n == MOST_LOG {
        return eprintln!(rt;
            "replay_log: a log of 262,144 bytes or more is too large for this program"
        );
    }
    let answer = toruxeng_replay(log.as_slice(), report);
    let Some(said) = report.get(..(answer % HALF) as usize) else {
        return Ok(());
    };
    if io::writer(rt).write_all(said).is_err() {
        eprintln!(rt; "replay_log: the report could not be written")?;
    }
    name_status(rt, answer / HALF)
}

fn main(rt: HostRuntime) -> io::Result<()> {
    let alloc = rt.alloc();
    let mut log = Vec::new(alloc);
    let mut report = vec![in alloc; 0u8; MOST_REPORT]?;
    replay_input(&rt, &mut log, report.as_mut_slice())
}
