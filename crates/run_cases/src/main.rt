// Replays the vectors of data/, over the replay's own tables and over lent ones, and the worked example of document 01 cut anywhere and into any room, and
// compares every byte.
#![tactic(auto)]

ghost use Rattle.std.specs.Prelude.{◌+◌, ◌≤◌, ◌<◌, ℕ, IfSome, length};

use anyhow::{Context, Result};
use replay::toruxeng_replay;
use std::alloc::Global;
use std::io::Read;
use std::rt::Files;
use std::{fs, io};

mod lent; // lent.rt: the same over lent tables

// The bytes of the file of vectors, at the most.
const MOST_FILE: usize = 524288;

// The lent report, and the byte that fills it before a replay.
const MOST_REPORT: usize = 65536;

const FILL: u8 = 170;

// The status stands above this, the bytes written below it.
// Stays beside `replay::HALF`, and the statuses stay numbers: what this program compares with is not taken from what it tests.
const HALF: u64 = 4294967296;

// The status of a replay that no refusal stopped, and of one that a refusal did.
const ENDED: u64 = 0;

const NO_ROOM: u64 = 10;

const MALFORMED: u64 = 15;

const WRONG_SHAPE: u64 = 16;

// A vector begins with four numbers of four bytes.
const HEAD: usize = 16;

// The bytes from a place on; zeros where they are not all there.
fn bytes_at<const N: usize>(bytes: &[u8], at: usize) -> [u8; N] {
    bytes
        .get(at..)
        .and_then(|rest| rest.first_chunk())
        .copied()
        .unwrap_or([0; N])
}

// The number of the two bytes from a place on, and of the four.
// Stays two functions: each is one call of std's `from_le_bytes`, which no trait of std has for both types, so that one function would write it anew.
fn short_at(bytes: &[u8], at: usize) -> usize
    ensures { result < 65536 }
{
    usize::from(u16::from_le_bytes(bytes_at(bytes, at)))
}

fn long_at(bytes: &[u8], at: usize) -> usize
    ensures { result < 4294967296 }
{
    u32::from_le_bytes(bytes_at(bytes, at)) as usize
}

// A log, and what its replay is to give into this room: the status, and a report that says the first text and then the last.
#[derive(Clone, Copy)]
struct Vector<'a> {
    log: &'a [u8],
    room: usize,
    status: u64,
    first: &'a [u8],
    last: &'a [u8],
}

impl Vector<'_> {
    // Whether an answer has this status, and the report says the first text and then the last, and has nothing written behind them.
    fn is_met(&self, answer: u64, report: &[u8]) -> bool {
        if answer / HALF != self.status {
            return false;
        }
        let Some((said, rest)) = report.split_at_checked((answer % HALF) as usize) else {
            return false;
        };
        said.strip_prefix(self.first) == Some(self.last) && rest.iter().all(|b| *b == FILL)
    }

    // Whether a replay agrees.
    fn agrees(&self) -> bool {
        if self.room > MOST_REPORT {
            return false;
        }
        let mut report = [FILL; MOST_REPORT];
        let answer = toruxeng_replay(self.log, &mut report[..self.room]);
        self.is_met(answer, &report)
    }
}

// The vector at the front of a file, and what is behind it; none where the file ends before it does.
fn first_vector(file: &[u8]) -> Option<(Vector<'_>, &[u8])>
    ensures { IfSome result (λ found. length found.1.now < length file.now) }
{
    let (head, body) = file.split_at_checked(HEAD)?;
    let (log, behind) = body.split_at_checked(long_at(head, 0))?;
    let (report, behind) = behind.split_at_checked(long_at(head, 12))?;
    let vector = Vector {
        log,
        room: long_at(head, 4),
        status: long_at(head, 8) as u64,
        first: report,
        last: b"",
    };
    Some((vector, behind))
}

// How many vectors agree before the first that does not.
fn vectors<F: Fn(&Vector<'_>) -> bool>(file: &[u8], agrees: F) -> usize
    requires { F.IsAlwaysCallable agrees }
{
    let mut rest = file;
    let mut n = 0;
    // Stays a `while let`: each vector says where the next begins, and an iterator made of that keeps `rest` in a closure besides: no plainer.
    while let Some((vector, behind)) = first_vector(rest) {
        if !agrees(&vector) {
            return n;
        }
        rest = behind;
        n += 1;
    }
    n
}

// Where the line that begins at a place ends.
fn line_end(report: &[u8], at: usize) -> usize
    requires { at < length report.now }
    ensures { (at < result) × (result ≤ length report.now) }
{
    match report[at..].iter().position(|b| *b == b'\n') {
        Some(n) => at + n + 1,
        None => report.len(),
    }
}

// How far whole lines reach in the first bytes of a report.
fn lines_within(report: &[u8], room: usize) -> usize
    ensures { result ≤ room }
{
    let mut said = 0;
    for line in report.split_inclusive(|b| *b == b'\n') {
        if line.len() > room - said {
            break;
        }
        said += line.len();
    }
    said
}

// How far the lines of the whole records reach, and whether the cut is where a record ends.
#[derive(Clone, Copy)]
struct Cut {
    said: usize,
    whole: bool,
}

// Stays a `while`: a record says by itself where the next one begins, and `log_records::Reader`, which reads them, is among what this program tests.
fn cut_at(log: &[u8], report: &[u8], cut: usize) -> Cut
    requires { cut ≤ length log.now }
    ensures { result.said ≤ length report.now }
{
    let mut at = 0;
    let mut said = 0;
    while at < cut {
        let next = at + 2 + short_at(log, at);
        if next > cut {
            return Cut { said, whole: false };
        }
        if said >= report.len() {
            return Cut { said, whole: true };
        }
        said = line_end(report, said);
        at = next;
    }
    Cut { said, whole: true }
}

impl Vector<'_> {
    // Whether its log, cut, gives the lines of the whole records, and `bad 15` where the cut is in a record.
    fn cut_agrees(&self, cut: usize) -> bool
        requires { cut ≤ length self.now.log.now }
    {
        let Cut { said, whole } = cut_at(self.log, self.first, cut);
        let (status, last): (u64, &[u8]) = if whole {
            (ENDED, b"")
        } else {
            (MALFORMED, b"bad 15\n")
        };
        let of_cut = Vector {
            log: &self.log[..cut],
            room: MOST_REPORT,
            status,
            first: &self.first[..said],
            last,
        };
        of_cut.agrees()
    }

    // Whether a room gets the lines of its report that fit it.
    fn room_agrees(&self, room: usize) -> bool
        requires { room ≤ length self.now.first.now }
    {
        let in_room = Vector {
            log: self.log,
            room,
            status: if room < self.first.len() {
                NO_ROOM
            } else {
                ENDED
            },
            first: &self.first[..lines_within(self.first, room)],
            last: b"",
        };
        in_room.agrees()
    }
}

// How many of the numbers up to the last agree before the first that does not.
// Stays a `for`: tried `(0..last + 1).find(|n| !agrees(*n))`, and the proof did not close (`find-requires-clause-callable`).
// There the closure must take every number, and `agrees` takes those up to the last alone.
fn agreeing<F: Fn(usize) -> bool>(last: usize, agrees: F) -> usize
    requires few { last < 9223372036854775808 }
    requires callable { (n : ℕ) → n ≤ last → F.pre agrees n }
{
    for n in 0..last + 1 {
        if !agrees(n) {
            return n;
        }
    }
    last + 1
}

// A line with a count.
fn told(rt: &impl Print, what: &str, n: usize) -> io::Result<()> {
    println!(rt; "{what}{n}")
}

// The first vector, which is the worked example: its cuts and its rooms.
fn told_example(rt: &impl Print, file: &[u8]) -> io::Result<()> {
    let none = Vector {
        log: b"",
        room: 0,
        status: ENDED,
        first: b"",
        last: b"",
    };
    let example = first_vector(file).map_or(none, |(vector, _)| vector);
    told(
        rt,
        "cuts of the worked example that agree: ",
        agreeing(example.log.len(), |cut| example.cut_agrees(cut)),
    )?;
    told(
        rt,
        "rooms of its report that agree: ",
        agreeing(example.first.len(), |room| example.room_agrees(room)),
    )
}

// The bytes of a file, up to the most that it may have.
fn bytes_of(rt: &impl Files, alloc: Global, path: &str) -> Result<Vec<u8>> {
    let mut space = Vec::new(alloc);
    fs::open(rt, path)
        .context(path)?
        .take(MOST_FILE as u64)
        .read_to_end(&mut space)
        .context(path)?;
    Ok(space)
}

fn main(rt: HostRuntime) -> Result<()> {
    let space = bytes_of(&rt, rt.alloc(), "vectors")?;
    let file = space.as_slice();
    told(
        &rt,
        "vectors that agree: ",
        vectors(file, |vector| vector.agrees()),
    )?;
    told(
        &rt,
        "vectors that agree over lent tables: ",
        vectors(file, |vector| vector.agrees_lent()),
    )?;
    told_example(&rt, file)?;
    Ok(())
}
