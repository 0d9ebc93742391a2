// The report: the line of an open, of a malformed log, and of every step's answer.
#![tactic(auto)]

ghost use Rattle.std.specs.Prelude.{◌≡◌, [], ◌∷◌, ◌++◌, ◌+◌, ◌*◌, ◌≤◌, min, leb, length, take};
ghost use Rattle.model.specs.Report.{decimal, word_of, spaced, line};
ghost use Rattle.model.specs.Replay.{most_room};
ghost use Rattle.base_protocol.specs.View.{asked};
ghost use Rattle.report_answers.specs.Answers.{number_of, verdict_values, values_of};
ghost use Rattle.report.specs.Written.{laid, written_at};
ghost use Rattle.report.specs.Lines.{open_line, bad_line, line_for, longest_line};

use base_protocol::{Answer, Refusal, Step, Verdict};
use report_answers::{Numbers, numbers_of};

// Room beyond this is not used.
// Stays a bound in each contract that needs it: it is of the room in two, of a list's length in two and of a word's in one, so of no one value.
const MOST_ROOM: usize = 4294967295;

// The longest name of a kind: `validate`.
const LONGEST_WORD: usize = 8;

// A space and the most digits that a number has.
const LONGEST_NUMBER: usize = 21;

// The most numbers of an answer, but for the rows.
const MOST_NUMBERS: usize = 5;

// ---- a line of a word and numbers

// The room of a report of so many bytes.
fn room_of(long: usize) -> usize
    ensures { result ≡ min long most_room }
{
    long.min(MOST_ROOM)
}

// How many digits n has.
// Stays by hand, with `put_digits`: Display tells no width before it writes, and a line that does not fit is not begun.
fn width(n: u64) -> usize
    ensures { (result ≡ length (decimal n)) × (result ≤ 20) }
{
    match n {
        ..10 => 1,
        ..100 => 2,
        ..1000 => 3,
        ..10000 => 4,
        _ => width(n / 10000) + 4,
    }
}

// How long the numbers are, each after its space.
fn spaced_width(list: &[u64]) -> usize
    requires { length list.now ≤ most_room }
    ensures { (result ≡ length (spaced list.now)) × (result ≤ 21 * length list.now) }
{
    let mut long = 0;
    for n in list {
        long += 1 + width(*n);
    }
    long
}

// Writes a word, and returns the place after it.
fn put_word(out: &mut [u8], word: &[u8]) -> usize
    requires { length word.now ≤ length out.old }
    ensures { (result ≡ length word.now) × (out.new ≡ laid out.old 0 word.now) }
{
    out[..word.len()].copy_from_slice(word);
    word.len()
}

// Writes n from `at` on, and returns the place after it.
// Stays with `out` and `at`, as the functions below: methods of a struct of both would promise the same of each, and besides that they keep the lent bytes.
fn put_digits(out: &mut [u8], at: usize, n: u64) -> usize
    requires { at + length (decimal n) ≤ length out.old }
    ensures { (result ≡ at + length (decimal n)) × (out.new ≡ laid out.old at (decimal n)) }
{
    if n < 10 {
        out[at] = b'0' + n as u8;
        return at + 1;
    }
    if n < 100 {
        out[at] = b'0' + (n / 10) as u8;
        out[at + 1] = b'0' + (n % 10) as u8;
        return at + 2;
    }
    let end = at + width(n);
    let mut rest = n;
    for p in (at..end).rev() {
        out[p] = b'0' + (rest % 10) as u8;
        rest /= 10;
    }
    end
}

// Writes a space and n from `at` on, and returns the place after them.
fn put_number(out: &mut [u8], at: usize, n: u64) -> usize
    requires { at + length (spaced (n ∷ [])) ≤ length out.old }
    ensures { (result ≡ at + length (spaced (n ∷ []))) × (out.new ≡ laid out.old at (spaced (n ∷ []))) }
{
    out[at] = b' ';
    put_digits(out, at + 1, n)
}

// Writes two numbers from `at` on, each after a space, and returns the place after them.
fn put_pair(out: &mut [u8], at: usize, first: u64, second: u64) -> usize
    requires { at + length (spaced (first ∷ second ∷ [])) ≤ length out.old }
    ensures { (result ≡ at + length (spaced (first ∷ second ∷ []))) × (out.new ≡ laid out.old at (spaced (first ∷ second ∷ []))) }
{
    let p = put_number(out, at, first);
    put_number(out, p, second)
}

// Writes the numbers from `at` on, each after a space, and returns the place after them.
fn put_spaced(out: &mut [u8], at: usize, list: &[u64]) -> usize
    requires { at + length (spaced list.now) ≤ length out.old }
    ensures { (result ≡ at + length (spaced list.now)) × (out.new ≡ laid out.old at (spaced list.now)) }
{
    let mut p = at;
    for n in list {
        p = put_number(out, p, *n);
    }
    p
}

// Writes a word and a number, from `at` on, or nothing where the line does not fit.
fn write_line(report: &mut [u8], at: usize, word: &[u8], number: u64) -> Option<usize>
    requires { length word.now ≤ most_room }
    ensures { record { wrote = result; report = report.new } ≡ written_at report.old at (line word.now (number ∷ [])) }
{
    let long = word.len() + 1 + width(number) + 1;
    let room = room_of(report.len());
    if at > room || room - at < long {
        return None;
    }
    let rest = &mut report[at..];
    let behind_word = put_word(rest, word);
    let end = put_number(rest, behind_word, number);
    rest[end] = b'\n';
    Some(at + long)
}

// ---- the line of an answer

// How long the kind's name is.
// Stays beside the names in `put_kind`: there each is a constant, copied by a store or two, and a width is asked for only at the end of a report.
fn kind_width(step: Step) -> usize
    ensures { result ≡ length (word_of (asked step)) }
{
    match step {
        Step::Put { .. } | Step::End { .. } => 3,
        Step::Rows { .. } => 4,
        Step::Begin | Step::Erase { .. } | Step::Abort { .. } => 5,
        Step::Validate { .. } => 8,
        _ => 7,
    }
}

// Writes the kind's name at the front, and returns the place after it.
// Stays an arm for each kind: docs/DECISIONS.md, "Language forms that document 01 names", has a constant word written for each.
fn put_kind(rest: &mut [u8], step: Step) -> usize
    requires { length (word_of (asked step)) ≤ length rest.old }
    ensures { (result ≡ length (word_of (asked step))) × (rest.new ≡ laid rest.old 0 (word_of (asked step))) }
{
    match step {
        Step::Begin => put_word(rest, b"begin"),
        Step::Capture { .. } => put_word(rest, b"capture"),
        Step::Collect { .. } => put_word(rest, b"collect"),
        Step::Rows { .. } => put_word(rest, b"rows"),
        Step::Put { .. } => put_word(rest, b"put"),
        Step::Erase { .. } => put_word(rest, b"erase"),
        Step::Prepare { .. } => put_word(rest, b"prepare"),
        Step::Install { .. } => put_word(rest, b"install"),
        Step::End { .. } => put_word(rest, b"end"),
        Step::Publish { .. } => put_word(rest, b"publish"),
        Step::Validate { .. } => put_word(rest, b"validate"),
        Step::Abort { .. } => put_word(rest, b"abort"),
    }
}

// Writes 0, the verdict and its values from `at` on, and returns the place after them.
fn put_verdict(rest: &mut [u8], at: usize, verdict: Verdict) -> usize
    requires { at + length (spaced (0 ∷ verdict_values verdict)) ≤ length rest.old }
    ensures { (result ≡ at + length (spaced (0 ∷ verdict_values verdict)))
        × (rest.new ≡ laid rest.old at (spaced (0 ∷ verdict_values verdict))) }
{
    match verdict {
        Verdict::Clear => put_pair(rest, at, 0, 0),
        Verdict::Bucket {
            bucket,
            captured,
            present,
        } => {
            let behind_verdict = put_pair(rest, at, 0, 1);
            let behind_captured = put_pair(rest, behind_verdict, bucket, captured);
            put_number(rest, behind_captured, present)
        }
        Verdict::Row { row, ptr } => {
            let behind_verdict = put_pair(rest, at, 0, 2);
            put_pair(rest, behind_verdict, row, ptr)
        }
        Verdict::Mark => put_pair(rest, at, 0, 3),
    }
}

// Writes the answer's number and its values from `at` on, and returns the place after them.
fn put_answer(rest: &mut [u8], at: usize, answer: Answer, rows: &[u64]) -> usize
    requires { at + length (spaced (number_of answer ∷ values_of answer rows.now)) ≤ length rest.old }
    ensures { (result ≡ at + length (spaced (number_of answer ∷ values_of answer rows.now)))
        × (rest.new ≡ laid rest.old at (spaced (number_of answer ∷ values_of answer rows.now))) }
{
    match answer {
        Answer::Done => put_number(rest, at, 0),
        Answer::Number(n) | Answer::Stamp(n) | Answer::Count(n) => put_pair(rest, at, 0, n),
        Answer::Rows(n) => {
            let behind_count = put_pair(rest, at, 0, n);
            let said = (n as usize).min(rows.len());
            put_spaced(rest, behind_count, &rows[..said])
        }
        Answer::Judged(v) => put_verdict(rest, at, v),
        Answer::Refused(why) => put_number(rest, at, u64::from(why)),
    }
}

// Writes an answer's line at the front of the rest of the report, and tells how long it is.
// Stays with step, answer and rows apart: the public `answer_line` and the definition `line_for` take them so.
fn put_answer_line(rest: &mut [u8], step: Step, answer: Answer, rows: &[u64]) -> usize
    requires { length (line_for step answer rows.now) ≤ length rest.old }
    ensures { (result ≡ length (line_for step answer rows.now))
        × (rest.new ≡ laid rest.old 0 (line_for step answer rows.now)) }
{
    let behind_word = put_kind(rest, step);
    let end = put_answer(rest, behind_word, answer, rows);
    rest[end] = b'\n';
    end + 1
}

// Whether the longest line with so many rows fits.
fn surely_fits(room: usize, rows: usize) -> bool
    requires { room ≤ most_room }
    ensures { result ≡ leb (longest_line rows) room }
{
    rows <= room && LONGEST_WORD + LONGEST_NUMBER * (MOST_NUMBERS + rows) + 1 <= room
}

// How long the line is with these numbers and rows.
fn answer_width(step: Step, numbers: Numbers, rows: &[u64]) -> usize
    requires { (numbers.count ≤ 5) × (length rows.now ≤ most_room) }
    ensures { result ≡ length (line (word_of (asked step)) (take numbers.count numbers.list ++ rows.now)) }
{
    let Numbers { list, count, .. } = numbers;
    kind_width(step) + spaced_width(&list[..count]) + spaced_width(rows) + 1
}

// Whether an answer's line fits: told at once where any line would, else by its width.
fn answer_fits(room: usize, step: Step, answer: Answer, rows: &[u64]) -> bool
    requires { room ≤ most_room }
    ensures { result ≡ leb (length (line_for step answer rows.now)) room }
{
    if surely_fits(room, rows.len()) {
        return true;
    }
    let numbers = numbers_of(answer);
    let said = numbers.rows.min(rows.len());
    said <= room && answer_width(step, numbers, &rows[..said]) <= room
}

// `open` and its number.
pub fn open_line(report: &mut [u8], at: usize, number: u64) -> Option<usize>
    ensures { record { wrote = result; report = report.new } ≡ written_at report.old at (open_line number) }
{
    write_line(report, at, b"open", number)
}

// `bad 15`.
pub fn bad_line(report: &mut [u8], at: usize) -> Option<usize>
    ensures { record { wrote = result; report = report.new } ≡ written_at report.old at bad_line }
{
    write_line(report, at, b"bad", u64::from(Refusal::Malformed))
}

// The kind's name, the answer's number, and its values; found rows stand at the front of the lent list.
pub fn answer_line(
    report: &mut [u8],
    at: usize,
    step: Step,
    answer: Answer,
    rows: &[u64],
) -> Option<usize>
    ensures { record { wrote = result; report = report.new } ≡ written_at report.old at (line_for step answer rows.now) }
{
    let room = room_of(report.len());
    if at > room || !answer_fits(room - at, step, answer, rows) {
        return None;
    }
    Some(at + put_answer_line(&mut report[at..], step, answer, rows))
}
