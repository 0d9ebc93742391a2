// An answer in numbers: document 01's number, and the values behind it.
#![tactic(auto)]

ghost use Rattle.std.specs.Prelude.{◌≡◌, ◌≤◌};
ghost use Rattle.report_answers.specs.Answers.{verdict_held, number_held, value_held, held_of};

use base_protocol::{Answer, Verdict};

// An answer in numbers: the first `count` of the list, and then the first `rows` of the lent rows.
// Stays a list with its count: the project has no heap, and `held_of` of specs/Answers says both.
// Stays a clause that count is at most 5: with a ghost field the records of `held_of` would hold a proof of it too, and their meaning may not change.
#[derive(Clone, Copy)]
pub struct Numbers {
    pub list: [u64; 5],
    pub count: usize,
    pub rows: usize,
}

// 0, the verdict and its values.
fn verdict_numbers(verdict: Verdict) -> Numbers
    ensures { (result ≡ verdict_held verdict) × (result.count ≤ 5) }
{
    match verdict {
        Verdict::Clear => Numbers {
            list: [0, 0, 0, 0, 0],
            count: 2,
            rows: 0,
        },
        Verdict::Bucket {
            bucket,
            captured,
            present,
        } => Numbers {
            list: [0, 1, bucket, captured, present],
            count: 5,
            rows: 0,
        },
        Verdict::Row { row, ptr } => Numbers {
            list: [0, 2, row, ptr, 0],
            count: 4,
            rows: 0,
        },
        Verdict::Mark => Numbers {
            list: [0, 3, 0, 0, 0],
            count: 2,
            rows: 0,
        },
    }
}

// A number with nothing after it.
fn number_alone(number: u64) -> Numbers
    ensures { result ≡ number_held number }
{
    Numbers {
        list: [number, 0, 0, 0, 0],
        count: 1,
        rows: 0,
    }
}

// 0 and a value, and then so many of the lent rows.
fn value_numbers(value: u64, rows: usize) -> Numbers
    ensures { result ≡ value_held value rows }
{
    Numbers {
        list: [0, value, 0, 0, 0],
        count: 2,
        rows,
    }
}

// The answer's number and its values.
pub fn numbers_of(answer: Answer) -> Numbers
    ensures { (result ≡ held_of answer) × (result.count ≤ 5) }
{
    match answer {
        Answer::Done => number_alone(0),
        Answer::Number(n) | Answer::Stamp(n) | Answer::Count(n) => value_numbers(n, 0),
        Answer::Rows(n) => value_numbers(n, n as usize),
        Answer::Judged(v) => verdict_numbers(v),
        Answer::Refused(why) => number_alone(u64::from(why)),
    }
}
