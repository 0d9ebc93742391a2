// Plays the sequences in data/: a line has a name, the next the steps and the answers that document 01 asks for, and among them looks at words and changes of
// them.
// After the values of rows come the rows. data/README.md has the grammar and the names.
#![tactic(auto)]

use anyhow::{Context, Result};
use report_answers::{Numbers, numbers_of};
use run_changes::{WordName, change, look};
use run_script::{ANSWER, Line, Sign, line_of, step_end};
use std::alloc::Global;
use std::io::{Read, Write};
use std::rt::Files;
use std::{fs, io};
use steps_by_name::{
    BUCKETS_LENT, LISTS_LENT, MOST_FOUND, ROWS_LENT, VERSIONS_LENT, any_step, is_open, opened,
};
use toruxeng::{Store, closed};

mod steps_by_name; // steps_by_name.rt: a method of the store for each step

// The bytes of a file that are read.
const MOST_FILE: usize = 65536;

// A number with nothing after it.
// Stays beside report_answers' `number_alone`: that tells an answer, and is private there; this tells a word, which is none.
fn alone(number: u64) -> Numbers {
    Numbers {
        list: [number, 0, 0, 0, 0],
        count: 1,
        rows: 0,
    }
}

// A look at a word, and before it another word there where the line is a change; none where there is no such word.
fn any_word(store: &mut Store, line: Line) -> Option<Numbers> {
    let n = line.numbers;
    let word = WordName {
        name: line.name,
        a: n[0],
        b: n[1],
    };
    if line.sign == Some(Sign::Change) {
        change(store, word, n[ANSWER]);
    }
    look(store, word).map(alone)
}

// A step, or a word.
fn any_line(store: &mut Store, found: &mut [u64], line: Line) -> Option<Numbers> {
    match line.sign {
        Some(Sign::Step) => Some(numbers_of(any_step(store, found, line))),
        _ => any_word(store, line),
    }
}

// Whether the answer (its own numbers, the rows found, zeros) is the expected one, as far as a written step has room for it.
// A line that expects no number is none.
fn expected(told: Numbers, found: &[u64], line: Line) -> bool {
    let asked = line.numbers;
    let count = told.count.saturating_add(told.rows).min(ANSWER);
    let own = told.list.iter().take(told.count);
    let said = own.chain(found.iter().take(told.rows)).chain(&[0; ANSWER]);
    line.at > ANSWER
        && line.at - ANSWER == count
        && said
            .zip(&asked[ANSWER..])
            .all(|(told, asked)| told == asked)
}

// What differed: which line, and the number and the value that it answered, or that it names no word.
fn differed(rt: &impl Print, line: u64, told: Option<Numbers>) -> io::Result<()> {
    match told {
        Some(numbers) => {
            let [number, value, ..] = numbers.list;
            println!(rt; ": line {line} answered {number} {value}")
        }
        None => println!(rt; ": line {line} names no word"),
    }
}

// Plays one sequence in tables full of sevens; the first step opens them.
fn play(rt: &impl Print, name: &[u8], text: &[u8]) -> io::Result<()> {
    let mut store = Store {
        rows: &mut [7; ROWS_LENT],
        versions: &mut [7; VERSIONS_LENT],
        buckets: &mut [7; BUCKETS_LENT],
        lists: &mut [7; LISTS_LENT],
        machine: closed(),
    };
    let mut found = [7; MOST_FOUND];
    let mut at = step_end(text, 0);
    let first = line_of(text, 0, at);
    let begun = numbers_of(opened(&mut store, first));
    io::writer(rt).write_all(name)?;
    if !is_open(first) || !expected(begun, &found, first) {
        return differed(rt, 1, Some(begun));
    }
    let mut step: u64 = 1;
    // Stays a `while`: no index is counted, `step_end` says where each line ends.
    while at < text.len() {
        let end = step_end(text, at);
        let line = line_of(text, at, end);
        let told = any_line(&mut store, &mut found, line);
        step = step.wrapping_add(1);
        if !told.is_some_and(|numbers| expected(numbers, &found, line)) {
            return differed(rt, step, told);
        }
        at = end;
    }
    println!(rt; " ok")
}

// Plays each sequence of the file, a line with its name and the line behind that; a name with no line behind it is not played.
fn play_all(rt: &impl Print, file: &[u8]) -> io::Result<()> {
    let mut named = None;
    for line in file.split(|byte| *byte == b'\n') {
        named = match named {
            None => Some(line),
            Some(name) => {
                play(rt, name, line)?;
                None
            }
        };
    }
    Ok(())
}

fn play_file(rt: &(impl Files + Print), alloc: Global, path: &str) -> Result<()> {
    let mut space = Vec::new(alloc);
    fs::open(rt, path)
        .context(path)?
        .take(MOST_FILE as u64)
        .read_to_end(&mut space)
        .context(path)?;
    play_all(rt, space.as_slice())?;
    Ok(())
}

fn main(rt: HostRuntime) -> Result<()> {
    let alloc = rt.alloc();
    play_file(&rt, alloc, "steps.txt")?;
    play_file(&rt, alloc, "shape.txt")?;
    play_file(&rt, alloc, "words.txt")?;
    play_file(&rt, alloc, "limits.txt")
}
