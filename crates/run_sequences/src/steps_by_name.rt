// A step by its name: the method of the store that does it.
use run_script::Line;
use toruxeng::{
    Answer, BUCKET_WORDS, MOST_BUCKETS, MOST_LIVE, MOST_ROWS, MOST_VERSIONS, ROW_WORDS, Refusal,
    SLOT_WORDS, Sizes, Store, VERSION_WORDS,
};

// Words of the lent tables: an entry more than the largest sizes name, so that a size beyond is wrong by itself; and the room for rows.
pub const ROWS_LENT: usize = (MOST_ROWS + 1) * ROW_WORDS;

pub const VERSIONS_LENT: usize = (MOST_VERSIONS + 2) * VERSION_WORDS;

pub const BUCKETS_LENT: usize = (MOST_BUCKETS + 1) * BUCKET_WORDS;

pub const LISTS_LENT: usize = MOST_LIVE * SLOT_WORDS;

pub const MOST_FOUND: usize = MOST_ROWS;

// What a line is refused with whose name is no step's.
// Stays a number: data/README.md says it to those who write sequences, and what the program prints may not change.
const NO_STEP: u64 = 99;

// A table without the words that are held back.
fn lent(table: &mut [u64], back: u64) -> &mut [u64] {
    let words = table.len().saturating_sub(back as usize);
    &mut table[..words]
}

// A step in tables of which so many words of rows, versions, buckets and lists are held back.
fn in_part<S: FnOnce(&mut Store) -> Answer>(store: &mut Store, back: [u64; 4], step: S) -> Answer
    requires { S.IsAlwaysCallable step }
{
    let mut part = Store {
        rows: lent(store.rows, back[0]),
        versions: lent(store.versions, back[1]),
        buckets: lent(store.buckets, back[2]),
        lists: lent(store.lists, back[3]),
        machine: store.machine,
    };
    let answer = step(&mut part);
    store.machine = part.machine;
    answer
}

// Whether a line's name is that of the first step.
pub fn is_open(line: Line) -> bool {
    matches!(&line.name.to_be_bytes(), b"\0\0\0\0open")
}

// Open, in tables of which some words may be held back.
pub fn opened(store: &mut Store, line: Line) -> Answer {
    let n = line.numbers;
    let sizes = Sizes {
        rows: n[0],
        versions: n[1],
        buckets: n[2],
    };
    in_part(
        store,
        [n[4], n[5], n[6], n[7]],
        |part| part.open(sizes, n[3]),
    )
}

// Begin, in tables of which some words may be held back.
fn begun(store: &mut Store, line: Line) -> Answer {
    let n = line.numbers;
    in_part(store, [n[0], n[1], n[2], n[3]], |part| part.begin())
}

// Rows, with so much of the list lent as the line names room for.
fn read_rows(store: &mut Store, found: &mut [u64], line: Line) -> Answer {
    let lent = found.len().min(line.numbers[1] as usize);
    store.rows(&mut found[..lent], line.numbers[0])
}

// The step that a line names, but for open; another name is refused.
pub fn any_step(store: &mut Store, found: &mut [u64], line: Line) -> Answer {
    let n = line.numbers;
    match &line.name.to_be_bytes() {
        b"\0\0\0begin" => begun(store, line),
        b"\0capture" => store.capture(n[0], n[1]),
        b"\0collect" => store.collect(n[0]),
        b"\0\0\0\0rows" => read_rows(store, found, line),
        b"\0\0\0\0\0put" => store.put(n[0], n[1], n[2], n[3]),
        b"\0\0\0erase" => store.erase(n[0], n[1]),
        b"validate" => store.validate(n[0]),
        b"\0prepare" => store.prepare(n[0]),
        b"\0install" => store.install(n[0]),
        b"\0\0\0\0\0end" => store.end(n[0]),
        b"\0publish" => store.publish(n[0]),
        b"\0\0\0abort" => store.abort(n[0]),
        _ => Answer::Refused(Refusal::Other(NO_STEP)),
    }
}
