// A line written as a text: its name and its numbers, then a sign, and the numbers behind it.
// `capture 3 6: 0 2;` is a step and its answer, `stamp 2? 5;` a look at a word and what stands there, `stamp 2 = 9;` a change of it.
#![tactic(auto)]

ghost use Rattle.std.specs.Prelude.{◌≡◌, slice_index};
ghost use Rattle.run_script.specs.Names.{letter_more};
ghost use Rattle.run_script.specs.Script.{sign_of, empty_line, with_letter, with_digit, ended_line, with_sign, with_byte, step_end, line_of};

// The numbers behind the sign stand from this place on; there are as many places before it as behind it.
pub const ANSWER: usize = 8;

const PLACES: usize = 16;

// A number below this has room for a letter more, to base 256.
const ROOM_FOR_A_LETTER: u64 = 1 << 56;

// What more than eight letters make: no name.
const NO_NAME: u64 = u64::MAX;

// What a line is: a step `:`, a look `?`, or a change `=`.
#[derive(Clone, Copy, PartialEq, Eq)]
pub enum Sign {
    Step,
    Look,
    Change,
}

// A line as it is read: its name's letters as a number, its sign once that is read, its numbers, the place of the next one, and the one that is being read.
// Stays a number: `letter_more` and `named` of specs/Names say which number a name is.
// Stays one array with a place: the numbers of both sides of the sign are read in the same way, and the sign moves the place over a gap.
#[derive(Clone, Copy)]
pub struct Line {
    pub name: u64,
    pub sign: Option<Sign>,
    pub numbers: [u64; PLACES],
    pub at: usize,
    pub reading: Option<u64>,
}

// The byte at a place, 0 past the end.
fn byte(text: &[u8], at: usize) -> u8
    ensures { result ≡ slice_index text.now at }
{
    text.get(at).copied().unwrap_or(0)
}

// A letter more of a name, which has at most eight.
fn letter_more(name: u64, c: u8) -> u64
    ensures { result ≡ letter_more name c }
{
    if name < ROOM_FOR_A_LETTER {
        name * 256 + u64::from(c)
    } else {
        NO_NAME
    }
}

// The sign that a byte is, if it is one.
fn sign_of(c: u8) -> Option<Sign>
    ensures { result ≡ sign_of c }
{
    match c {
        b':' => Some(Sign::Step),
        b'?' => Some(Sign::Look),
        b'=' => Some(Sign::Change),
        _ => None,
    }
}

impl Line {
    // Nothing read yet.
    fn empty() -> Self
        ensures { result ≡ empty_line }
    {
        Line {
            name: 0,
            sign: None,
            numbers: [0; PLACES],
            at: 0,
            reading: None,
        }
    }

    // A letter more of the name.
    fn letter(&mut self, c: u8)
        ensures { self.new ≡ with_letter self.old c }
    {
        self.name = letter_more(self.name, c);
    }

    // A digit more of a number, which may wrap.
    fn digit(&mut self, digit: u8)
        ensures { self.new ≡ with_digit self.old digit }
    {
        let value = self.reading.unwrap_or(0);
        self.reading = Some(value.wrapping_mul(10).wrapping_add(u64::from(digit)));
    }

    // A number ends: it goes to its place, if there is one.
    fn end_number(&mut self)
        ensures { self.new ≡ ended_line self.old }
    {
        if let Some(value) = self.reading
            && self.at < PLACES
        {
            self.numbers[self.at] = value;
            self.at += 1;
            self.reading = None;
        }
    }

    // A sign, if there is one: the numbers behind it come next.
    fn turn(&mut self, sign: Option<Sign>)
        ensures { self.new ≡ with_sign self.old sign }
    {
        if sign.is_some() {
            self.sign = sign;
            self.at = ANSWER;
        }
    }

    // One byte more: a digit, a letter, a sign, or what parts them.
    #[tactic(auto, unfolding(crate::specs::Script::with_byte))]
    fn read(&mut self, c: u8)
        ensures { self.new ≡ with_byte self.old c }
    {
        match c {
            b'0'..=b'9' => self.digit(c - b'0'),
            b'a'..=b'z' => self.letter(c),
            _ => {
                self.end_number();
                self.turn(sign_of(c));
            }
        }
    }
}

// Where the line at a place ends: behind its `;`, or where the text ends.
// Stays a `for`: with `position` it is no plainer. The text may end before the place, so it takes a `get(from..)` with a text for none, and a case for each.
#[tactic(auto, using(crate::proofs::Reading::end_next, crate::proofs::Reading::end_past), unfolding(crate::specs::Script::step_end))]
pub fn step_end(text: &[u8], from: usize) -> usize
    ensures { result ≡ step_end text.now from }
{
    for at in from..text.len() {
        if text[at] == b';' {
            return at + 1;
        }
    }
    text.len().max(from)
}

// The line that is written from a place up to another.
#[tactic(auto, using(crate::proofs::Reading::bytes_next, crate::proofs::Reading::bytes_end), unfolding(crate::specs::Script::line_of))]
pub fn line_of(text: &[u8], from: usize, to: usize) -> Line
    ensures { result ≡ line_of text.now from to }
{
    let mut line = Line::empty();
    for at in from..to {
        line.read(byte(text, at));
    }
    line
}
