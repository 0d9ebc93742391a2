// The log: records from bytes, little-endian, each read at a place of the caller's bytes.
#![tactic(auto)]

ghost use Rattle.std.specs.Prelude.{◌≡◌, ◌+◌, ◌^◌, ◌≤◌, ◌<◌, length, take, drop};
ghost use Rattle.model.specs.Log.{number};
ghost use Rattle.log_records.specs.Records.{length_of, command_in, kind_number, KindOf, decoded_of, reader_at, taken_by};

use base_protocol::{Sizes, Step};

// What a record asks for: a store of these sizes with this clock, or a step of the store.
#[derive(Clone, Copy)]
pub enum Command {
    Open { sizes: Sizes, clock: u64 },
    Ask(Step),
}

// A record is cut off, of an unknown kind, or not of its kind's length.
#[derive(Clone, Copy)]
pub struct Malformed;

// A record's kind.
#[derive(Clone, Copy)]
enum Kind {
    Open,
    Begin,
    Capture,
    Collect,
    Rows,
    Put,
    Erase,
    Prepare,
    Install,
    End,
    Publish,
    Validate,
    Abort,
}

impl TryFrom<u64> for Kind {
    type Error = Malformed;

    ghost try_from_gives = { KindOf };

    fn try_from(number: u64) -> Result<Self, Malformed> {
        match number {
            1 => Ok(Kind::Open),
            2 => Ok(Kind::Begin),
            3 => Ok(Kind::Capture),
            4 => Ok(Kind::Collect),
            5 => Ok(Kind::Rows),
            6 => Ok(Kind::Put),
            7 => Ok(Kind::Erase),
            8 => Ok(Kind::Prepare),
            9 => Ok(Kind::Install),
            10 => Ok(Kind::End),
            11 => Ok(Kind::Publish),
            12 => Ok(Kind::Validate),
            13 => Ok(Kind::Abort),
            _ => Err(Malformed),
        }
    }
}

impl Kind {
    // The length that a record of this kind says: what follows it.
    #[tactic(auto, unfolding(crate::proofs::Known::kinds_computed))]
    fn length(self) -> usize
        ensures { result ≡ length_of (kind_number self) }
    {
        match self {
            Kind::Open => 22,
            Kind::Begin => 2,
            Kind::Capture => 18,
            Kind::Collect => 10,
            Kind::Rows => 14,
            Kind::Put => 30,
            Kind::Erase => 14,
            Kind::Prepare => 10,
            Kind::Install => 10,
            Kind::End => 10,
            Kind::Publish => 10,
            Kind::Validate => 10,
            Kind::Abort => 10,
        }
    }
}

// The number of the N bytes from `at` on, the lowest first.
fn number_at<const N: usize>(log: &[u8], at: usize) -> u64
    requires few { N ≤ 8 }
    requires inside { at + N ≤ length log.now }
    ensures value { result ≡ number (take N (drop at log.now)) }
    ensures small { result < 256 ^ N }
{
    let mut number = 0;
    for i in (0..N).rev() {
        number = 256 * number + u64::from(log[at + i]);
    }
    number
}

// The command of a kind; its fields stand from `at` on.
#[tactic(auto, unfolding(crate::proofs::Known::kinds_computed))]
fn command_at(log: &[u8], kind: Kind, at: usize) -> Command
    requires { at + length_of (kind_number kind) ≤ length log.now + 2 }
    ensures { result ≡ command_in (kind_number kind) (drop at log.now) }
{
    match kind {
        Kind::Open => Command::Open {
            sizes: Sizes {
                rows: number_at::<4>(log, at),
                versions: number_at::<4>(log, at + 4),
                buckets: number_at::<4>(log, at + 8),
            },
            clock: number_at::<8>(log, at + 12),
        },
        Kind::Begin => Command::Ask(Step::Begin),
        Kind::Capture => Command::Ask(Step::Capture {
            number: number_at::<8>(log, at),
            key: number_at::<8>(log, at + 8),
        }),
        Kind::Collect => Command::Ask(Step::Collect {
            number: number_at::<8>(log, at),
        }),
        Kind::Rows => Command::Ask(Step::Rows {
            number: number_at::<8>(log, at),
            room: number_at::<4>(log, at + 8),
        }),
        Kind::Put => Command::Ask(Step::Put {
            number: number_at::<8>(log, at),
            row: number_at::<4>(log, at + 8),
            key: number_at::<8>(log, at + 12),
            payload: number_at::<8>(log, at + 20),
        }),
        Kind::Erase => Command::Ask(Step::Erase {
            number: number_at::<8>(log, at),
            row: number_at::<4>(log, at + 8),
        }),
        Kind::Prepare => Command::Ask(Step::Prepare {
            number: number_at::<8>(log, at),
        }),
        Kind::Install => Command::Ask(Step::Install {
            number: number_at::<8>(log, at),
        }),
        Kind::End => Command::Ask(Step::End {
            number: number_at::<8>(log, at),
        }),
        Kind::Publish => Command::Ask(Step::Publish {
            number: number_at::<8>(log, at),
        }),
        Kind::Validate => Command::Ask(Step::Validate {
            number: number_at::<8>(log, at),
        }),
        Kind::Abort => Command::Ask(Step::Abort {
            number: number_at::<8>(log, at),
        }),
    }
}

// The log reader keeps the caller's bytes and its place.
#[derive(Clone, Copy)]
pub struct Reader<'a> {
    pub log: &'a [u8],
    pub at: usize,
}

impl<'a> Reader<'a> {
    // A reader of these bytes that stands at this place.
    pub fn new(log: &'a [u8], at: usize) -> Reader<'a>
        ensures { result ≡ reader_at log.entry at }
    {
        Reader { log, at }
    }

    // What the record at its place asks for, and the reader moves past it; a malformed one leaves it where it was.
    pub fn next(&mut self) -> Result<Command, Malformed>
        ensures { record { command = result; reader = self.new } ≡ taken_by self.old }
    {
        let Reader { log, at } = *self;
        let n = log.len();
        if n < 4 || at > n - 4 {
            return Err(Malformed);
        }
        let length = number_at::<2>(log, at) as usize;
        let kind = Kind::try_from(number_at::<2>(log, at + 2))?;
        if length != kind.length() || n - at - 2 < length {
            return Err(Malformed);
        }
        self.at = at + 2 + length;
        Ok(command_at(log, kind, at + 4))
    }
}

// What the record at a place of the log asks for, and where the next one begins; behind a malformed one it is the same place.
#[derive(Clone, Copy)]
pub struct Decoded {
    pub command: Result<Command, Malformed>,
    pub next: usize,
}

// What a reader takes at a place of the log, and where it stands then.
pub fn decode_at(log: &[u8], at: usize) -> Decoded
    ensures { result ≡ decoded_of log.now at }
{
    let mut reader = Reader::new(log, at);
    let command = reader.next();
    Decoded {
        command,
        next: reader.at,
    }
}
