// What a store is asked for, and what it answers.
#![tactic(auto)]

ghost use Rattle.std.specs.Prelude.{◌≡◌};
ghost use Rattle.base_protocol.specs.View.{number_told};

// The sizes that a store is opened with.
#[derive(Clone, Copy)]
pub struct Sizes {
    pub rows: u64,
    pub versions: u64,
    pub buckets: u64,
}

// How far a store reaches: its sizes, its clock, its last used pointer.
#[derive(Clone, Copy)]
pub struct Extent {
    pub sizes: Sizes,
    pub clock: u64,
    pub used: u64,
}

// The steps of document 01; `number` is the transaction's.
#[derive(Clone, Copy)]
pub enum Step {
    Begin,
    Capture {
        number: u64,
        key: u64,
    },
    Collect {
        number: u64,
    },
    Rows {
        number: u64,
        room: u64,
    },
    Put {
        number: u64,
        row: u64,
        key: u64,
        payload: u64,
    },
    Erase {
        number: u64,
        row: u64,
    },
    Prepare {
        number: u64,
    },
    Install {
        number: u64,
    },
    End {
        number: u64,
    },
    Publish {
        number: u64,
    },
    Validate {
        number: u64,
    },
    Abort {
        number: u64,
    },
}

// No conflict; a bucket with its captured and its present stamp; a row with the pointer it was read at; the mark.
#[derive(Clone, Copy)]
pub enum Verdict {
    Clear,
    Bucket {
        bucket: u64,
        captured: u64,
        present: u64,
    },
    Row {
        row: u64,
        ptr: u64,
    },
    Mark,
}

// Why a step is refused. `Stale` and `Marked` have one number.
// No step answers `Other`: it is any number that a program tells as a refusal of its own.
#[derive(Clone, Copy, PartialEq, Eq)]
pub enum Refusal {
    WrongSize,
    NoNumbers,
    Full,
    NoSuch,
    WrongPhase,
    NoRow,
    Taken,
    Stale,
    Marked,
    ManyReads,
    NoRoom,
    ManyRecords,
    ManyWrites,
    NoVersions,
    Conflict,
    Malformed,
    WrongShape,
    Other(u64),
}

// Document 01's number, and another one as it is.
impl From<Refusal> for u64 {
    ghost from_gives = { λ why n. n ≡ number_told why };

    fn from(why: Refusal) -> Self {
        match why {
            Refusal::WrongSize => 1,
            Refusal::NoNumbers => 2,
            Refusal::Full => 3,
            Refusal::NoSuch => 4,
            Refusal::WrongPhase => 5,
            Refusal::NoRow => 6,
            Refusal::Taken => 7,
            Refusal::Stale => 8,
            Refusal::Marked => 8,
            Refusal::ManyReads => 9,
            Refusal::NoRoom => 10,
            Refusal::ManyRecords => 11,
            Refusal::ManyWrites => 12,
            Refusal::NoVersions => 13,
            Refusal::Conflict => 14,
            Refusal::Malformed => 15,
            Refusal::WrongShape => 16,
            Refusal::Other(number) => number,
        }
    }
}

// What a step answers. The rows that were found stand in the lent list.
// Stays one enum and no Result: `told` of specs/View tells each answer of the model, a refusal among them, and theorems under it may not change.
#[derive(Clone, Copy)]
pub enum Answer {
    Done,
    Number(u64),
    Stamp(u64),
    Count(u64),
    Rows(u64),
    Judged(Verdict),
    Refused(Refusal),
}
