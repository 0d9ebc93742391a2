// The vectors over lent tables: whatever stands in them the answer is the same, words past the sizes keep their contents, and a word too few is refused.
use super::{ENDED, FILL, MOST_REPORT, Vector, WRONG_SHAPE, long_at};
use base_limits::{MOST_BUCKETS, MOST_LIVE, MOST_ROWS, MOST_VERSIONS};
use replay::toruxeng_replay_lent;
use table::lists::SLOT_WORDS;
use table::{BUCKET_WORDS, ROW_WORDS, VERSION_WORDS};

// The words of the greatest tables; the version table has an entry 0 besides.
const ROWS_LENT: usize = ROW_WORDS * MOST_ROWS;

const VERSIONS_LENT: usize = VERSION_WORDS * (MOST_VERSIONS + 1);

const BUCKETS_LENT: usize = BUCKET_WORDS * MOST_BUCKETS;

const LISTS_LENT: usize = SLOT_WORDS * MOST_LIVE;

// The word that fills them before a replay.
const SEVEN: u64 = 7;

// The bytes of an open record, and where its sizes stand in it.
const OPEN_BYTES: usize = 24;

const ROWS_AT: usize = 4;

const VERSIONS_AT: usize = 8;

const BUCKETS_AT: usize = 12;

// How many words of each table.
#[derive(Clone, Copy)]
struct Words {
    rows: usize,
    versions: usize,
    buckets: usize,
    lists: usize,
}

const NO_WORDS: Words = Words {
    rows: 0,
    versions: 0,
    buckets: 0,
    lists: 0,
};

// Those of the greatest tables.
const GREATEST: Words = Words {
    rows: ROWS_LENT,
    versions: VERSIONS_LENT,
    buckets: BUCKETS_LENT,
    lists: LISTS_LENT,
};

impl Words {
    // Those that the open of a log needs.
    fn needed(log: &[u8]) -> Words {
        Words {
            rows: ROW_WORDS * long_at(log, ROWS_AT),
            versions: VERSION_WORDS * (long_at(log, VERSIONS_AT) + 1),
            buckets: BUCKET_WORDS * long_at(log, BUCKETS_AT),
            lists: LISTS_LENT,
        }
    }

    // The same with a word fewer of one table, for each table.
    fn each_one_fewer(self) -> [Words; 4] {
        [
            Words {
                rows: self.rows.saturating_sub(1),
                ..self
            },
            Words {
                versions: self.versions.saturating_sub(1),
                ..self
            },
            Words {
                buckets: self.buckets.saturating_sub(1),
                ..self
            },
            Words {
                lists: self.lists.saturating_sub(1),
                ..self
            },
        ]
    }
}

// Whether the words from a place on are as they were.
fn are_kept(words: &[u64], from: usize) -> bool {
    words.iter().skip(from).all(|word| *word == SEVEN)
}

impl Vector<'_> {
    // Whether a replay over so many words of each table, or all that it has, agrees, and keeps the words past those that it may write.
    fn agrees_over(&self, lent: Words, written: Words) -> bool {
        if self.room > MOST_REPORT {
            return false;
        }
        let mut report = [FILL; MOST_REPORT];
        let mut rows = [SEVEN; ROWS_LENT];
        let mut versions = [SEVEN; VERSIONS_LENT];
        let mut buckets = [SEVEN; BUCKETS_LENT];
        let mut lists = [SEVEN; LISTS_LENT];
        let answer = toruxeng_replay_lent(
            self.log,
            &mut report[..self.room],
            &mut rows[..lent.rows.min(ROWS_LENT)],
            &mut versions[..lent.versions.min(VERSIONS_LENT)],
            &mut buckets[..lent.buckets.min(BUCKETS_LENT)],
            &mut lists[..lent.lists.min(LISTS_LENT)],
        );
        self.is_met(answer, &report)
            && are_kept(&rows, written.rows)
            && are_kept(&versions, written.versions)
            && are_kept(&buckets, written.buckets)
            && are_kept(&lists, written.lists)
    }

    // Whether its log begins with an open that is accepted.
    fn opens(&self) -> bool {
        self.log.get(..OPEN_BYTES).is_some_and(|open| {
            let opening = Vector {
                log: open,
                room: MOST_REPORT,
                status: ENDED,
                first: b"open 0\n",
                last: b"",
            };
            opening.agrees()
        })
    }

    // Whether the open is refused with 16 over so many words of each table, and no word written.
    fn is_too_few(&self, lent: Words) -> bool {
        let refused = Vector {
            log: self.log,
            room: MOST_REPORT,
            status: WRONG_SHAPE,
            first: b"open 16\n",
            last: b"",
        };
        refused.agrees_over(lent, NO_WORDS)
    }

    // Whether it agrees over the greatest tables and, where it opens, over just the words that its open needs, and is refused over a word fewer of any table.
    pub fn agrees_lent(&self) -> bool {
        if !self.opens() {
            return self.agrees_over(GREATEST, NO_WORDS);
        }
        let need = Words::needed(self.log);
        self.agrees_over(GREATEST, need)
            && self.agrees_over(need, need)
            && need
                .each_one_fewer()
                .iter()
                .all(|fewer| self.is_too_few(*fewer))
    }
}
