// The sizes and limits of document 01, each named once.
#![tactic(auto)]

// Sizes that an open may ask for.
pub const MOST_ROWS: usize = 1024;

pub const MOST_VERSIONS: usize = 4096;

pub const MOST_BUCKETS: usize = 4096;

// Live transactions, and the active numbers that a snapshot holds: all others.
pub const MOST_LIVE: usize = 8;

pub const MOST_ACTIVE: usize = 7;

// The lists of one transaction.
pub const MOST_INDEX_READS: u32 = 16;

pub const MOST_WRITES: u32 = 16;

pub const MOST_RECORDS: u32 = 128;

// L, the very last number: 2^64 − 1.
pub const LAST_NUMBER: u64 = 18446744073709551615;
