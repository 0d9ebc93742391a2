// Chains of versions, and what a snapshot sees of them.
#![tactic(auto)]

ghost use Rattle.std.specs.Prelude.{◌≡◌, not, ◌||◌, ◌+◌, ◌*◌, ◌<◌, ◌≤◌, eqb, length, take};
ghost use Rattle.table.specs.Words.{field};
ghost use Rattle.table.specs.Fields.{version_words, xmin_of, xmax_of};
ghost use Rattle.table_chain.specs.Chain.{NoneBelow, seen_by, visible_to, walk_from, first_visible};

use base_limits::MOST_ACTIVE;
use table::{NEXT, VERSION_WORDS, XMAX, XMIN};
use table_scans::{active_contains, least_of};

// The active numbers are the first active_n of `active`; xmin is the least of them and of the own number.
// Stays an array with a count, by value: a rule of the project, the form that document 01 names (docs/DECISIONS.md).
#[derive(Clone, Copy)]
pub struct Snapshot {
    pub xmin: u64,
    pub xmax: u64,
    pub active: [u64; MOST_ACTIVE],
    pub active_n: usize,
}

// What a snapshot sees by: its xmax and its active numbers. None of them is below `low`, so a lower number needs no scan.
#[derive(Drop)]
struct Sight<'a> {
    low: u64,
    active: &'a [u64],
    xmax: u64,
    ghost none_below: { NoneBelow low active.now },
}

impl<'a> Sight<'a> {
    // By the first active_n of these active numbers.
    fn new(low: u64, active: &'a [u64], active_n: usize, xmax: u64) -> Self
        requires { NoneBelow low (take active_n active.now) }
        ensures active { result.active.now ≡ take active_n active.now }
        ensures xmax { result.xmax ≡ xmax }
    {
        Sight {
            low,
            active: &active[..active_n.min(active.len())],
            xmax,
        }
    }

    // Whether it sees number n.
    fn sees(&self, n: u64) -> bool
        ensures { result ≡ seen_by self.now.active.now self.now.xmax n }
    {
        n < self.xmax && (n < self.low || !active_contains(self.active, self.active.len(), n))
    }

    // Whether it sees no end of a version with this xmax: 0, or a number that it does not see.
    fn sees_no_end(&self, version_xmax: u64) -> bool
        ensures { result ≡ (eqb version_xmax 0 || not (seen_by self.now.active.now self.now.xmax version_xmax)) }
    {
        version_xmax == 0 || !self.sees(version_xmax)
    }

    // Whether it sees the version at a place. The xmax is read only where the xmin is seen: most versions that a walk passes are newer than the snapshot.
    fn sees_version(&self, versions: &[u64], at: usize) -> bool
        requires { version_words * (at + 1) ≤ length versions.now }
        ensures { result ≡ visible_to self.now.active.now self.now.xmax (xmin_of versions.now at) (xmax_of versions.now at) }
    {
        self.sees(word_of(versions, at, XMIN)) && self.sees_no_end(word_of(versions, at, XMAX))
    }
}

// Whether a snapshot of this xmax and these active numbers sees number n.
// Stays three words in place of a `Snapshot`, here and in `visible`: what both ensure of a slice of any length, its array of seven could not say.
pub fn seen(n: u64, active: &[u64], active_n: usize, xmax: u64) -> bool
    ensures { result ≡ seen_by (take active_n active.now) xmax n }
{
    Sight::new(0, active, active_n, xmax).sees(n)
}

// Whether it sees a version of these two numbers: upstream's `is_visible`, for a caller that has them.
pub fn visible(
    version_xmin: u64,
    version_xmax: u64,
    active: &[u64],
    active_n: usize,
    xmax: u64,
) -> bool
    ensures { result ≡ visible_to (take active_n active.now) xmax version_xmin version_xmax }
{
    let sight = Sight::new(0, active, active_n, xmax);
    sight.sees(version_xmin) && sight.sees_no_end(version_xmax)
}

// Word k of a version that stands whole in the table.
// Stays beside `table::xmin_at` and its like, which test the place: without a test a step takes 946 instructions, with it 950 (docs/requests/x.md).
fn word_of(versions: &[u64], at: usize, k: usize) -> u64
    requires { (k < version_words) × (version_words * (at + 1) ≤ length versions.now) }
    ensures { result ≡ field version_words k versions.now at }
{
    versions[VERSION_WORDS * at + k]
}

// Follows the next pointer from p until a version is visible or the pointer is 0, and answers that pointer.
// Stays a recursion: a rule of the project, the form that document 01 names (docs/DECISIONS.md).
// A level hands on thin references and a number alone, and answers a number: so the compiler makes it a loop that takes no stack.
fn walk(versions: &&[u64], sight: &Sight, p: u64) -> u64
    requires { version_words * (p + 1) ≤ length versions.now.now }
    ensures { result ≡ walk_from versions.now.now sight.now.active.now sight.now.xmax p }
{
    if p == 0 {
        return 0;
    }
    if sight.sees_version(versions, p as usize) {
        return p;
    }
    let next = word_of(versions, p as usize, NEXT);
    if next < p {
        walk(versions, sight, next)
    } else {
        0
    }
}

// The first version of the chain from p that the snapshot sees, of the first `used` versions.
// Of a snapshot that begin took `low` is the xmin; of any other it is no more than the active numbers allow.
pub fn first_visible(versions: &[u64], used: usize, s: Snapshot, p: u64) -> Option<u64>
    ensures { result ≡ first_visible versions.now used s p }
{
    let at = p as usize;
    if used < at || versions.len() / VERSION_WORDS <= at {
        return None;
    }
    let low = least_of(s.xmin, s.active, s.active_n);
    let sight = Sight::new(low, &s.active, s.active_n, s.xmax);
    match walk(&versions, &sight, p) {
        0 => None,
        found => Some(found),
    }
}
