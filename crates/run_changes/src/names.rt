// The names of the words.
ghost use Rattle.std.specs.Prelude.{◌≡◌, ◌==◌, position};
ghost use Rattle.std.specs.Int.{w64, from_be_bytes};
ghost use Rattle.run_changes.specs.WordNames.{word_named};

const NAMES_COUNT: usize = 43;

// The names, in the order of the words.
const NAMES: [[u8; 8]; NAMES_COUNT] = [
    *b"\0\0\0\0head",
    *b"\0\0\0claim",
    *b"\0\0posted",
    *b"\0postkey",
    *b"\0\0\0later",
    *b"\0\0\0first",
    *b"\0\0\0\0xmin",
    *b"\0\0\0\0xmax",
    *b"\0\0\0\0next",
    *b"\0\0\0keyed",
    *b"\0\0\0\0\0key",
    *b"\0payload",
    *b"\0\0\0stamp",
    *b"\0\0holder",
    *b"\0ibucket",
    *b"\0\0istamp",
    *b"\0\0\0\0wrow",
    *b"\0\0wkeyed",
    *b"\0\0\0\0wkey",
    *b"wpayload",
    *b"\0\0\0\0rrow",
    *b"rpointer",
    *b"\0\0\0rxmin",
    *b"\0\0\0\0crow",
    *b"\0\0number",
    *b"snapxmin",
    *b"snapxmax",
    *b"\0\0acount",
    *b"\0\0\0\0mark",
    *b"\0\0\0phase",
    *b"\0\0\0\0held",
    *b"\0\0sought",
    *b"\0\0\0\0slot",
    *b"\0\0icount",
    *b"\0\0wcount",
    *b"\0\0rcount",
    *b"\0\0ccount",
    *b"\0anumber",
    *b"\0\0\0clock",
    *b"\0\0\0\0used",
    *b"rowcount",
    *b"versions",
    *b"\0buckets",
];

// The place of a name among some, by its letters.
fn place_among(names: &[[u8; 8]], name: u64) -> Option<usize>
    ensures { result ≡ position (λ letters. from_be_bytes w64 letters == name) names.now }
{
    names
        .iter()
        .position(|letters| u64::from_be_bytes(*letters) == name)
}

// The word that a name names: the name's place among all.
#[tactic(auto, unfolding(crate::specs::WordNames::names))]
pub fn word_named(name: u64) -> Option<usize>
    ensures { result ≡ word_named name }
{
    place_among(&NAMES, name)
}
