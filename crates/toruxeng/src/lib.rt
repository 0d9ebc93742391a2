// The store for a program that holds it: open, and a method for each step. Each step tests the shape first, and answers 16 where it is wrong.
#![tactic(auto)]

ghost use Rattle.std.specs.Prelude.{◌≡◌, [], length};
ghost use Rattle.base_protocol.specs.declared.Step.TheVariants as ask;
ghost use Rattle.call.specs.Calls.{call_of, open_of};
ghost use Rattle.toruxeng.specs.Stores.{words_in, told, SameTables};

pub use base_limits::{MOST_BUCKETS, MOST_LIVE, MOST_ROWS, MOST_VERSIONS};
pub use base_protocol::{Answer, Refusal, Sizes, Step, Verdict};
pub use call::{Called, call, call_without_list, closed, open};
pub use shape::Machine;
pub use table::lists::SLOT_WORDS;
pub use table::{BUCKET_WORDS, ROW_WORDS, VERSION_WORDS};

// A store: the tables that are lent to it, and its machine. It is made with a closed machine, and then opened.
// Stays with `SameTables` in each contract below: it relates the store before a step and after it, which no invariant of the type can say.
#[derive(Drop)]
pub struct Store<'a> {
    pub rows: &'a mut [u64],
    pub versions: &'a mut [u64],
    pub buckets: &'a mut [u64],
    pub lists: &'a mut [u64],
    pub machine: Machine,
}

impl Store<'_> {
    // Open: a fresh store in the lent tables. A refused one leaves the tables as found and the machine closed, so that every step gets 16.
    pub fn open(&mut self, sizes: Sizes, clock: u64) -> Answer
        ensures tables { SameTables self.old self.new }
        ensures words { told result self.new []
            ≡ open_of self.old.rows.now self.old.versions.now self.old.buckets.now self.old.lists.now sizes clock }
    {
        let lists = &mut *self.lists;
        let opened = open(self.rows, self.versions, self.buckets, lists, sizes, clock);
        self.answered(opened)
    }

    // Any step, with a list lent for the rows that it finds.
    pub fn call(&mut self, found: &mut [u64], step: Step) -> Answer
        ensures tables { SameTables self.old self.new }
        ensures words { told result self.new found.new ≡ call_of (words_in self.old found.old) step }
    {
        let called = call(
            self.rows,
            self.versions,
            self.buckets,
            self.lists,
            found,
            self.machine,
            step,
        );
        self.answered(called)
    }

    // A step that finds no rows needs no list for them.
    pub fn call_without_list(&mut self, step: Step) -> Answer
        ensures tables { SameTables self.old self.new }
        ensures words { told result self.new [] ≡ call_of (words_in self.old []) step }
    {
        let called = call_without_list(
            self.rows,
            self.versions,
            self.buckets,
            self.lists,
            self.machine,
            step,
        );
        self.answered(called)
    }

    // The machine of a call takes the place of the one before.
    fn answered(&mut self, called: Called) -> Answer
        ensures answer { result ≡ called.answer }
        ensures store { self.new ≡ record self.old { machine = called.machine } }
    {
        self.machine = called.machine;
        called.answer
    }

    // Begin: a new transaction.
    // Stays a method for each step, here and below: README.md says so, and each promises its own step (`call_of`).
    pub fn begin(&mut self) -> Answer
        ensures tables { SameTables self.old self.new }
        ensures words { told result self.new [] ≡ call_of (words_in self.old []) ask.Begin }
    {
        self.call_without_list(Step::Begin)
    }

    // Capture: takes the key's bucket.
    pub fn capture(&mut self, number: u64, key: u64) -> Answer
        ensures tables { SameTables self.old self.new }
        ensures words { told result self.new [] ≡ call_of (words_in self.old []) (ask.Capture number key) }
    {
        self.call_without_list(Step::Capture { number, key })
    }

    // Collect: keeps the rows posted with the key.
    pub fn collect(&mut self, number: u64) -> Answer
        ensures tables { SameTables self.old self.new }
        ensures words { told result self.new [] ≡ call_of (words_in self.old []) (ask.Collect number) }
    {
        self.call_without_list(Step::Collect { number })
    }

    // Rows: the read itself; the rows found go to the front of the lent list, which is the room.
    pub fn rows(&mut self, found: &mut [u64], number: u64) -> Answer
        ensures tables { SameTables self.old self.new }
        ensures words { told result self.new found.new ≡ call_of (words_in self.old found.old) (ask.Rows number (length found.old)) }
    {
        let room = found.len() as u64;
        self.call(found, Step::Rows { number, room })
    }

    // Put: a pending write with a key.
    pub fn put(&mut self, number: u64, row: u64, key: u64, payload: u64) -> Answer
        ensures tables { SameTables self.old self.new }
        ensures words { told result self.new [] ≡ call_of (words_in self.old []) (ask.Put number row key payload) }
    {
        self.call_without_list(Step::Put {
            number,
            row,
            key,
            payload,
        })
    }

    // Erase: a pending write with none.
    pub fn erase(&mut self, number: u64, row: u64) -> Answer
        ensures tables { SameTables self.old self.new }
        ensures words { told result self.new [] ≡ call_of (words_in self.old []) (ask.Erase number row) }
    {
        self.call_without_list(Step::Erase { number, row })
    }

    // Validate: the verdict.
    pub fn validate(&mut self, number: u64) -> Answer
        ensures tables { SameTables self.old self.new }
        ensures words { told result self.new [] ≡ call_of (words_in self.old []) (ask.Validate number) }
    {
        self.call_without_list(Step::Validate { number })
    }

    // Prepare: takes all that the transaction needs.
    pub fn prepare(&mut self, number: u64) -> Answer
        ensures tables { SameTables self.old self.new }
        ensures words { told result self.new [] ≡ call_of (words_in self.old []) (ask.Prepare number) }
    {
        self.call_without_list(Step::Prepare { number })
    }

    // Install: a new version of each pending row.
    pub fn install(&mut self, number: u64) -> Answer
        ensures tables { SameTables self.old self.new }
        ensures words { told result self.new [] ≡ call_of (words_in self.old []) (ask.Install number) }
    {
        self.call_without_list(Step::Install { number })
    }

    // End: the number stops being active.
    pub fn end(&mut self, number: u64) -> Answer
        ensures tables { SameTables self.old self.new }
        ensures words { told result self.new [] ≡ call_of (words_in self.old []) (ask.End number) }
    {
        self.call_without_list(Step::End { number })
    }

    // Publish: postings and stamps follow, and the record ends.
    pub fn publish(&mut self, number: u64) -> Answer
        ensures tables { SameTables self.old self.new }
        ensures words { told result self.new [] ≡ call_of (words_in self.old []) (ask.Publish number) }
    {
        self.call_without_list(Step::Publish { number })
    }

    // Abort: all is freed, and the record ends.
    pub fn abort(&mut self, number: u64) -> Answer
        ensures tables { SameTables self.old self.new }
        ensures words { told result self.new [] ≡ call_of (words_in self.old []) (ask.Abort number) }
    {
        self.call_without_list(Step::Abort { number })
    }
}
