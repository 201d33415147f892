// How far the reading of a file has come.
ghost use Rattle.std.specs.Prelude.{◌≤◌};
ghost use Rattle.std.specs.Option.{ForSome};
ghost use Rattle.bookfile.specs.Entries.{FitsPlace, least_after};

use super::entries::Entry;
use super::faults::FileFault;
use books::record::{Place, Record};
use books::sizes::Sizes;

// How many records and worths have room.
#[derive(Clone, Copy)]
pub(crate) struct Room {
    pub records: usize,
    pub worths: usize,
}

impl Room {
    ghost use Rattle.std.specs.Prelude.{◌≡◌, length};

    // In a list of records and a table of worths.
    pub(crate) fn of(records: &[Record], worths: &[i64]) -> Room
        ensures { result ≡ record { records = length records.now; worths = length worths.now } }
    {
        Room {
            records: records.len(),
            worths: worths.len(),
        }
    }
}

// How many records and worths stand, and the place of the last record.
#[derive(Clone, Copy)]
pub(crate) struct Progress {
    pub room: Room,
    pub sizes: Sizes,
    pub last: Option<Place>,
    pub count: usize,
    pub worths: usize,
    ghost last_fits: { ForSome last FitsPlace },
    ghost rising: { count ≤ least_after last },
    ghost few_worths: { worths ≤ sizes.conditions },
    ghost records_there: { count ≤ room.records },
    ghost worths_there: { worths ≤ room.worths },
}

impl Progress {
    ghost use Rattle.std.specs.Prelude.{◌≡◌, ◌+◌, ◌<◌, MatchResult, ◌≢◌};
    ghost use Rattle.books.specs.Entries.{key};
    ghost use Rattle.bookfile.specs.Entries.{FitsSizes, FitsEntry};
    ghost use Rattle.bookfile.specs.Advance.{line_of, NotEntered, PlusRecord, PlusWorth, EntryEntered, EntryStopped};

    // After the first line.
    pub(crate) fn begun(sizes: Sizes, room: Room) -> Progress
        ensures { (result.room ≡ room) × (result.sizes ≡ sizes) × (least_after result.last ≡ 0) × (result.count ≡ 0) × (result.worths ≡ 0) }
    {
        Progress {
            room,
            sizes,
            last: None,
            count: 0,
            worths: 0,
        }
    }

    // The number of the line that comes next.
    pub(crate) fn line(&self) -> usize
        ensures { result ≡ line_of self.now }
    {
        self.count + self.worths + 2
    }

    // One record more.
    fn add_record(&mut self, outcome: &Record) -> Result<(), FileFault>
        requires { FitsSizes self.old.sizes outcome.now }
        ensures { MatchResult result (λ _. PlusRecord self.old outcome.now self.new) (NotEntered (line_of self.old) (key outcome.now < least_after self.old.last) (self.old.room.records ≤ self.old.count)) }
    {
        let line = self.line();
        let place = Some(outcome.place());
        if place <= self.last {
            return Err(FileFault::Order { line });
        }
        if self.count >= self.room.records {
            return Err(FileFault::Space { line });
        }
        self.last = place;
        self.count += 1;
        Ok(())
    }

    // The worth of one condition more.
    fn add_worth(&mut self, condition: usize) -> Result<(), FileFault>
        requires { condition < self.old.sizes.conditions }
        ensures { MatchResult result (λ _. (condition ≡ self.old.worths) × PlusWorth self.old self.new) (NotEntered (line_of self.old) (condition ≢ self.old.worths) (self.old.room.worths ≤ self.old.worths)) }
    {
        let line = self.line();
        if condition != self.worths {
            return Err(FileFault::Order { line });
        }
        if self.worths >= self.room.worths {
            return Err(FileFault::Space { line });
        }
        self.worths += 1;
        Ok(())
    }

    // What one line more says.
    pub(crate) fn enter(&mut self, entry: &Entry) -> Result<(), FileFault>
        requires { FitsEntry self.old.sizes self.old.worths entry.now }
        ensures { MatchResult result (λ _. EntryEntered self.old entry.now self.new) (EntryStopped self.old entry.now) }
    {
        match entry {
            Entry::Outcome(outcome) => self.add_record(outcome),
            Entry::Worth { condition, .. } => self.add_worth(*condition),
            Entry::End => Ok(()),
        }
    }
}
