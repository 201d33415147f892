// Reading a book file line by line.
ghost use Rattle.std.specs.Prelude.{◌≡◌, ◌<◌, ◌≤◌, List, [], length, ℤ, IfOk, MatchResult};
ghost use Rattle.books.specs.declared.record.Record.{Record};
ghost use Rattle.fields.specs.Numerals.{Bytes};
ghost use Rattle.bookfile.specs.declared.progress.Room.{Room};
ghost use Rattle.bookfile.specs.Advance.{so_far, ComeTo, ComeToEnd, CameTo, Declined, Stands};
ghost use Rattle.bookfile.specs.Entries.{Readable};
ghost use Rattle.bookfile.specs.FileCalls.{Holds};
ghost use Rattle.bookfile.specs.Filling.{EntryPut};

use super::entries::{Entry, entry_of, sizes_of};
use super::faults::FileFault;
use super::progress::{Progress, Room};
use super::read::ReadBook;
use books::record::Record;
use fields::lines::cut_line;

// What stands of a file, and the bytes of its other lines.
#[derive(Clone, Copy)]
pub(crate) struct Reader<'a> {
    progress: Progress,
    rest: &'a [u8],
}

impl<'a> Reader<'a> {
    // After the first line.
    pub(crate) fn begun(bytes: &'a [u8], room: Room) -> Result<Reader<'a>, FileFault>
        ensures { MatchResult result (λ r. ComeTo room bytes.now r.progress [] [] r.rest.now) (Declined room bytes.now) }
    {
        let (first, rest) = cut_line(1, bytes)?;
        let progress = Progress::begun(sizes_of(first)?, room);
        Ok(Reader { progress, rest })
    }

    // What the next line says.
    pub(crate) fn next(&mut self) -> Result<Entry, FileFault>
        ensures read { (room : Room) (bs : Bytes) (es : List Record) (ws : List ℤ) → ComeTo room bs self.old.progress es ws self.old.rest.now → MatchResult result (λ y. CameTo room bs y self.new.progress es ws self.new.rest.now) (Declined room bs) }
        ensures stands { IfOk result (λ y. Stands y self.new.progress) }
        ensures room { IfOk result (λ _. self.new.progress.room ≡ self.old.progress.room) }
        ensures shorter { IfOk result (λ _. length self.new.rest.now < length self.old.rest.now) }
    {
        let (line, rest) = cut_line(self.progress.line(), self.rest)?;
        let entry = entry_of(self.progress.sizes, self.progress.worths, line)?;
        self.progress.enter(&entry)?;
        self.rest = rest;
        Ok(entry)
    }

    // Puts what the last line said in the tables: a record after those before it, a worth at its condition.
    #[tactic(auto, using(crate::proofs::Putting::put_last))]
    pub(crate) fn put(&self, entry: Entry, records: &mut [Record], worths: &mut [i64])
        requires stands { Stands entry self.now.progress }
        requires room { self.now.progress.room ≡ record { records = length records.old; worths = length worths.old } }
        ensures { EntryPut entry self.now.progress records.old records.new worths.old worths.new }
    {
        match entry {
            Entry::Outcome(record) => records[self.progress.count - 1] = record,
            Entry::Worth { condition, worth } => worths[condition] = worth,
            Entry::End => {}
        }
    }

    // What the file holds, after its last line.
    pub(crate) fn ended(&self) -> Result<ReadBook, FileFault>
        requires { self.now.progress.sizes.conditions ≤ self.now.progress.worths }
        ensures answer { (room : Room) (bs : Bytes) (es : List Record) (ws : List ℤ) → ComeToEnd room bs self.now.progress es ws self.now.rest.now → MatchResult result (Holds room.records room.worths bs (so_far self.now.progress.sizes es ws)) (Declined room bs) }
        ensures readable { IfOk result (λ b. Readable b self.now.progress.room.records self.now.progress.room.worths) }
    {
        if self.rest.is_empty() {
            Ok(ReadBook {
                sizes: self.progress.sizes,
                count: self.progress.count,
            })
        } else {
            Err(FileFault::Surplus {
                line: self.progress.line() + 1,
            })
        }
    }
}
