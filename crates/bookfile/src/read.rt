// Reading a book file into lent tables.
ghost use Rattle.std.specs.Prelude.{length, IfOk};
ghost use Rattle.bookfile.specs.Entries.{Readable};
ghost use Rattle.bookfile.specs.FileCalls.{CheckAnswers, FillAnswers, ReadAnswers};

use super::entries::Entry;
use super::faults::FileFault;
use super::progress::Room;
use super::reader::Reader;
use books::record::Record;
use books::sizes::Sizes;

// What a file was found to hold: its sizes and how many records it lists.
#[derive(Clone, Copy, Debug, PartialEq)]
pub struct ReadBook {
    pub sizes: Sizes,
    pub count: usize,
}

// Whether the bytes are a book file whose records and worths have room: what it holds, or its first fault.
fn check(bytes: &[u8], room: Room) -> Result<ReadBook, FileFault>
    ensures { CheckAnswers room.records room.worths bytes.now result }
{
    let mut reader = Reader::begun(bytes, room)?;
    loop {
        if let Entry::End = reader.next()? {
            return reader.ended();
        }
    }
}

// Writes the records and worths of a file that was checked. A walk with a closure, for this and the check, would
// lose the lengths of the tables.
fn fill(bytes: &[u8], records: &mut [Record], worths: &mut [i64]) -> Result<ReadBook, FileFault>
    ensures filled { FillAnswers bytes.now result records.old records.new worths.old worths.new }
    ensures readable { IfOk result (λ b. Readable b (length records.old) (length worths.old)) }
{
    let mut reader = Reader::begun(bytes, Room::of(records, worths))?;
    loop {
        let entry = reader.next()?;
        if let Entry::End = entry {
            return reader.ended();
        }
        reader.put(entry, records, worths);
    }
}

// Reads a book file: fills the records and the worths, and answers what it holds. A file that is
// declined changes neither.
#[tactic(auto, using(crate::proofs::Passes::fault_exact))]
pub fn read(bytes: &[u8], records: &mut [Record], worths: &mut [i64]) -> Result<ReadBook, FileFault>
    ensures answer { ReadAnswers bytes.now result records.old records.new worths.old worths.new }
    ensures readable { IfOk result (λ b. Readable b (length records.old) (length worths.old)) }
{
    check(bytes, Room::of(records, worths))?;
    fill(bytes, records, worths)
}
