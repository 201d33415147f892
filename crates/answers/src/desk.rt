// The whole of the desk: a book file and a script in, the answers to the script out.
ghost use Rattle.std.specs.Prelude.{◌≡◌, ◌^◌, ◌<◌, length, map, IfOk, string_bytes};
ghost use Rattle.script.specs.Parts.{script_from};
ghost use Rattle.script.specs.Scripts.{said_of};
ghost use Rattle.answers.specs.Printing.{refusal_line};
ghost use Rattle.answers.specs.Desk.{Serves, Told, DeskAnswers};

use super::lines::write_refusal;
use super::requests::requests_in;
use super::text::text_of;
use bookfile::read::read;
use books::list::ListBook;
use books::record::Record;
use books::sizes::Sizes;
use model::Book;
use script::parts::Parts;
use script::script::{ScriptLine, lines_of};
use service::serve::serve;
use sheets::sheet::Sheet;
use std::alloc::{AllocError, Global};

// The most bytes that an input may have.
pub const LONGEST: usize = 65536;

const RECORDS: usize = 2048;

const CONDITIONS: usize = 32;

// One refusal, and nothing else.
fn refused(
    heap: Global,
    line: usize,
    number: u32,
    places: (usize, usize, usize),
) -> Result<String, AllocError>
    requires { (places.0 < 2 ^ 64) × (places.1 < 2 ^ 64) × (places.2 < 2 ^ 64) }
    ensures { IfOk result (λ s. string_bytes s ≡ refusal_line line number places) }
{
    let mut out = String::new(heap);
    write_refusal(&mut out, line, number, places)?;
    Ok(out)
}

// Serves the requests of the script on a new sheet over the book, and answers every line.
fn served<B: Book + Drop>(
    heap: Global,
    sizes: Sizes,
    book: B,
    lines: &[ScriptLine],
) -> Result<String, AllocError>
    requires { sizes.conditions ≡ (B.Book.model book).conditions }
    ensures { IfOk result (λ s. Serves (B.Book.model book) (map said_of lines.now) (string_bytes s)) }
{
    let mut requests = requests_in(heap, sizes, lines)?;
    let Ok(mut sheet) = Sheet::new(heap, book) else {
        return Err(AllocError);
    };
    serve(&mut sheet, requests.as_mut_slice());
    text_of(heap, sizes, lines, requests.as_slice())
}

// Reads the book file into the tables that are lent, and answers the script.
fn told(
    heap: Global,
    parts: Parts<'_>,
    records: &mut [Record],
    worths: &mut [i64],
) -> Result<String, AllocError>
    ensures { IfOk result (λ s. Told (length records.old) (length worths.old) parts.entry.book.now (script_from parts.entry.first parts.entry.script.now) (string_bytes s)) }
{
    let found = match read(parts.book, records, worths) {
        Ok(found) => found,
        Err(fault) => {
            let places = fault.places();
            return refused(heap, places.0, fault.number(), places);
        }
    };
    let sizes = found.sizes;
    let book = ListBook::new(
        sizes.conditions,
        sizes.remedies,
        sizes.parts,
        &records[..found.count],
        &worths[..sizes.conditions],
    )
    .unwrap();
    let lines = lines_of(heap, parts)?;
    served(heap, sizes, book, lines.as_slice())
}

// What is printed of an input: a line or more for each line of its script, or the first fault of its book file. The
// one thing that is open is whether there is memory.
pub fn desk(heap: Global, input: &[u8]) -> Result<String, AllocError>
    ensures { IfOk result (λ s. DeskAnswers input.now (string_bytes s)) }
{
    if input.len() > LONGEST {
        return refused(heap, 0, 25, (0, 0, 0));
    }
    let mut records = vec![in heap; Record::default(); RECORDS]?;
    let mut worths = vec![in heap; 0; CONDITIONS]?;
    told(
        heap,
        Parts::of(input),
        records.as_mut_slice(),
        worths.as_mut_slice(),
    )
}
