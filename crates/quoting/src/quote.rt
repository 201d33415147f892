// From the bytes of an input to its plan.
ghost use Rattle.std.specs.Prelude.{◌≡◌, MatchResult, length};
ghost use Rattle.books.specs.Means.{list_means};
ghost use Rattle.fields.specs.Views.{reported_line};
ghost use Rattle.bookfile.specs.Entries.{Readable};
ghost use Rattle.bookfile.specs.FileFaults.{LawfulBook};
ghost use Rattle.planning.specs.Plans.{PlanAnswers};
ghost use Rattle.quoting.specs.Asking.{criterion};
ghost use Rattle.quoting.specs.Inputs.{Questioned, QuestionFaulty};
ghost use Rattle.quoting.specs.Quotes.{meaning_of, book_held, QuoteAnswers};

use super::fault::Fault;
use super::question::{Asked, By, asked_in};
use super::tables::{Quote, Tables};
use bookfile::read::{ReadBook, read};
use books::list::ListBook;
use books::record::Record;
use checks::refusal::PlanRefusal;
use criteria::floor::Floor;
use criteria::mean::Mean;
use fields::faults::LineFault;
use fields::lines::cut_line;
use model::Book;
use totals::plan::plan_totals;

// The most bytes that an input may have.
pub const LONGEST: usize = 32768;

// What is asked by the line that the bytes begin with, line 0, and the bytes after it.
#[tactic(auto, using(crate::proofs::Steps::no_question, crate::proofs::Steps::wrong_question, crate::proofs::Steps::right_question))]
fn question_in(bytes: &[u8]) -> Result<(Asked, &[u8]), LineFault>
    ensures { MatchResult result (λ p. Questioned bytes.now p.0 p.1.now) (λ e. QuestionFaulty bytes.now (reported_line e)) }
{
    let (line, rest) = cut_line(0, bytes)?;
    Ok((asked_in(line)?, rest))
}

// The book of a file that was read into a list and a table. What a file holds is always a book.
fn book_in<'a>(found: ReadBook, records: &'a [Record], worths: &'a [i64]) -> ListBook<'a>
    requires readable { Readable found (length records.now) (length worths.now) }
    requires lawful { LawfulBook (book_held found records.now worths.now) }
    ensures { list_means result ≡ meaning_of (book_held found records.now worths.now) }
{
    let sizes = found.sizes;
    ListBook::new(
        sizes.conditions,
        sizes.remedies,
        sizes.parts,
        &records[..found.count],
        &worths[..sizes.conditions],
    )
    .unwrap()
}

// Plans by the criterion that is asked for: one of two, known when the input is read.
fn planned<B: Book>(
    book: &B,
    asked: Asked,
    values: &mut [i64],
    remedies: &mut [u8],
) -> Result<usize, PlanRefusal>
    ensures { PlanAnswers (criterion asked.by) (B.model book.now) asked.visits result values.old values.new remedies.old remedies.new }
{
    match asked.by {
        By::Mean => plan_totals::<Mean, _>(book, asked.visits, values, remedies),
        By::Floor => plan_totals::<Floor, _>(book, asked.visits, values, remedies),
    }
}

// Reads the input, plans in the tables, and answers what was planned or the first fault of any layer.
pub fn quote(bytes: &[u8], tables: &mut Tables) -> Result<Quote, Fault>
    ensures { QuoteAnswers bytes.now result tables.old tables.new }
{
    if bytes.len() > LONGEST {
        return Err(Fault::Long);
    }
    let (asked, file) = question_in(bytes)?;
    let found = read(
        file,
        tables.records.as_mut_slice(),
        tables.worths.as_mut_slice(),
    )?;
    let book = book_in(found, tables.records.as_slice(), tables.worths.as_slice());
    let entries = planned(
        &book,
        asked,
        tables.values.as_mut_slice(),
        tables.remedies.as_mut_slice(),
    )?;
    Ok(Quote {
        conditions: found.sizes.conditions,
        entries,
    })
}
