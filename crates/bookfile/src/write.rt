// Writing a list book as a book file into a lent buffer.
ghost use Rattle.std.specs.Prelude.{◌≡◌, ◌+◌, ◌<◌, ◌≤◌, [], ◌++◌, length, take, slice_index_or, IfOk, MatchResult};
ghost use Rattle.arrayvec.specs.ArrayString.{array_string_len};
ghost use Rattle.model.specs.Tables.{KeptPast};
ghost use Rattle.bookfile.specs.File.{render};
ghost use Rattle.bookfile.specs.FileFaults.{LawfulBook};
ghost use Rattle.bookfile.specs.FileCalls.{WriteAnswers};
ghost use Rattle.bookfile.specs.Writing.{book_of, lines_of, BeginsWith, ReadBack};

use super::refusal::WriteRefusal;
use super::text::{Text, end_text, record_text, sizes_text, worth_text};
use books::list::ListBook;

// How many lines there are: the sizes, each record, each worth, the end.
#[tactic(auto, using(crate::proofs::Writing::count_of_lines))]
fn line_count(book: &ListBook<'_>) -> usize
    ensures { result ≡ length (lines_of (book_of book.now)) }
{
    book.records().len() + book.worths().len() + 2
}

// One of them, by its index.
#[tactic(auto, using(crate::proofs::Writing::first_line, crate::proofs::Writing::record_line_at, crate::proofs::Writing::last_line))]
fn line_text(book: &ListBook<'_>, index: usize) -> Text
    requires { index < length (lines_of (book_of book.now)) }
    ensures { result.bytes ≡ slice_index_or (lines_of (book_of book.now)) index [] }
{
    let records = book.records();
    let worths = book.worths();
    if index == 0 {
        sizes_text(book)
    } else if index <= records.len() {
        record_text(&records[index - 1])
    } else if index <= records.len() + worths.len() {
        let condition = index - records.len() - 1;
        worth_text(condition, worths[condition])
    } else {
        end_text()
    }
}

// Whether the file has room in so many bytes.
#[tactic(auto, using(crate::proofs::Writing::front_none, crate::proofs::Writing::front_longer, crate::proofs::Writing::front_all, crate::proofs::Writing::front_within))]
fn check(book: &ListBook<'_>, room: usize) -> Result<(), WriteRefusal>
    ensures { MatchResult result (λ _. length (render (book_of book.now)) ≤ room) (λ e. (e ≡ WriteRefusal.Short) × (room < length (render (book_of book.now)))) }
{
    let mut left = room;
    for index in 0..line_count(book) {
        let length = line_text(book, index).len();
        if length > left {
            return Err(WriteRefusal::Short);
        }
        left -= length;
    }
    Ok(())
}

// Writes a line from a place on, and answers the place after it.
#[tactic(auto, using(std::proofs::lemmas::Slice::overwrites))]
fn put(buffer: &mut [u8], at: usize, text: &Text) -> usize
    requires { at + array_string_len text.now ≤ length buffer.old }
    ensures end { result ≡ at + array_string_len text.now }
    ensures bytes { take result buffer.new ≡ take at buffer.old ++ text.now.bytes }
    ensures kept { KeptPast result buffer.old buffer.new }
{
    let end = at + text.len();
    buffer[at..end].copy_from_slice(text.as_str().as_bytes());
    end
}

// Writes the file of a book that has room, and answers its length.
#[tactic(auto, using(crate::proofs::Writing::front_within))]
fn fill(book: &ListBook<'_>, buffer: &mut [u8]) -> usize
    requires { length (render (book_of book.now)) ≤ length buffer.old }
    ensures { BeginsWith (render (book_of book.now)) result buffer.old buffer.new }
{
    let mut at = 0;
    for index in 0..line_count(book) {
        at = put(buffer, at, &line_text(book, index));
    }
    at
}

// Writes the book file of a list book, and answers its length. A buffer that is too short is left as it was.
pub fn write(book: &ListBook<'_>, buffer: &mut [u8]) -> Result<usize, WriteRefusal>
    ensures answer { WriteAnswers WriteRefusal.Short (book_of book.now) result buffer.old buffer.new }
    ensures lawful { LawfulBook (book_of book.now) }
    ensures read_back { IfOk result (λ n. ReadBack (book_of book.now) (take n buffer.new)) }
{
    check(book, buffer.len())?;
    Ok(fill(book, buffer))
}
