// The text of each line of a book file.
ghost use Rattle.std.specs.Prelude.{◌≡◌, ◌+◌, ◌<◌, ◌≤◌, [], ◌∷◌, ◌++◌};
ghost use Rattle.arrayvec.specs.ArrayString.{array_string_len};
ghost use Rattle.fields.specs.Numerals.{numeral, signed};
ghost use Rattle.fields.specs.Lines.{line};
ghost use Rattle.bookfile.specs.File.{size_fields, record_fields, worth_fields};
ghost use Rattle.bookfile.specs.Writing.{book_of};

use arrayvec::ArrayString;
use books::list::ListBook;
use books::record::Record;
use fields::spelling::digits_of;
use model::Book;

// Room for a letter, five numbers of 20 digits, each after a tab, a minus and a newline.
pub(crate) type Text = ArrayString<108>;

// A line of which the letter stands.
fn begun(letter: char) -> Text
    requires { letter < 128 }
    ensures { result.bytes ≡ letter ∷ [] }
{
    let mut text = Text::new();
    text.push(letter);
    text
}

// A field more: a number.
fn add(text: &mut Text, number: u64)
    requires { array_string_len text.old + 21 ≤ 108 }
    ensures field { text.new.bytes ≡ text.old.bytes ++ 9 ∷ numeral number }
    ensures long { array_string_len text.new ≤ array_string_len text.old + 21 }
{
    text.push('\t');
    text.push_str(digits_of(number).as_str());
}

// A field more: a number with a sign.
fn add_signed(text: &mut Text, number: i64)
    requires { array_string_len text.old + 22 ≤ 108 }
    ensures field { text.new.bytes ≡ text.old.bytes ++ 9 ∷ signed number }
    ensures long { array_string_len text.new ≤ array_string_len text.old + 22 }
{
    text.push('\t');
    if number < 0 {
        text.push('-');
    }
    text.push_str(digits_of(number.unsigned_abs()).as_str());
}

// The first line.
pub(crate) fn sizes_text(book: &ListBook<'_>) -> Text
    ensures { result.bytes ≡ line 66 (size_fields (book_of book.now)) }
{
    let mut text = begun('B');
    add(&mut text, book.conditions() as u64);
    add(&mut text, book.remedies() as u64);
    add(&mut text, u64::from(book.parts()));
    text.push('\n');
    text
}

pub(crate) fn record_text(record: &Record) -> Text
    ensures { result.bytes ≡ line 82 (record_fields «record».now) }
{
    let mut text = begun('R');
    add(&mut text, record.condition as u64);
    add(&mut text, record.remedy as u64);
    add(&mut text, record.next as u64);
    add(&mut text, u64::from(record.share));
    add_signed(&mut text, record.amount);
    text.push('\n');
    text
}

pub(crate) fn worth_text(condition: usize, worth: i64) -> Text
    ensures { result.bytes ≡ line 67 (worth_fields condition worth) }
{
    let mut text = begun('C');
    add(&mut text, condition as u64);
    add_signed(&mut text, worth);
    text.push('\n');
    text
}

// The last line.
pub(crate) fn end_text() -> Text
    ensures { result.bytes ≡ line 69 [] }
{
    let mut text = begun('E');
    text.push('\n');
    text
}
