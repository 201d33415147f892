// What holds of the book file; each contract is a theorem.
ghost use Rattle.bookfile.specs.Reading.{ReadingIsExact, ReadThenWritten, WrittenThenRead, OneBookAFile, OneFileABook};

// Reading accepts the files of lawful books alone and finds the first fault of all other bytes; a file read and
// written is the same bytes, and a book written and read the same book.
pub fn reading_is_exact()
    ensures exact { ReadingIsExact }
    ensures same_file { ReadThenWritten }
    ensures same_book { WrittenThenRead }
    ensures one_book { OneBookAFile }
    ensures one_file { OneFileABook }
{}
