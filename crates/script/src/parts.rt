// The two parts of an input.
ghost use Rattle.std.specs.Prelude.{◌≡◌, ◌+◌, ◌<◌, ◌^◌, ◌++◌, length};

use fields::lines::cut_line;

// A book file and a script, and the number of the script's first line.
#[derive(Clone, Copy)]
pub struct Parts<'a> {
    pub book: &'a [u8],
    pub script: &'a [u8],
    pub first: usize,
    ghost numbered: { first + length script.now < 2 ^ 64 },
}

impl<'a> Parts<'a> {
    ghost use Rattle.script.specs.Parts.{book_part, newlines, script_of, script_from};

    // The book's part goes up to and with the first line that begins with `E`; without one it is all of the input.
    pub fn of(input: &'a [u8]) -> Parts<'a>
        ensures whole { result.book.now ++ result.script.now ≡ input.now }
        ensures first { result.first ≡ 1 + newlines result.book.now }
        ensures book { result.book.now ≡ book_part input.now }
        ensures script { script_from result.first result.script.now ≡ script_of input.now }
    {
        let mut rest = input;
        let mut first = 1;
        while let Ok((line, after)) = cut_line(first, rest) {
            rest = after;
            first += 1;
            if line.text.starts_with(b"E") {
                let (book, script) = input.split_at(input.len() - rest.len());
                return Parts {
                    book,
                    script,
                    first,
                };
            }
        }
        Parts {
            book: input,
            script: &[],
            first,
        }
    }
}
