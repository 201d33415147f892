// The words that lines of a script begin with.
ghost use Rattle.std.specs.Prelude.{◌≡◌, length, MatchResult};
ghost use Rattle.fields.specs.Views.{bytes_of};
ghost use Rattle.script.specs.Words.{text_of, word_in};
ghost use Rattle.script.specs.Orders.{form};

use fields::faults::FieldFault;
use fields::parts::{Field, Placed};

#[derive(Clone, Copy)]
pub(crate) enum Word {
    Bar,
    Surcharge,
    Prolong,
    Lift,
    Plan,
    Judge,
    Begin,
    Treat,
    Report,
    Settle,
}

const WORDS: [Word; 10] = [
    Word::Bar,
    Word::Surcharge,
    Word::Prolong,
    Word::Lift,
    Word::Plan,
    Word::Judge,
    Word::Begin,
    Word::Treat,
    Word::Report,
    Word::Settle,
];

impl Word {
    fn text(self) -> &'static [u8]
        ensures { result.now ≡ text_of self }
    {
        match self {
            Word::Bar => b"bar",
            Word::Surcharge => b"surcharge",
            Word::Prolong => b"prolong",
            Word::Lift => b"lift",
            Word::Plan => b"plan",
            Word::Judge => b"judge",
            Word::Begin => b"begin",
            Word::Treat => b"treat",
            Word::Report => b"report",
            Word::Settle => b"settle",
        }
    }

    // How many fields must follow it, where so many do: after `judge` there may be any number of remedies.
    pub(crate) fn fields(self, count: usize) -> usize
        ensures { result ≡ length (form self count) }
    {
        match self {
            Word::Treat | Word::Settle => 0,
            Word::Lift | Word::Report => 1,
            Word::Prolong | Word::Plan | Word::Begin => 2,
            Word::Bar | Word::Surcharge => 4,
            Word::Judge => count.max(2),
        }
    }

    // The word that a field is.
    pub(crate) fn of(field: Placed<'_>) -> Result<Word, FieldFault>
        ensures { MatchResult result (λ w. word_in (bytes_of field.entry.field) ≡ Some w) (λ e. (word_in (bytes_of field.entry.field) ≡ None) × (e ≡ FieldFault.Letter field.entry.line field.entry.place)) }
    {
        let found = match field.field {
            Field::Other(text) => WORDS.iter().copied().find(|word| word.text() == text),
            _ => None,
        };
        found.ok_or(field.wrong_letter())
    }
}
