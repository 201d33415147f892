ghost use Rattle.std.specs.Prelude.{◌≡◌};
ghost use Rattle.sheets.specs.Refusals.{number_of, places_of};

// Why a call on a sheet is declined.
#[derive(Clone, Copy, Debug, PartialEq)]
pub enum NoteRefusal {
    // No such condition, remedy or note.
    Unknown,
    // The visits are not in order within 1 to 48.
    Span,
    // The surcharge is beyond a million either way.
    Dear,
    // 24 notes stand already.
    Full,
}

impl NoteRefusal {
    pub fn number(&self) -> u32
        ensures { result ≡ number_of self.now }
    {
        match *self {
            NoteRefusal::Unknown => 3,
            NoteRefusal::Span => 4,
            NoteRefusal::Dear => 5,
            NoteRefusal::Full => 6,
        }
    }

    // Three places are printed of every fault, 0 where there is none.
    pub fn places(&self) -> (usize, usize, usize)
        ensures { result ≡ places_of self.now }
    {
        (0, 0, 0)
    }
}
