ghost use Rattle.std.specs.Prelude.{◌≡◌};
ghost use Rattle.bookfile.specs.Refusals.{write_number, write_places};

// Why a book file is not written.
#[derive(Clone, Copy, Debug, PartialEq, Eq)]
pub enum WriteRefusal {
    // The buffer is too short for it.
    Short,
}

impl WriteRefusal {
    // The number by which it is told.
    pub fn number(&self) -> u32
        ensures { result ≡ write_number self.now }
    {
        match self {
            WriteRefusal::Short => 2,
        }
    }

    // Three places are printed of every fault, 0 where there is none.
    pub fn places(&self) -> (usize, usize, usize)
        ensures { result ≡ write_places self.now }
    {
        match self {
            WriteRefusal::Short => (0, 0, 0),
        }
    }
}
