// What is wrong with a book file. Lines and fields count from 1.
ghost use Rattle.std.specs.Prelude.{◌≡◌};
ghost use Rattle.bookfile.specs.Faults.{file_fault_number, file_fault_places};
ghost use Rattle.bookfile.specs.declared.faults.FileFault.TheVariants.{Line};

use fields::faults::LineFault;

#[derive(Clone, Copy, Debug, PartialEq)]
pub enum FileFault {
    Line(LineFault),
    // A record that does not rise, or a worth out of turn.
    Order { line: usize },
    // The list of records or the table of worths is full.
    Space { line: usize },
    // Bytes after the last line.
    Surplus { line: usize },
}

// By hand: a derived one promises nothing of the fault that comes out.
impl From<LineFault> for FileFault {
    ghost from_gives = { λ e r. r ≡ Line e };

    fn from(e: LineFault) -> FileFault {
        FileFault::Line(e)
    }
}

impl FileFault {
    pub fn number(&self) -> u32
        ensures { result ≡ file_fault_number self.now }
    {
        match self {
            Self::Line(e) => e.number(),
            Self::Order { .. } => 24,
            Self::Space { .. } => 25,
            Self::Surplus { .. } => 26,
        }
    }

    // Three places are printed of every fault, 0 where there is none.
    pub fn places(&self) -> (usize, usize, usize)
        ensures { result ≡ file_fault_places self.now }
    {
        match *self {
            Self::Line(e) => e.places(),
            Self::Order { line } | Self::Space { line } | Self::Surplus { line } => (line, 0, 0),
        }
    }
}
