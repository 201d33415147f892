// What is wrong with a field or a line. Fields count from 1, and so do the lines of a book file.
ghost use Rattle.std.specs.Prelude.{◌≡◌};
ghost use Rattle.fields.specs.Faults.{field_fault_number, field_fault_places, line_fault_number, line_fault_places};
ghost use Rattle.fields.specs.declared.faults.LineFault.TheVariants.{Field};

// Line and field stand in each case, as it is told.
#[derive(Clone, Copy, Debug, PartialEq)]
pub enum FieldFault {
    // A letter that may not stand there, or no letter at all.
    Letter { line: usize, field: usize },
    // Not a number as numbers are written.
    Malformed { line: usize, field: usize },
    // A number outside its limits.
    Range { line: usize, field: usize },
}

#[derive(Clone, Copy, Debug, PartialEq)]
pub enum LineFault {
    Field(FieldFault),
    // Too few or too many fields.
    Count { line: usize },
    // The line is missing, or has no newline.
    Unended { line: usize },
}

// By hand: a derived one promises nothing of the fault that comes out.
impl From<FieldFault> for LineFault {
    ghost from_gives = { λ e r. r ≡ Field e };

    fn from(e: FieldFault) -> LineFault {
        LineFault::Field(e)
    }
}

// Each kind of refusal has number and places by itself: nothing is generic over refusals.
impl FieldFault {
    pub fn number(&self) -> u32
        ensures { result ≡ field_fault_number self.now }
    {
        match self {
            FieldFault::Letter { .. } => 20,
            FieldFault::Malformed { .. } => 22,
            FieldFault::Range { .. } => 23,
        }
    }

    // Three places are printed of every fault, 0 where there is none.
    pub fn places(&self) -> (usize, usize, usize)
        ensures { result ≡ field_fault_places self.now }
    {
        match *self {
            FieldFault::Letter { line, field }
            | FieldFault::Malformed { line, field }
            | FieldFault::Range { line, field } => (line, field, 0),
        }
    }
}

impl LineFault {
    pub fn number(&self) -> u32
        ensures { result ≡ line_fault_number self.now }
    {
        match self {
            LineFault::Field(e) => e.number(),
            LineFault::Count { .. } => 21,
            LineFault::Unended { .. } => 26,
        }
    }

    // Three places are printed of every fault, 0 where there is none.
    pub fn places(&self) -> (usize, usize, usize)
        ensures { result ≡ line_fault_places self.now }
    {
        match self {
            LineFault::Field(e) => e.places(),
            LineFault::Count { line } | LineFault::Unended { line } => (*line, 0, 0),
        }
    }
}
