ghost use Rattle.std.specs.Prelude.{◌≡◌, Ok, Err, MatchOption};
ghost use Rattle.books.specs.declared.refusal.MakingRefusal.TheVariants.{Entry};
ghost use Rattle.books.specs.Refusals.{table_number, making_number, making_places};

// The tables that a book is made from; `Outcomes` are the shares, or the records of a list.
#[derive(Clone, Copy, Debug, PartialEq, Eq)]
pub enum Table {
    Outcomes,
    Amounts,
    Worths,
}

impl Table {
    // The number by which it is told: tables count from 1.
    fn number(&self) -> usize
        ensures { result ≡ table_number self.now }
    {
        match self {
            Table::Outcomes => 1,
            Table::Amounts => 2,
            Table::Worths => 3,
        }
    }

    // Refused for the entry at fault, if there is one.
    pub(crate) fn sound(self, fault: Option<usize>) -> Result<(), MakingRefusal>
        ensures { MatchOption fault (result ≡ Ok tt) (λ index. result ≡ Err (Entry self index)) }
    {
        match fault {
            Some(index) => Err(MakingRefusal::Entry { table: self, index }),
            None => Ok(()),
        }
    }
}

// Why a book is not made: its sizes, or an entry of one of its tables; entries count from 0.
#[derive(Clone, Copy, Debug, PartialEq, Eq)]
pub enum MakingRefusal {
    Size,
    Entry { table: Table, index: usize },
}

impl MakingRefusal {
    // The number by which it is told.
    pub fn number(&self) -> u32
        ensures { result ≡ making_number self.now }
    {
        match self {
            MakingRefusal::Size => 12,
            MakingRefusal::Entry { .. } => 13,
        }
    }

    // Where: three places are printed of every fault, 0 where there is none.
    pub fn places(&self) -> (usize, usize, usize)
        ensures { result ≡ making_places self.now }
    {
        match self {
            MakingRefusal::Size => (0, 0, 0),
            MakingRefusal::Entry { table, index } => (table.number(), *index, 0),
        }
    }
}
