// What a line of a script says.
ghost use Rattle.std.specs.Prelude.{◌≡◌};

use fields::faults::{FieldFault, LineFault};
use following::call::RoundCall;
use quoting::question::By;
use std::alloc::{AllocError, AllocFailed};

// A call that changes the notes of the sheet.
#[derive(Clone, Copy)]
pub enum NoteCall {
    Bar {
        condition: usize,
        remedy: usize,
        first: usize,
        last: usize,
    },
    Surcharge {
        remedy: usize,
        amount: i64,
        first: usize,
        last: usize,
    },
    Prolong {
        place: usize,
        last: usize,
    },
    Lift {
        place: usize,
    },
}

// A call on the sheet, or one of the round that was begun before. The tables of a plan are not written in a script.
#[derive(Drop)]
pub enum Command {
    Note(NoteCall),
    Plan {
        by: By,
        visits: usize,
    },
    Judge {
        by: By,
        visits: usize,
        remedies: Vec<u8>,
    },
    Begin {
        visits: usize,
        condition: usize,
    },
    Turn(RoundCall),
}

// Why a line gives no command.
#[derive(Drop)]
pub(crate) enum Unread {
    Faulty(LineFault),
    // There was no memory for its table.
    NoMemory(AllocError),
}

// These by hand: a derived one promises nothing of the fault that comes out.
impl From<LineFault> for Unread {
    ghost use Rattle.script.specs.declared.command.Unread.TheVariants.{Faulty};

    ghost from_gives = { λ e r. r ≡ Faulty e };

    fn from(e: LineFault) -> Unread {
        Unread::Faulty(e)
    }
}

impl From<FieldFault> for Unread {
    ghost use Rattle.script.specs.declared.command.Unread.TheVariants.{Faulty};
    ghost use Rattle.fields.specs.declared.faults.LineFault.TheVariants.{Field};

    ghost from_gives = { λ e r. r ≡ Faulty (Field e) };

    fn from(e: FieldFault) -> Unread {
        Unread::Faulty(e.into())
    }
}

impl<T: Drop> From<AllocFailed<T>> for Unread {
    ghost use Rattle.std.specs.Prelude.{alloc_error};
    ghost use Rattle.script.specs.declared.command.Unread.TheVariants.{NoMemory};

    ghost from_gives = { λ e r. r ≡ NoMemory alloc_error };

    fn from(_e: AllocFailed<T>) -> Unread {
        Unread::NoMemory(AllocError)
    }
}
