// What is wrong with an input, from any layer.
ghost use Rattle.std.specs.Prelude.{◌≡◌};
ghost use Rattle.quoting.specs.Faults.{fault_number, fault_places};
ghost use Rattle.quoting.specs.declared.fault.Fault.TheVariants.{Question, File, Plan};

use bookfile::faults::FileFault;
use checks::refusal::PlanRefusal;
use fields::faults::LineFault;

#[derive(Clone, Copy)]
pub enum Fault {
    // More bytes than an input may have.
    Long,
    // In the line that asks, line 0.
    Question(LineFault),
    File(FileFault),
    Plan(PlanRefusal),
}

// These three by hand: a derived one promises nothing of the fault that comes out.
impl From<LineFault> for Fault {
    ghost from_gives = { λ e r. r ≡ Question e };

    fn from(e: LineFault) -> Fault {
        Fault::Question(e)
    }
}

impl From<FileFault> for Fault {
    ghost from_gives = { λ e r. r ≡ File e };

    fn from(e: FileFault) -> Fault {
        Fault::File(e)
    }
}

impl From<PlanRefusal> for Fault {
    ghost from_gives = { λ e r. r ≡ Plan e };

    fn from(e: PlanRefusal) -> Fault {
        Fault::Plan(e)
    }
}

impl Fault {
    pub fn number(&self) -> u32
        ensures { result ≡ fault_number self.now }
    {
        match self {
            Fault::Long => 25,
            Fault::Question(e) => e.number(),
            Fault::File(e) => e.number(),
            Fault::Plan(e) => e.number(),
        }
    }

    // Three places are printed of every fault, 0 where there is none.
    pub fn places(&self) -> (usize, usize, usize)
        ensures { result ≡ fault_places self.now }
    {
        match self {
            Fault::Long => (0, 0, 0),
            Fault::Question(e) => e.places(),
            Fault::File(e) => e.places(),
            Fault::Plan(e) => e.places(),
        }
    }
}
