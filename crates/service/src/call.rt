// The calls that a list may hold, and how each is answered.
ghost use Rattle.std.specs.Prelude.{◌≡◌, None};
ghost use Rattle.service.specs.declared.call.CallRefusal.TheVariants as refusal;
ghost use Rattle.service.specs.Refusals.{call_number, call_places};

use checks::refusal::PlanRefusal;
use following::call::Turn;
use following::follow::Unfollowed;
use sheets::refusal::NoteRefusal;

// A call on a sheet. C are criteria, V their values; the tables of a plan or a judgement belong to the call.
#[derive(Drop)]
pub enum Call<C, V> {
    // Bars the remedy in the condition for these visits.
    Bar {
        condition: usize,
        remedy: usize,
        first: usize,
        last: usize,
    },
    // Adds the amount to the remedy's amounts for these visits.
    Surcharge {
        remedy: usize,
        amount: i64,
        first: usize,
        last: usize,
    },
    // Gives the note at the place another last visit.
    Prolong {
        place: usize,
        last: usize,
    },
    // Takes the note at the place out.
    Lift {
        place: usize,
    },
    // Fills the values of the remedies.
    Judge {
        criterion: C,
        visits: usize,
        values: Vec<V>,
        remedies: Vec<u8>,
    },
    // Fills both tables.
    Plan {
        criterion: C,
        visits: usize,
        values: Vec<V>,
        remedies: Vec<u8>,
    },
    // Plans by the floor, begins a round in the condition, and takes its turns by the plan's remedies.
    Round {
        visits: usize,
        condition: usize,
        values: Vec<i64>,
        remedies: Vec<u8>,
        turns: Vec<Turn>,
    },
}

// A call, and the place for its answer: the number that the call answers by itself, or why it is declined.
#[derive(Drop)]
pub struct Request<C, V> {
    pub call: Call<C, V>,
    pub answer: Option<Result<usize, CallRefusal>>,
}

// Why a call is declined: as the layer says that declines it.
#[derive(Clone, Copy, Debug, PartialEq)]
pub enum CallRefusal {
    Note(NoteRefusal),
    Plan(PlanRefusal),
    Round(Unfollowed),
}

impl<C, V> Request<C, V> {
    // A call that is not answered yet.
    pub fn new(call: Call<C, V>) -> Self
        ensures { (result.call ≡ call) × (result.answer ≡ None) }
    {
        Request { call, answer: None }
    }
}

// These by hand: a derived one promises nothing of the refusal that comes out.
impl From<NoteRefusal> for CallRefusal {
    ghost from_gives = { λ e r. r ≡ refusal.Note e };

    fn from(e: NoteRefusal) -> CallRefusal {
        CallRefusal::Note(e)
    }
}

impl From<PlanRefusal> for CallRefusal {
    ghost from_gives = { λ e r. r ≡ refusal.Plan e };

    fn from(e: PlanRefusal) -> CallRefusal {
        CallRefusal::Plan(e)
    }
}

impl From<Unfollowed> for CallRefusal {
    ghost from_gives = { λ e r. r ≡ refusal.Round e };

    fn from(e: Unfollowed) -> CallRefusal {
        CallRefusal::Round(e)
    }
}

impl CallRefusal {
    pub fn number(&self) -> u32
        ensures { result ≡ call_number self.now }
    {
        match self {
            CallRefusal::Note(e) => e.number(),
            CallRefusal::Plan(e) => e.number(),
            CallRefusal::Round(e) => e.number(),
        }
    }

    // Three places are printed of every fault, 0 where there is none.
    pub fn places(&self) -> (usize, usize, usize)
        ensures { result ≡ call_places self.now }
    {
        match self {
            CallRefusal::Note(e) => e.places(),
            CallRefusal::Plan(e) => e.places(),
            CallRefusal::Round(e) => e.places(),
        }
    }
}
