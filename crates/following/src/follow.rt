ghost use Rattle.std.specs.Prelude.{◌≡◌};
ghost use Rattle.following.specs.Refusals.{unfollowed_number, unfollowed_places};
ghost use Rattle.following.specs.Following.{RoundAnswers, LeadsOn};
ghost use Rattle.following.specs.declared.follow.Unfollowed.TheVariants.{Plan, Begin};

use super::call::Turn;
use super::lock::Lock;
use checks::refusal::PlanRefusal;
use criteria::floor::Floor;
use model::Book;
use rounds::refusal::RoundRefusal;
use rounds::state::begin;
use totals::plan::plan_totals;

// Why no round was led.
#[derive(Clone, Copy, Debug, PartialEq)]
pub enum Unfollowed {
    // The plan was declined.
    Plan(PlanRefusal),
    // It was not begun.
    Begin(RoundRefusal),
}

// By hand: a derived one promises nothing of the refusal that comes out.
impl From<PlanRefusal> for Unfollowed {
    ghost from_gives = { λ e r. r ≡ Plan e };

    fn from(e: PlanRefusal) -> Unfollowed {
        Unfollowed::Plan(e)
    }
}

impl From<RoundRefusal> for Unfollowed {
    ghost from_gives = { λ e r. r ≡ Begin e };

    fn from(e: RoundRefusal) -> Unfollowed {
        Unfollowed::Begin(e)
    }
}

impl Unfollowed {
    // The number that it is reported by.
    pub fn number(&self) -> u32
        ensures { result ≡ unfollowed_number self.now }
    {
        match self {
            Unfollowed::Plan(e) => e.number(),
            Unfollowed::Begin(e) => e.number(),
        }
    }

    // Three places are printed of every fault, 0 where there is none.
    pub fn places(&self) -> (usize, usize, usize)
        ensures { result ≡ unfollowed_places self.now }
    {
        match self {
            Unfollowed::Plan(e) => e.places(),
            Unfollowed::Begin(e) => e.places(),
        }
    }
}

// Makes the calls one after another, until the state allows the next no more; answers how many were made.
fn lead<B: Book>(book: &B, remedies: &[u8], mut lock: Lock, turns: &mut [Turn]) -> usize
    ensures { LeadsOn (B.model book.now) remedies.now lock result turns.old turns.new }
{
    let mut made = 0;
    for turn in turns {
        let (reply, after) = lock.reply(book, remedies, turn.call);
        turn.reply = reply;
        lock = after;
        made += usize::from(reply.is_some());
    }
    made
}

// Plans by the floor, begins, and makes the calls by the plan's remedies as far as the lock's states allow: answers how
// many were made, or why there is no round. The turns past them have no reply.
pub fn follow<B: Book>(
    book: &B,
    visits: usize,
    condition: usize,
    values: &mut [i64],
    remedies: &mut [u8],
    turns: &mut [Turn],
) -> Result<usize, Unfollowed>
    ensures { RoundAnswers (B.model book.now) visits condition result values.old values.new remedies.old remedies.new turns.old turns.new }
{
    plan_totals::<Floor, B>(book, visits, values, remedies)?;
    let arrived = begin(book, visits, condition)?;
    Ok(lead(book, remedies, Lock::Waiting(arrived), turns))
}
