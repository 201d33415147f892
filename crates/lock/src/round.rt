// A round of the worked lock.
ghost use Rattle.std.specs.Prelude.{◌≡◌, Ok};
ghost use Rattle.lock.specs.Round.{round_turns};

use super::book::lock;
use following::call::{RoundCall, Turn};
use following::follow::{Unfollowed, follow};

// What a round answers, and its calls with their replies.
#[derive(Clone, Copy)]
pub struct Followed {
    pub answer: Result<usize, Unfollowed>,
    pub turns: [Turn; 6],
}

fn unanswered(call: RoundCall) -> Turn
    ensures { result.call ≡ call }
{
    Turn { call, reply: None }
}

// The floor plan for two visits is followed from condition 0; what cannot have come about is reported first.
pub fn follow_floor_plan() -> Followed
    ensures { result ≡ record { answer = Ok 6; turns = round_turns } }
{
    let mut values = [0; 12];
    let mut remedies = [0; 8];
    let mut turns = [
        unanswered(RoundCall::Treat),
        unanswered(RoundCall::Report { next: 0 }),
        unanswered(RoundCall::Report { next: 1 }),
        unanswered(RoundCall::Treat),
        unanswered(RoundCall::Report { next: 3 }),
        unanswered(RoundCall::Settle),
    ];
    let answer = follow(&lock(), 2, 0, &mut values, &mut remedies, &mut turns);
    Followed { answer, turns }
}
