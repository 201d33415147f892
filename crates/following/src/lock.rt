ghost use Rattle.following.specs.Runs.{Replied};

use super::call::{Reply, RoundCall};
use model::Book;
use rounds::state::{Arrived, Treated};

// A lock in its round: it waits for a remedy or for settling, or is in care, or the round is over.
#[derive(Drop)]
pub enum Lock {
    Waiting(Arrived),
    InCare(Treated),
    Done,
}

impl Lock {
    // Makes a call. Where the state does not allow it, there is no reply, and the round is over.
    #[tactic(auto, using(crate::proofs::Steps::treated, crate::proofs::Steps::not_treated, crate::proofs::Steps::reported, crate::proofs::Steps::not_reported, crate::proofs::Steps::settled, crate::proofs::Steps::not_settled))]
    pub(crate) fn reply<B: Book>(
        self,
        book: &B,
        remedies: &[u8],
        call: RoundCall,
    ) -> (Option<Reply>, Lock)
        ensures { Replied (B.model book.now) remedies.now self call result.0 result.1 }
    {
        match (self, call) {
            (Lock::Waiting(arrived), RoundCall::Treat) => match arrived.treat(book, remedies) {
                Ok(treated) => {
                    let remedy = treated.remedy();
                    (Some(Reply::Treated { remedy }), Lock::InCare(treated))
                }
                Err(declined) => (
                    Some(Reply::Declined(declined.refusal)),
                    Lock::Waiting(declined.state),
                ),
            },
            (Lock::InCare(treated), RoundCall::Report { next }) => match treated.report(
                book, next,
            ) {
                Ok(arrived) => (Some(Reply::Reported), Lock::Waiting(arrived)),
                Err(declined) => (
                    Some(Reply::Declined(declined.refusal)),
                    Lock::InCare(declined.state),
                ),
            },
            (Lock::Waiting(arrived), RoundCall::Settle) => match arrived.settle(book) {
                Ok(total) => (Some(Reply::Settled { total }), Lock::Done),
                Err(declined) => (
                    Some(Reply::Declined(declined.refusal)),
                    Lock::Waiting(declined.state),
                ),
            },
            _ => (None, Lock::Done),
        }
    }
}
