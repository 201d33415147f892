ghost use Rattle.std.specs.Prelude.{length, OnOk};
ghost use Rattle.planning.specs.Plans.{PlanAnswers, StuckExactly};

use super::totalled::Totalled;
use checks::refusal::PlanRefusal;
use model::Book;
use planning::plan::plan;

// Plans by a criterion of totals. The values are the totals of the plan, and no policy has greater ones.
#[tactic(auto, using(crate::proofs::Behind::planned_totals, crate::proofs::Behind::planned_greatest))]
pub fn plan_totals<C: Totalled, B: Book>(
    book: &B,
    visits: usize,
    values: &mut [i64],
    remedies: &mut [u8],
) -> Result<usize, PlanRefusal>
    ensures answers { PlanAnswers C.operations (B.model book.now) visits result values.old values.new remedies.old remedies.new }
    ensures stuck { StuckExactly (B.model book.now) visits (length values.old) (length remedies.old) result }
    ensures totals { OnOk result (C.totals (B.model book.now) visits remedies.new values.new) }
    ensures greatest { OnOk result (C.greatest (B.model book.now) visits remedies.new) }
{
    let by = C::for_parts(book.parts());
    plan(book, &by, visits, values, remedies)
}
