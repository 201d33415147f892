ghost use Rattle.std.specs.Prelude.{OnOk};
ghost use Rattle.planning.specs.Judgements.{JudgeAnswers};

use super::totalled::Totalled;
use checks::refusal::PlanRefusal;
use model::Book;
use planning::judge::judge;

// Judges a table of remedies by a criterion of totals. The values are the totals of the table.
#[tactic(auto, using(crate::proofs::Behind::judged_totals))]
pub fn judge_totals<C: Totalled, B: Book>(
    book: &B,
    visits: usize,
    remedies: &[u8],
    values: &mut [i64],
) -> Result<usize, PlanRefusal>
    ensures answers { JudgeAnswers C.operations (B.model book.now) visits result values.old values.new remedies.now }
    ensures totals { OnOk result (C.totals (B.model book.now) visits remedies.now values.new) }
{
    let by = C::for_parts(book.parts());
    judge(book, &by, visits, remedies, values)
}
