ghost use Rattle.std.specs.Prelude.{length};
ghost use Rattle.model.specs.Model.{offers};
ghost use Rattle.model.specs.Visits.{Open};
ghost use Rattle.checks.specs.Acceptance.{InOrder};
ghost use Rattle.planning.specs.Tables.{Chosen, RowsWritten};
ghost use Rattle.planning.specs.Plans.{PlanAnswers, StuckExactly};

use super::rows::close_row;
use super::stage::Stage;
use checks::ready::check_plan;
use checks::refusal::PlanRefusal;
use criteria::criterion::Criterion;
use model::Book;
use model::row::Row;

// Fills both tables, the last visit first. A judgement walks by itself; judge.rt says why.
fn fill<B: Book, C: Criterion>(
    book: &B,
    by: &C,
    visits: usize,
    values: &mut [C::Value],
    remedies: &mut [u8],
)
    requires order { InOrder (offers (B.model book.now)) visits (length values.old) (length remedies.old) }
    requires offers { Open (offers (B.model book.now)) visits }
    ensures { RowsWritten (C.ops by.now) (B.model book.now) (Chosen (C.ops by.now) (B.model book.now)) visits 0 values.old values.new remedies.old remedies.new }
{
    let conditions = book.conditions();
    let filled = visits * conditions;
    let mut outcomes = Row::new();
    close_row(book, by, &mut values[filled..filled + conditions]);
    for past in (0..visits).rev() {
        let start = past * conditions;
        let next = start + conditions;
        let (before, after) = values.split_at_mut(next);
        let stage = Stage::new(book, by, visits, past, after);
        stage.plan_row(
            &mut before[start..],
            &mut remedies[start..next],
            &mut outcomes,
        );
    }
}

// Plans the visits: fills both tables and answers how many remedies it named, or says why not and leaves them.
// Each table is lent by itself.
pub fn plan<B: Book, C: Criterion>(
    book: &B,
    by: &C,
    visits: usize,
    values: &mut [C::Value],
    remedies: &mut [u8],
) -> Result<usize, PlanRefusal>
    ensures answers { PlanAnswers (C.ops by.now) (B.model book.now) visits result values.old values.new remedies.old remedies.new }
    ensures stuck { StuckExactly (B.model book.now) visits (length values.old) (length remedies.old) result }
{
    let filled = check_plan(book, visits, values.len(), remedies.len())?;
    fill(book, by, visits, values, remedies);
    Ok(filled)
}
