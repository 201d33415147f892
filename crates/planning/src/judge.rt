ghost use Rattle.std.specs.Prelude.{length};
ghost use Rattle.model.specs.Model.{offers};
ghost use Rattle.checks.specs.Acceptance.{InOrder};
ghost use Rattle.planning.specs.Tables.{Valued, RowsWritten};
ghost use Rattle.planning.specs.Judgements.{JudgeAnswers};

use super::rows::close_row;
use super::stage::Stage;
use checks::ready::check_judgement;
use checks::refusal::PlanRefusal;
use criteria::criterion::Criterion;
use model::Book;
use model::row::Row;

// Fills the table of values of a table of remedies, the last visit first. It is the walk of a plan, but reads the remedies:
// one walk for both takes a trait, with clauses for a table that is read or written, and two structs, and is longer.
fn fill_values<B: Book, C: Criterion>(
    book: &B,
    by: &C,
    visits: usize,
    remedies: &[u8],
    values: &mut [C::Value],
)
    requires { InOrder (offers (B.model book.now)) visits (length values.old) (length remedies.now) }
    ensures { RowsWritten (C.ops by.now) (B.model book.now) (Valued (C.ops by.now) (B.model book.now)) visits 0 values.old values.new remedies.now remedies.now }
{
    let conditions = book.conditions();
    let filled = visits * conditions;
    let mut outcomes = Row::new();
    close_row(book, by, &mut values[filled..filled + conditions]);
    for past in (0..visits).rev() {
        let start = past * conditions;
        let next = start + conditions;
        let (before, after) = values.split_at_mut(next);
        let stage = Stage::new(book, by, visits, past, after);
        stage.judge_row(&mut before[start..], &remedies[start..next], &mut outcomes);
    }
}

// Judges a table of remedies: fills the table of its values, or says why not and leaves it. Each table is lent by
// itself.
#[tactic(auto, using(crate::proofs::Plans::values_are))]
pub fn judge<B: Book, C: Criterion>(
    book: &B,
    by: &C,
    visits: usize,
    remedies: &[u8],
    values: &mut [C::Value],
) -> Result<usize, PlanRefusal>
    ensures answers { JudgeAnswers (C.ops by.now) (B.model book.now) visits result values.old values.new remedies.now }
{
    let filled = check_judgement(book, visits, values.len(), remedies)?;
    fill_values(book, by, visits, remedies, values);
    Ok(filled)
}
