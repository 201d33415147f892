// A list of calls on one sheet.
ghost use Rattle.std.specs.Prelude.{◌≡◌};
ghost use Rattle.service.specs.Calls.{standing, standing_after};
ghost use Rattle.service.specs.Serving.{Answers, Served};

use super::call::{Call, CallRefusal, Request};
use criteria::criterion::Criterion;
use following::follow::follow;
use model::Book;
use planning::judge::judge;
use planning::plan::plan;
use sheets::sheet::Sheet;

// One call, under the notes that stand.
#[tactic(auto, using(crate::proofs::Performed::judged, crate::proofs::Performed::planned, crate::proofs::Performed::led, crate::proofs::Performed::taken_up))]
fn perform<B: Book, C: Criterion>(
    sheet: &mut Sheet<B>,
    call: &mut Call<C, C::Value>,
) -> Result<usize, CallRefusal>
    ensures answers { Answers C.ops (B.Book.model sheet.old.book) sheet.old.notes call.old result call.new }
    ensures notes { sheet.new.notes ≡ standing (B.Book.model sheet.old.book) sheet.old.notes call.old }
    ensures book { sheet.new.book ≡ sheet.old.book }
{
    match *call {
        Call::Bar {
            condition,
            remedy,
            first,
            last,
        } => sheet
            .bar(condition, remedy, first, last)
            .map_err(CallRefusal::from),
        Call::Surcharge {
            remedy,
            amount,
            first,
            last,
        } => sheet
            .surcharge(remedy, amount, first, last)
            .map_err(CallRefusal::from),
        Call::Prolong { place, last } => sheet.prolong(place, last).map_err(CallRefusal::from),
        Call::Lift { place } => sheet.lift(place).map_err(CallRefusal::from),
        Call::Judge {
            ref mut criterion,
            ref mut visits,
            ref mut values,
            ref mut remedies,
        } => judge(&*sheet, criterion, *visits, remedies, values).map_err(CallRefusal::from),
        Call::Plan {
            ref mut criterion,
            ref mut visits,
            ref mut values,
            ref mut remedies,
        } => plan(&*sheet, criterion, *visits, values, remedies).map_err(CallRefusal::from),
        Call::Round {
            ref mut visits,
            ref mut condition,
            ref mut values,
            ref mut remedies,
            ref mut turns,
        } => follow(&*sheet, *visits, *condition, values, remedies, turns).map_err(
            CallRefusal::from,
        ),
    }
}

// Performs every call in order, each under the notes standing when it comes, and writes each answer beside its call.
// A call that is declined changes nothing, and the next is performed like any other.
pub fn serve<B: Book, C: Criterion>(sheet: &mut Sheet<B>, requests: &mut [Request<C, C::Value>])
    ensures served { Served C.ops (B.Book.model sheet.old.book) sheet.old.notes requests.old requests.new }
    ensures notes { sheet.new.notes ≡ standing_after (B.Book.model sheet.old.book) sheet.old.notes requests.old }
    ensures book { sheet.new.book ≡ sheet.old.book }
{
    for request in requests.iter_mut() {
        request.answer = Some(perform(sheet, &mut request.call));
    }
}
