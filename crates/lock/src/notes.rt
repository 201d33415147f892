// Plans of the worked lock under notes. Whether there is memory for a sheet is open.
ghost use Rattle.std.specs.Prelude.{◌≡◌, negsuc, Ok, Err};
ghost use Rattle.std.specs.Option.{ForSome};
ghost use Rattle.checks.specs.declared.refusal.PlanRefusal.TheVariants.{Fine, Stuck};
ghost use Rattle.books.specs.Means.{list_means};
ghost use Rattle.sheets.specs.Notes.{noted};
ghost use Rattle.lock.specs.Noted.{IsBlankLock, Answered, tied, untied};

use super::book::lock;
use books::list::ListBook;
use checks::refusal::PlanRefusal;
use criteria::floor::Floor;
use criteria::mean::Mean;
use sheets::refusal::NoteRefusal;
use sheets::sheet::Sheet;
use std::alloc::Global;
use totals::plan::plan_totals;

// What a note and then a plan for one visit answer, with the plan's tables.
#[derive(Clone, Copy)]
pub struct OneVisit {
    pub note: Result<usize, NoteRefusal>,
    pub answer: Result<usize, PlanRefusal>,
    pub values: [i64; 8],
    pub remedies: [u8; 4],
}

#[derive(Clone, Copy)]
pub struct Longest {
    pub eleven: Result<usize, PlanRefusal>,
    pub twelve: Result<usize, PlanRefusal>,
}

#[derive(Clone, Copy)]
pub struct Barred {
    pub note: Result<usize, NoteRefusal>,
    pub one: Result<usize, PlanRefusal>,
    pub two: Result<usize, PlanRefusal>,
}

#[derive(Clone, Copy)]
pub struct Dearer {
    pub note: Result<usize, NoteRefusal>,
    pub eleven: Result<usize, PlanRefusal>,
}

// A sheet over the worked lock, with no notes.
fn blank_sheet(heap: Global) -> Option<Sheet<ListBook<'static>>>
    ensures { ForSome result (λ s. IsBlankLock s.book s.notes) }
{
    Sheet::new(heap, lock()).ok()
}

// Leave gains an amount more, and one visit is planned by the floor.
fn surcharge_leave(sheet: &mut Sheet<ListBook<'static>>, amount: i64) -> OneVisit
    requires { IsBlankLock sheet.old.book sheet.old.notes }
    ensures tie { amount ≡ negsuc 999 → result ≡ tied }
    ensures no_tie { amount ≡ negsuc 1000 → result ≡ untied }
{
    let note = sheet.surcharge(0, amount, 1, 48);
    let mut values = [0; 8];
    let mut remedies = [0; 4];
    let answer = plan_totals::<Floor, _>(&*sheet, 1, &mut values, &mut remedies);
    OneVisit {
        note,
        answer,
        values,
        remedies,
    }
}

// The same on a new sheet.
pub fn with_leave_surcharged(heap: Global, amount: i64) -> Option<OneVisit>
    ensures tie { amount ≡ negsuc 999 → ForSome result (λ x. x ≡ tied) }
    ensures no_tie { amount ≡ negsuc 1000 → ForSome result (λ x. x ≡ untied) }
{
    let mut sheet = blank_sheet(heap)?;
    Some(surcharge_leave(&mut sheet, amount))
}

// What a plan by the mean answers on a sheet, with room for 48 visits in its tables.
fn answer_for(sheet: &Sheet<ListBook<'static>>, visits: usize) -> Result<usize, PlanRefusal>
    ensures { Answered (noted (list_means sheet.now.book) sheet.now.notes) visits result }
{
    let mut values = [0; 196];
    let mut remedies = [0; 192];
    plan_totals::<Mean, _>(sheet, visits, &mut values, &mut remedies)
}

// Without notes, what plans for 11 and for 12 visits answer.
pub fn without_notes(heap: Global) -> Option<Longest>
    ensures { ForSome result (λ x. x ≡ record { eleven = Ok 44; twelve = Err Fine }) }
{
    let sheet = blank_sheet(heap)?;
    Some(Longest {
        eleven: answer_for(&sheet, 11),
        twelve: answer_for(&sheet, 12),
    })
}

// Replace is barred in condition 3 for visit 2: what the bar, and plans for 1 and for 2 visits answer.
pub fn with_replace_barred(heap: Global) -> Option<Barred>
    ensures { ForSome result (λ x. x ≡ record { note = Ok 1; one = Ok 4; two = Err (Stuck 2 3) }) }
{
    let mut sheet = blank_sheet(heap)?;
    let note = sheet.bar(3, 2, 2, 2);
    Some(Barred {
        note,
        one: answer_for(&sheet, 1),
        two: answer_for(&sheet, 2),
    })
}

// Replace gains an amount more at every visit: what the surcharge and a plan for 11 visits answer.
pub fn with_replace_surcharged(heap: Global, amount: i64) -> Option<Dearer>
    ensures fits { amount ≡ negsuc 15844 → ForSome result (λ x. x ≡ record { note = Ok 1; eleven = Ok 44 }) }
    ensures too_fine { amount ≡ negsuc 15845 → ForSome result (λ x. x ≡ record { note = Ok 1; eleven = Err Fine }) }
{
    let mut sheet = blank_sheet(heap)?;
    let note = sheet.surcharge(2, amount, 1, 48);
    Some(Dearer {
        note,
        eleven: answer_for(&sheet, 11),
    })
}
