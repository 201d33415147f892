ghost use Rattle.std.specs.Prelude.{◌≡◌, ◌≤◌, true, [], length, MatchResult, ◌==◌};
ghost use Rattle.model.specs.Model.{offers};
ghost use Rattle.sheets.specs.Notes.{held, inside, noted};
ghost use Rattle.sheets.specs.Calls.{standing_at, to_bar, to_surcharge, to_prolong, to_lift};
ghost use Rattle.sheets.specs.Laws.{BlankSheetIsTheBook, EnteringAddsOne, LiftingTakesOne, LiftingUndoesEntering};
ghost use Rattle.sheets.specs.Keeping.{noted_lawful};

use super::note::{Effect, Note, Visits};
use super::notes::Notes;
use super::refusal::NoteRefusal;
use model::Book;
use std::alloc::Global;

// A book with notes laid over it, and itself a book.
#[derive(Drop)]
pub struct Sheet<B> {
    book: B,
    notes: Notes,
}

// There was no memory for a sheet; the book comes back. Not AllocFailed, which is std's to make.
#[derive(Drop)]
pub struct NoMemory<B> {
    pub book: B,
}

// Within a thousand million either way.
fn hold(sum: i64) -> i64
    ensures { result ≡ held sum }
{
    sum.clamp(-1_000_000_000, 1_000_000_000)
}

impl<B: Book> Sheet<B> {
    // A sheet with no notes. Whether there is memory for it is left open.
    pub fn new(heap: Global, book: B) -> Result<Sheet<B>, NoMemory<B>>
        ensures { MatchResult result (λ s. (s.book ≡ book) × (s.notes ≡ [])) (λ e. e.book ≡ book) }
    {
        match Notes::new(heap) {
            Ok(notes) => Ok(Sheet { book, notes }),
            Err(_) => Err(NoMemory { book }),
        }
    }

    // Ends the sheet, and gives its book back.
    pub fn into_book(self) -> B
        ensures { result ≡ self.book }
    {
        self.book
    }

    // The book below, as it is without the notes.
    pub fn book(&self) -> &B
        ensures { result.now ≡ self.now.book }
    {
        &self.book
    }

    // How many notes stand; the next is entered at the place after them.
    pub fn standing(&self) -> usize
        ensures answer { result ≡ length self.now.notes }
        ensures few { result ≤ 24 }
        ensures law { EnteringAddsOne }
    {
        self.notes.len()
    }

    // The note at a place, from 1: the one that is prolonged or lifted there.
    pub fn note(&self, place: usize) -> Option<Note>
        ensures answer { result ≡ standing_at self.now.notes place }
        ensures law { LiftingTakesOne × LiftingUndoesEntering }
    {
        self.notes.get(place)
    }

    // Whether no note stands; the sheet then means what its book means.
    pub fn is_blank(&self) -> bool
        ensures answer { result ≡ (length self.now.notes == 0) }
        ensures model { result ≡ true → noted (B.Book.model self.now.book) self.now.notes ≡ B.Book.model self.now.book }
        ensures law { BlankSheetIsTheBook }
    {
        self.notes.is_empty()
    }

    // Whether the visit is one of 48 and the rest within the sizes.
    fn has(&self, visit: usize, condition: usize, remedy: usize, next: usize) -> bool
        ensures { result ≡ inside (offers (B.Book.model self.now.book)) visit condition remedy next }
    {
        let conditions = self.conditions();
        (1..=48).contains(&visit)
            && condition < conditions
            && remedy < self.remedies()
            && next < conditions
    }

    // Bars the remedy in the condition from the first visit to the last; answers the note's place. Like the others it
    // says that the book stays: no invariant compares before and after.
    pub fn bar(
        &mut self,
        condition: usize,
        remedy: usize,
        first: usize,
        last: usize,
    ) -> Result<usize, NoteRefusal>
        ensures answer { (result, self.new.notes) ≡ to_bar (offers (B.Book.model self.old.book)) self.old.notes condition remedy (record { first = first; last = last }) }
        ensures book { self.new.book ≡ self.old.book }
    {
        if condition >= self.conditions() || remedy >= self.remedies() {
            return Err(NoteRefusal::Unknown);
        }
        let visits = Visits { first, last }.in_span()?;
        self.notes.enter(Note {
            remedy,
            visits,
            effect: Effect::Bar { condition },
        })
    }

    // Adds the amount to the remedy's amounts from the first visit to the last; answers the note's place.
    pub fn surcharge(
        &mut self,
        remedy: usize,
        amount: i64,
        first: usize,
        last: usize,
    ) -> Result<usize, NoteRefusal>
        ensures answer { (result, self.new.notes) ≡ to_surcharge (offers (B.Book.model self.old.book)) self.old.notes remedy amount (record { first = first; last = last }) }
        ensures book { self.new.book ≡ self.old.book }
    {
        if remedy >= self.remedies() {
            return Err(NoteRefusal::Unknown);
        }
        let visits = Visits { first, last }.in_span()?;
        if !(-1_000_000..=1_000_000).contains(&amount) {
            return Err(NoteRefusal::Dear);
        }
        let amount = amount as i32;
        self.notes.enter(Note {
            remedy,
            visits,
            effect: Effect::Surcharge { amount },
        })
    }

    // Gives the note at a place another last visit, earlier or later; answers the place.
    pub fn prolong(&mut self, place: usize, last: usize) -> Result<usize, NoteRefusal>
        ensures answer { (result, self.new.notes) ≡ to_prolong self.old.notes place last }
        ensures book { self.new.book ≡ self.old.book }
    {
        self.notes.prolong(place, last)
    }

    // Takes out the note at a place; answers how many are left.
    pub fn lift(&mut self, place: usize) -> Result<usize, NoteRefusal>
        ensures answer { (result, self.new.notes) ≡ to_lift self.old.notes place }
        ensures book { self.new.book ≡ self.old.book }
    {
        self.notes.lift(place)
    }
}

impl<B: Book> Book for Sheet<B> {
    ghost model = { λ s. noted (B.Book.model s.book) s.notes };

    ghost lawful = { λ s. noted_lawful (B.Book.model s.book) s.notes (B.Book.lawful s.book) };

    fn conditions(&self) -> usize {
        self.book.conditions()
    }

    fn remedies(&self) -> usize {
        self.book.remedies()
    }

    fn parts(&self) -> u32 {
        self.book.parts()
    }

    fn offered(&self, visit: usize, condition: usize, remedy: usize) -> bool {
        self.book.offered(visit, condition, remedy) && !self.notes.forbids(visit, condition, remedy)
    }

    fn share(&self, visit: usize, condition: usize, remedy: usize, next: usize) -> u32 {
        self.book.share(visit, condition, remedy, next)
    }

    fn amount(&self, visit: usize, condition: usize, remedy: usize, next: usize) -> i64 {
        if self.has(visit, condition, remedy, next) {
            hold(self.book.amount(visit, condition, remedy, next) + self.notes.adds(visit, remedy))
        } else {
            0
        }
    }

    fn worth(&self, condition: usize) -> i64 {
        self.book.worth(condition)
    }
}
