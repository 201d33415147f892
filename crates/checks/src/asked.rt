ghost use Rattle.std.specs.Prelude.{◌≡◌, ◌-◌, ◌≤◌, MatchOption};
ghost use Rattle.std.specs.Iterator.{at_most};
ghost use Rattle.checks.specs.Asked.{Asked};

use super::visit::visit_of;
use model::Book;

// The visits that a book is asked about: of visits that are alike, the first.
#[derive(Drop)]
pub(crate) struct AskedVisits<'a, B> {
    book: &'a B,
    row: usize,
    visits: usize,
}

impl<'a, B: Book> AskedVisits<'a, B> {
    pub(crate) fn new(book: &'a B, visits: usize) -> Self
        ensures book { result.book ≡ book.entry }
        ensures start { result.row ≡ 0 }
        ensures end { result.visits ≡ visits }
    {
        AskedVisits {
            book,
            row: 0,
            visits,
        }
    }
}

impl<B: Book> Iterator for AskedVisits<'_, B> {
    type Item = usize;

    ghost next_gives = { λ s r t. (t.book ≡ s.book) × (t.visits ≡ s.visits) × MatchOption r (s.visits ≤ s.row) (λ visit. Asked (B.model s.book.now) s.visits s.row visit t.row) };

    ghost remaining = { λ s. at_most (s.visits - s.row) };

    fn next(&mut self) -> Option<usize> {
        if self.row >= self.visits {
            return None;
        }
        let visit = visit_of(self.row);
        self.row = self.book.alike_until(visit);
        Some(visit)
    }
}
