// The worked lock as a list book.
ghost use Rattle.std.specs.Prelude.{◌≡◌};
ghost use Rattle.books.specs.Means.{list_means};
ghost use Rattle.lock.specs.Lock.{worked_lock};

use books::list::ListBook;
use books::record::Record;

// 16 parts; conditions good as new, minor problems, major problems, inoperable; remedies leave, overhaul, replace.
pub fn lock() -> ListBook<'static>
    ensures { list_means result ≡ worked_lock }
{
    let Ok(book) = ListBook::new(4, 3, 16, &OUTCOMES, &[0, 0, 0, 0]) else {
        unreachable!()
    };
    book
}

const OUTCOMES: [Record; 15] = [
    Record {
        condition: 0,
        remedy: 0,
        next: 1,
        share: 14,
        amount: 0,
    },
    Record {
        condition: 0,
        remedy: 0,
        next: 2,
        share: 1,
        amount: 0,
    },
    Record {
        condition: 0,
        remedy: 0,
        next: 3,
        share: 1,
        amount: 0,
    },
    Record {
        condition: 0,
        remedy: 1,
        next: 1,
        share: 16,
        amount: -4000,
    },
    Record {
        condition: 0,
        remedy: 2,
        next: 0,
        share: 16,
        amount: -6000,
    },
    Record {
        condition: 1,
        remedy: 0,
        next: 1,
        share: 12,
        amount: -1000,
    },
    Record {
        condition: 1,
        remedy: 0,
        next: 2,
        share: 2,
        amount: -1000,
    },
    Record {
        condition: 1,
        remedy: 0,
        next: 3,
        share: 2,
        amount: -1000,
    },
    Record {
        condition: 1,
        remedy: 1,
        next: 1,
        share: 16,
        amount: -4000,
    },
    Record {
        condition: 1,
        remedy: 2,
        next: 0,
        share: 16,
        amount: -6000,
    },
    Record {
        condition: 2,
        remedy: 0,
        next: 2,
        share: 8,
        amount: -3000,
    },
    Record {
        condition: 2,
        remedy: 0,
        next: 3,
        share: 8,
        amount: -3000,
    },
    Record {
        condition: 2,
        remedy: 1,
        next: 1,
        share: 16,
        amount: -4000,
    },
    Record {
        condition: 2,
        remedy: 2,
        next: 0,
        share: 16,
        amount: -6000,
    },
    Record {
        condition: 3,
        remedy: 2,
        next: 0,
        share: 16,
        amount: -6000,
    },
];
