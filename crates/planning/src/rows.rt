ghost use Rattle.std.specs.Prelude.{◌≡◌, length};
ghost use Rattle.planning.specs.Tables.{Closed};

use criteria::criterion::Criterion;
use model::Book;

// Writes the closing values of the conditions.
pub(crate) fn close_row<B: Book, C: Criterion>(book: &B, by: &C, values: &mut [C::Value])
    requires { length values.old ≡ (B.model book.now).conditions }
    ensures { Closed (C.ops by.now) (B.model book.now) values.new }
{
    for (condition, value) in values.iter_mut().enumerate() {
        *value = by.closing(book.worth(condition));
    }
}
