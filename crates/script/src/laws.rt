// What holds of the parts of an input and the lines of a script; each contract is a theorem.
ghost use Rattle.script.specs.Laws.{OrdersAreWritten, OrdersAreExact, PartsAreExact};

// Every order that fits can be written and is read as itself; a line that is read is its order as it is written.
pub fn orders_are_exact()
    ensures written { OrdersAreWritten }
    ensures exact { OrdersAreExact }
{}

// The book's part of an input ends with its first line that begins with `E`, or is all of it.
pub fn parts_are_exact()
    ensures { PartsAreExact }
{}
