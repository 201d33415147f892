// What holds of every list of calls. The function does nothing: its contract is the law.
ghost use Rattle.service.specs.Laws.{ServingIsDetermined, EachIsServed, PartsAreTheWhole, DeclinedIsUnchanged};

use criteria::criterion::Criterion;

// A list of calls is served in one way alone, each in its place, in parts or at once, and what is declined in it is left as it was.
pub fn lists_are_served_in_one_way<C: Criterion>()
    ensures determined { ServingIsDetermined C.ops }
    ensures each { EachIsServed C.ops }
    ensures parts { PartsAreTheWhole C.ops }
    ensures declined { DeclinedIsUnchanged C.ops }
{}
