ghost use Rattle.planning.specs.Agreeing.{JudgingAPlan, PlansAgree, PlansAreStuckExactly, PlansAreDetermined, JudgementsAreDetermined};

use criteria::criterion::Criterion;

// A plan that is judged has its own values; what was brought to a plan or a judgement determines its answer and its tables.
pub fn plans_agree<C: Criterion>(by: &C)
    ensures judging { JudgingAPlan (C.ops by.now) }
    ensures agree { PlansAgree (C.ops by.now) }
    ensures stuck { PlansAreStuckExactly (C.ops by.now) }
    ensures planned { PlansAreDetermined (C.ops by.now) }
    ensures judged { JudgementsAreDetermined (C.ops by.now) }
{}
