// What holds of every criterion, and of the mean and the floor. Each function does nothing: its contract is the law.
ghost use Rattle.criteria.specs.Expected.{ChancesAreWhole, MeanIsExpected, NoMeanResultIsHeld};
ghost use Rattle.criteria.specs.Policies.{BooksOfferTheirOwn};
ghost use Rattle.criteria.specs.Courses.{EachCourseOnce, OnlyCourses, SumsAdd};
ghost use Rattle.criteria.specs.Least.{FloorIsLeast};
ghost use Rattle.criteria.specs.Optimal.{GreedyIsUnbeaten, PlanIsUnbeaten, TableIsUnbeaten, PolicyIffOffered, OfferedHasOne, StuckHasNone, OfferedOrStuck};
ghost use Rattle.criteria.specs.Best.{MeanPlanIsBest, FloorPlanIsBest, PremisesCanBeMet};
ghost use Rattle.criteria.specs.Mixed.{FloorThenMeanIsLawless};
ghost use Rattle.std.specs.Prelude.{◌≡◌};
ghost use Rattle.criteria.specs.Mean.{mean};
ghost use Rattle.criteria.specs.Floor.{floor};

use super::by::By;
use super::criterion::Criterion;
use super::floor::Floor;
use super::mean::Mean;

// There is a policy exactly where every condition has an offered remedy at every visit.
pub fn policies_exist_where_offered()
    ensures exactly { PolicyIffOffered }
    ensures one { OfferedHasOne }
    ensures none { StuckHasNone }
    ensures either { OfferedOrStuck }
    ensures books { BooksOfferTheirOwn }
{}

// What is best visit by visit, by a criterion that keeps the laws, is beaten by no policy.
pub fn greedy_plans_are_unbeaten<C: Criterion>(by: &C)
    ensures greedy { GreedyIsUnbeaten (C.ops by.now) (C.better by.now) }
    ensures plan { PlanIsUnbeaten (C.ops by.now) (C.better by.now) }
    ensures table { TableIsUnbeaten (C.ops by.now) (C.better by.now) }
{}

// A sum over courses takes every course once and nothing else.
pub fn sums_take_each_course_once()
    ensures once { EachCourseOnce }
    ensures only { OnlyCourses }
    ensures sums { SumsAdd }
{}

// The mean is the expected total, exactly, and a plan by it has the greatest.
pub fn means_are_expected_totals()
    ensures chances { ChancesAreWhole }
    ensures expected { MeanIsExpected }
    ensures unheld { NoMeanResultIsHeld }
    ensures best { MeanPlanIsBest }
{}

// The floor is the least total that may come about, and a plan by it has the greatest.
pub fn floors_are_least_totals()
    ensures least { FloorIsLeast }
    ensures best { FloorPlanIsBest }
{}

// What the laws ask of a book and a plan is met by some.
pub fn premises_can_be_met()
    ensures met { PremisesCanBeMet }
{}

// The floor first and the mean among equal floors: a criterion that keeps the laws cannot be had.
pub fn floor_then_mean_breaks_the_laws()
    ensures lawless { FloorThenMeanIsLawless }
{}

// A criterion that is chosen reckons as the one that was chosen.
pub fn chosen_criteria_reckon_as_themselves()
    ensures mean { (by : Mean) → ⟦<By as Criterion>⟧.ops (By.Mean by) ≡ mean }
    ensures floor { (by : Floor) → ⟦<By as Criterion>⟧.ops (By.Floor by) ≡ floor }
{}
