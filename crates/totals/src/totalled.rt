ghost use Rattle.std.specs.Prelude.{◌≡◌, ℕ, List, ℤ};
ghost use Rattle.model.specs.Model.{Model};
ghost use Rattle.criteria.specs.Criteria.{Ops};
ghost use Rattle.criteria.specs.Mean.{mean};
ghost use Rattle.criteria.specs.Floor.{floor};
ghost use Rattle.totals.specs.Totals.{ExpectedTotals, GreatestExpected, LeastTotals, GreatestLeast};
ghost use Rattle.totals.specs.Laws.{ValuesAreTotals, UnbeatenIsGreatest};
ghost use Rattle.totals.specs.Means.{means_are_totals, unbeaten_mean_is_greatest};
ghost use Rattle.totals.specs.Floors.{floors_are_totals, unbeaten_floor_is_greatest};

use criteria::criterion::Criterion;
use criteria::floor::Floor;
use criteria::mean::Mean;

// A criterion whose values are totals, in the subject's own words.
pub trait Totalled: Criterion<Value = i64, Account = i64> + Drop {
    // What it computes, whatever parts it is made for.
    ghost operations: { Ops ℤ ℤ };

    // The values are the totals of a table of remedies: book, visits, remedies, values.
    ghost totals: { Model → ℕ → List ℕ → List ℤ → Type 0 };

    // No policy has greater totals than a table of remedies: book, visits, remedies.
    ghost greatest: { Model → ℕ → List ℕ → Type 0 };

    // The criterion, quick for books of these parts.
    fn for_parts(parts: u32) -> Self
        ensures { Self.ops result ≡ operations };

    ghost values_are_totals: { ValuesAreTotals operations totals };

    ghost unbeaten_is_greatest: { UnbeatenIsGreatest operations greatest };
}

// The values are expected totals.
impl Totalled for Mean {
    ghost operations = { mean };

    ghost totals = { ExpectedTotals };

    ghost greatest = { GreatestExpected };

    ghost values_are_totals = { means_are_totals };

    ghost unbeaten_is_greatest = { unbeaten_mean_is_greatest };

    fn for_parts(parts: u32) -> Mean {
        Mean::of(parts)
    }
}

// The values are least totals that can come about.
impl Totalled for Floor {
    ghost operations = { floor };

    ghost totals = { LeastTotals };

    ghost greatest = { GreatestLeast };

    ghost values_are_totals = { floors_are_totals };

    ghost unbeaten_is_greatest = { unbeaten_floor_is_greatest };

    fn for_parts(_parts: u32) -> Floor {
        Floor
    }
}
