// Plans of the worked lock.
ghost use Rattle.std.specs.Prelude.{◌≡◌, Ok};
ghost use Rattle.lock.specs.Lock.{mean_values, mean_remedies, floor_values, floor_remedies};

use super::book::lock;
use checks::refusal::PlanRefusal;
use criteria::floor::Floor;
use criteria::mean::Mean;
use totals::plan::plan_totals;

// What a plan for two visits answers, its values and its remedies.
#[derive(Clone, Copy)]
pub struct Planned {
    pub answer: Result<usize, PlanRefusal>,
    pub values: [i64; 12],
    pub remedies: [u8; 8],
}

// Two visits by the mean.
pub fn planned_by_mean() -> Planned
    ensures { result ≡ record { answer = Ok 8; values = mean_values; remedies = mean_remedies } }
{
    let mut values = [0; 12];
    let mut remedies = [0; 8];
    let answer = plan_totals::<Mean, _>(&lock(), 2, &mut values, &mut remedies);
    Planned {
        answer,
        values,
        remedies,
    }
}

// Two visits by the floor.
pub fn planned_by_floor() -> Planned
    ensures { result ≡ record { answer = Ok 8; values = floor_values; remedies = floor_remedies } }
{
    let mut values = [0; 12];
    let mut remedies = [0; 8];
    let answer = plan_totals::<Floor, _>(&lock(), 2, &mut values, &mut remedies);
    Planned {
        answer,
        values,
        remedies,
    }
}
