ghost use Rattle.trials.specs.Switch.{switch};
ghost use Rattle.trials.specs.Lawful.{switch_lawful};

use model::Book;

// Two conditions and two remedies: a remedy leads to the condition of its number, and condition 1 alone has a worth.
#[derive(Clone, Copy)]
pub struct Switch;

impl Book for Switch {
    ghost model = { λ _. switch };

    ghost lawful = { λ _. switch_lawful };

    fn conditions(&self) -> usize {
        2
    }

    fn remedies(&self) -> usize {
        2
    }

    fn parts(&self) -> u32 {
        1
    }

    fn offered(&self, visit: usize, condition: usize, remedy: usize) -> bool {
        (1..=48).contains(&visit) && condition < 2 && remedy < 2
    }

    fn share(&self, visit: usize, condition: usize, remedy: usize, next: usize) -> u32 {
        u32::from(self.offered(visit, condition, remedy) && next == remedy)
    }

    fn amount(&self, _visit: usize, _condition: usize, _remedy: usize, _next: usize) -> i64 {
        0
    }

    fn worth(&self, condition: usize) -> i64 {
        i64::from(condition == 1)
    }
}
