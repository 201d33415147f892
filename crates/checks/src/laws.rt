ghost use Rattle.checks.specs.Limit.{HasAPeak, FitsByThePeak};

// The number limit may be asked of the greatest size in the book alone.
pub fn limit_stands()
    ensures peak { HasAPeak }
    ensures fits { FitsByThePeak }
{}
