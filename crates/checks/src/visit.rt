ghost use Rattle.std.specs.Prelude.{◌≡◌, ◌-◌, ◌^◌, min};
ghost use Rattle.model.specs.Visits.{visit_after};

// The visit that a row of a table belongs to: row 0 is visit 1.
pub fn visit_of(row: usize) -> usize
    ensures { result ≡ min (visit_after row) (2 ^ 64 - 1) }
{
    row.saturating_add(1)
}
