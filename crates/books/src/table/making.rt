// Making a table book.
ghost use Rattle.std.specs.Prelude.{◌≤◌, [], ◌∷◌, length, pos, Decides, slice_index};
ghost use Rattle.books.specs.Making.{FirstFailing, TableShaped, TableChecked};
ghost use Rattle.books.specs.Made.{OfTables, TableNew, TableMade};

use super::TableBook;
use crate::limits::first_large;
use crate::refusal::{MakingRefusal, Table};
use crate::sizes::Sizes;

// The first share above the parts.
fn first_over(parts: u32, shares: &[u32]) -> Option<usize>
    ensures { FirstFailing (λ i. slice_index shares.now i ≤ parts) (length shares.now) result }
{
    shares.iter().position(|share| *share > parts)
}

// Whether the tables are as long as the sizes ask.
fn is_shaped(sizes: Sizes, shares: &[u32], amounts: &[i64], worths: &[i64]) -> bool
    ensures { Decides result (TableShaped sizes.conditions sizes.remedies sizes.parts shares.now amounts.now worths.now) }
{
    let size = sizes.conditions * sizes.remedies * sizes.conditions;
    shares.len() == size && amounts.len() == size && worths.len() == sizes.conditions
}

// Whether the tables make a book of these sizes, or the first reason why not.
fn check(sizes: Sizes, shares: &[u32], amounts: &[i64], worths: &[i64]) -> Result<(), MakingRefusal>
    ensures { TableChecked sizes.conditions sizes.remedies sizes.parts shares.now amounts.now worths.now result }
{
    if !is_shaped(sizes, shares, amounts, worths) {
        return Err(MakingRefusal::Size);
    }
    Table::Outcomes.sound(first_over(sizes.parts, shares))?;
    Table::Amounts.sound(first_large(amounts))?;
    Table::Worths.sound(first_large(worths))
}

impl<'a> TableBook<'a> {
    // The smallest book: nothing offered, worth 0.
    pub fn blank() -> TableBook<'a>
        ensures { OfTables 1 1 1 (0 ∷ []) (pos 0 ∷ []) (pos 0 ∷ []) result }
    {
        TableBook {
            sizes: Sizes {
                conditions: 1,
                remedies: 1,
                parts: 1,
            },
            shares: &[0],
            amounts: &[0],
            worths: &[0],
        }
    }

    // The book of the tables that are lent. It takes numbers: checked `Sizes` would ask more of callers.
    pub fn new(
        conditions: usize,
        remedies: usize,
        parts: u32,
        shares: &'a [u32],
        amounts: &'a [i64],
        worths: &'a [i64],
    ) -> Result<TableBook<'a>, MakingRefusal>
        ensures { TableNew conditions remedies parts shares.now amounts.now worths.now result }
    {
        let sizes = Sizes::new(conditions, remedies, parts).ok_or(MakingRefusal::Size)?;
        check(sizes, shares, amounts, worths)?;
        Ok(TableBook {
            sizes,
            shares,
            amounts,
            worths,
        })
    }

    // Makes it the book of the tables that are lent; declined, it is as it stood.
    pub fn remake(
        &mut self,
        conditions: usize,
        remedies: usize,
        parts: u32,
        shares: &'a [u32],
        amounts: &'a [i64],
        worths: &'a [i64],
    ) -> Result<(), MakingRefusal>
        ensures { TableMade conditions remedies parts shares.now amounts.now worths.now self.old self.new result }
    {
        *self = TableBook::new(conditions, remedies, parts, shares, amounts, worths)?;
        Ok(())
    }
}
