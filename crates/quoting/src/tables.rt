// The tables that a quote works in, made once.
ghost use Rattle.std.specs.Prelude.{◌≡◌, ◌≤◌, vec_len};

use books::record::Record;
use std::alloc::{AllocError, Global};

pub const RECORDS: usize = 2048;

const CONDITIONS: usize = 32;

const VISITS: usize = 48;

// Room for 2,048 records and 32 worths, for the remedies of 48 visits in 32 conditions, and for their values,
// with a row more for 0 visits.
#[derive(Drop)]
pub struct Tables {
    pub(crate) records: Vec<Record>,
    pub(crate) worths: Vec<i64>,
    pub(crate) values: Vec<i64>,
    pub(crate) remedies: Vec<u8>,
    ghost all_records: { vec_len records ≡ 2048 },
    ghost all_worths: { vec_len worths ≡ 32 },
    ghost all_values: { vec_len values ≡ 1568 },
    ghost all_remedies: { vec_len remedies ≡ 1536 },
}

// A plan that lies in the tables: so many conditions, so many entries in order of visit, then condition. Slices of the
// tables would do as well, but a contract could not say then which tables they are of.
#[derive(Clone, Copy)]
pub struct Quote {
    pub(crate) conditions: usize,
    pub(crate) entries: usize,
    ghost some_condition: { 1 ≤ conditions },
    ghost few_entries: { entries ≤ 1536 },
}

impl Tables {
    ghost use Rattle.std.specs.Prelude.{IfOk};
    ghost use Rattle.quoting.specs.Blank.{AllBlank};

    // All at 0. Whether there is memory for them is open.
    pub fn new(heap: Global) -> Result<Tables, AllocError>
        ensures { IfOk result AllBlank }
    {
        let records = vec![in heap; Record::default(); RECORDS]?;
        let worths = vec![in heap; 0; CONDITIONS]?;
        let values = vec![in heap; 0; (VISITS + 1) * CONDITIONS]?;
        let remedies = vec![in heap; 0; VISITS * CONDITIONS]?;
        Ok(Tables {
            records,
            worths,
            values,
            remedies,
        })
    }
}
