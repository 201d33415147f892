// Reads a question and a book file from standard input, and prints the plan or the first fault.
#![tactic(auto)]

use quoting::quote::LONGEST;
use quoting::tables::Tables;
use quoting::text::quoted;
use std::io::{Read, Write};

fn main(rt: HostRuntime) -> anyhow::Result<()> {
    let heap = rt.alloc();
    let mut input = Vec::new(heap);
    // One byte more than the limit shows that there are too many.
    rt.stdin().take(LONGEST as u64 + 1).read_to_end(&mut input)?;
    let mut tables = Tables::new(heap)?;
    let output = quoted(heap, input.as_slice(), &mut tables)?;
    rt.stdout().write_all(output.as_bytes())?;
    Ok(())
}
