// Reads a book file and a script from standard input, and prints an answer to every line of the script.
#![tactic(auto)]

use answers::desk::{LONGEST, desk};
use std::io::{Read, Write};

fn main(rt: HostRuntime) -> anyhow::Result<()> {
    let heap = rt.alloc();
    let mut input = Vec::with_capacity(heap, LONGEST + 1)?;
    // One byte more than the limit shows that there are too many.
    rt.stdin().take(LONGEST as u64 + 1).read_to_end(&mut input)?;
    let printed = desk(heap, input.as_slice())?;
    rt.stdout().write_all(printed.as_bytes())?;
    Ok(())
}
