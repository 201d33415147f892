// Runs `quote` over stored cases. Standard input names them, a line each; the case NAME is the input
// NAME.in and the expected output NAME.out. Prints the name of each case that differs, and the count.
#![tactic(auto)]

use quoting::tables::Tables;
use quoting::text::quoted;
use std::fs;

fn agrees(rt: &HostRuntime, tables: &mut Tables, name: &str) -> anyhow::Result<bool> {
    let heap = rt.alloc();
    let input = fs::read(rt, format!(in heap; "{name}.in")?.as_str())?;
    let expected = fs::read(rt, format!(in heap; "{name}.out")?.as_str())?;
    let output = quoted(heap, input.as_slice(), tables)?;
    Ok(output.as_bytes() == expected.as_slice())
}

fn main(rt: HostRuntime) -> anyhow::Result<()> {
    let mut tables = Tables::new(rt.alloc())?;
    let mut all: usize = 0;
    let mut agreed: usize = 0;
    for line in rt.lines(rt.alloc()) {
        let name = line?;
        all = all.saturating_add(1);
        if agrees(&rt, &mut tables, name.as_str())? {
            agreed = agreed.saturating_add(1);
        } else {
            println!(rt; "{name} differs")?;
        }
    }
    println!(rt; "{agreed} of {all} agree")?;
    Ok(())
}
