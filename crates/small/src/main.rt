// Runs the desk over small books that scripts/small_books.py planned by trying every policy. Standard input names them, a
// line each: NAME.in is a book file and a script, NAME.out what the desk is to print. Prints the name of each that differs,
// and the count.
#![tactic(auto)]

use answers::desk::desk;
use std::fs;

fn agrees(rt: &HostRuntime, name: &str) -> anyhow::Result<bool> {
    let heap = rt.alloc();
    let input = fs::read(rt, format!(in heap; "{name}.in")?.as_str())?;
    let expected = fs::read(rt, format!(in heap; "{name}.out")?.as_str())?;
    let printed = desk(heap, input.as_slice())?;
    Ok(printed.as_bytes() == expected.as_slice())
}

fn main(rt: HostRuntime) -> anyhow::Result<()> {
    let mut all: usize = 0;
    let mut agreed: usize = 0;
    for line in rt.lines(rt.alloc()) {
        let name = line?;
        all = all.saturating_add(1);
        if agrees(&rt, name.as_str())? {
            agreed = agreed.saturating_add(1);
        } else {
            println!(rt; "{name} differs")?;
        }
    }
    println!(rt; "{agreed} of {all} agree")?;
    Ok(())
}
