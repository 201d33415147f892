// The lines of a script.
ghost use Rattle.std.specs.Prelude.{◌≡◌, map, IfOk};
ghost use Rattle.script.specs.Parts.{said, script_from};
ghost use Rattle.script.specs.Forms.{check_order};
ghost use Rattle.script.specs.Scripts.{said_of};

use super::command::{Command, Unread};
use super::parts::Parts;
use super::reading::command_of;
use fields::faults::LineFault;
use fields::lines::{Line, cut_line};
use std::alloc::{AllocError, Global};

// A line by its number, and what it says.
#[derive(Drop)]
pub struct ScriptLine {
    pub number: usize,
    pub command: Result<Command, LineFault>,
}

// What an ended line says, or its fault.
fn line_of(heap: Global, line: Line<'_>) -> Result<ScriptLine, AllocError>
    ensures { IfOk result (λ l. said_of l ≡ said line.entry.number (check_order line.entry.number line.entry.text.now)) }
{
    let command = match command_of(heap, line) {
        Ok(command) => Ok(command),
        Err(Unread::Faulty(fault)) => Err(fault),
        Err(Unread::NoMemory(e)) => return Err(e),
    };
    Ok(ScriptLine {
        number: line.number,
        command,
    })
}

// What the lines of a script say. A line with a fault keeps its place, and the others are read.
pub fn lines_of(heap: Global, parts: Parts<'_>) -> Result<Vec<ScriptLine>, AllocError>
    ensures { IfOk result (λ v. map said_of v.items ≡ script_from parts.entry.first parts.entry.script.now) }
{
    let mut lines = Vec::new(heap);
    let mut rest = parts.script;
    let mut number = parts.first;
    while let Ok((line, after)) = cut_line(number, rest) {
        lines.push(line_of(heap, line)?)?;
        rest = after;
        number += 1;
    }
    if !rest.is_empty() {
        let command = Err(LineFault::Unended { line: number });
        lines.push(ScriptLine { number, command })?;
    }
    Ok(lines)
}
