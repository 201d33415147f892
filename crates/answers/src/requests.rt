// The requests that a script makes.
ghost use Rattle.std.specs.Prelude.{◌≡◌, ℕ, List, map, Some, None, IfOk};
ghost use Rattle.std.specs.Option.{option_map};
ghost use Rattle.following.specs.declared.call.Turn.{Turn};
ghost use Rattle.script.specs.declared.command.Command.TheVariants.{Note};
ghost use Rattle.script.specs.Scripts.{said_of};
ghost use Rattle.script.specs.Commands.{order_of};
ghost use Rattle.answers.specs.Requests.{blank_values, blank_remedies, letter_for, called, request_for, turns_ahead, requests_of, brought_of};

use books::sizes::Sizes;
use criteria::by::By;
use criteria::floor::Floor;
use criteria::mean::Mean;
use following::call::Turn;
use quoting::question;
use script::command::{Command, NoteCall};
use script::script::ScriptLine;
use service::call::{Call, Request};
use std::alloc::{AllocError, Global};

// The table of values of a plan, all 0; it is empty where there is no plan of so many visits.
fn values_for(heap: Global, sizes: Sizes, visits: usize) -> Result<Vec<i64>, AllocError>
    ensures { IfOk result (λ v. v.items ≡ blank_values sizes.conditions visits) }
{
    let entries = match visits {
        1..=48 => (visits + 1) * sizes.conditions,
        _ => 0,
    };
    vec![in heap; 0; entries]
}

// Its table of remedies.
fn remedies_for(heap: Global, sizes: Sizes, visits: usize) -> Result<Vec<u8>, AllocError>
    ensures { IfOk result (λ v. v.items ≡ blank_remedies sizes.conditions visits) }
{
    let entries = match visits {
        1..=48 => visits * sizes.conditions,
        _ => 0,
    };
    vec![in heap; 0; entries]
}

// The criterion of a letter, quick for a book of these parts.
fn criterion_for(letter: question::By, parts: u32) -> By
    ensures { letter_for result ≡ letter }
{
    match letter {
        question::By::Mean => By::Mean(Mean::of(parts)),
        question::By::Floor => By::Floor(Floor),
    }
}

// The turns of a round that begins before these lines.
fn turns_in(heap: Global, lines: &[ScriptLine]) -> Result<Vec<Turn>, AllocError>
    ensures { IfOk result (λ v. v.items ≡ turns_ahead (map said_of lines.now)) }
{
    let mut turns = Vec::new(heap);
    for line in lines {
        match &line.command {
            Ok(Command::Turn(call)) => turns.push(Turn {
                call: *call,
                reply: None,
            })?,
            Ok(_) => break,
            Err(_) => {}
        }
    }
    Ok(turns)
}

// A call on the notes.
fn note_call(call: NoteCall) -> Call<By, i64>
    ensures { (n : ℕ) (ts : List Turn) → request_for n (order_of (Note call)) ts ≡ Some (called result None) }
{
    match call {
        NoteCall::Bar {
            condition,
            remedy,
            first,
            last,
        } => Call::Bar {
            condition,
            remedy,
            first,
            last,
        },
        NoteCall::Surcharge {
            remedy,
            amount,
            first,
            last,
        } => Call::Surcharge {
            remedy,
            amount,
            first,
            last,
        },
        NoteCall::Prolong { place, last } => Call::Prolong { place, last },
        NoteCall::Lift { place } => Call::Lift { place },
    }
}

// The call of a line, where it is not a turn of a round that was begun before; these lines follow it.
fn call_for(
    heap: Global,
    sizes: Sizes,
    command: &Command,
    ahead: &[ScriptLine],
) -> Result<Option<Call<By, i64>>, AllocError>
    ensures { IfOk result (λ o. option_map (λ c. called c None) o ≡ request_for sizes.conditions (order_of command.now) (turns_ahead (map said_of ahead.now))) }
{
    Ok(match command {
        Command::Note(call) => Some(note_call(*call)),
        Command::Plan { by, visits } => Some(Call::Plan {
            criterion: criterion_for(*by, sizes.parts),
            visits: *visits,
            values: values_for(heap, sizes, *visits)?,
            remedies: remedies_for(heap, sizes, *visits)?,
        }),
        Command::Judge {
            by,
            visits,
            remedies,
        } => Some(Call::Judge {
            criterion: criterion_for(*by, sizes.parts),
            visits: *visits,
            values: values_for(heap, sizes, *visits)?,
            remedies: remedies.clone()?,
        }),
        Command::Begin { visits, condition } => Some(Call::Round {
            visits: *visits,
            condition: *condition,
            values: values_for(heap, sizes, *visits)?,
            remedies: remedies_for(heap, sizes, *visits)?,
            turns: turns_in(heap, ahead)?,
        }),
        Command::Turn(_) => None,
    })
}

// The requests of a script, in order.
pub(crate) fn requests_in(
    heap: Global,
    sizes: Sizes,
    lines: &[ScriptLine],
) -> Result<Vec<Request<By, i64>>, AllocError>
    ensures { IfOk result (λ v. map brought_of v.items ≡ requests_of sizes.conditions (map said_of lines.now)) }
{
    let mut requests = Vec::new(heap);
    let mut left = lines;
    while let Some((line, ahead)) = left.split_first() {
        left = ahead;
        let Ok(command) = &line.command else {
            continue;
        };
        if let Some(call) = call_for(heap, sizes, command, ahead)? {
            requests.push(Request::new(call))?;
        }
    }
    Ok(requests)
}
