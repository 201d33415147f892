// What is printed of a script, when its requests are served.
ghost use Rattle.std.specs.Prelude.{◌≡◌, ◌++◌, [], map, None, IfOk, string_bytes};
ghost use Rattle.script.specs.Scripts.{said_of, checked_of};
ghost use Rattle.answers.specs.Printing.{table_lines};
ghost use Rattle.answers.specs.Requests.{called, brought_of};
ghost use Rattle.answers.specs.Texts.{turn_line, accepted, request_text, line_text, after_line, remaining, printed};

use super::lines::{write_number, write_refusal, write_silence, write_total};
use books::sizes::Sizes;
use criteria::by::By;
use following::call::{Reply, RoundCall, Turn};
use script::command::Command;
use script::script::ScriptLine;
use service::call::{Call, Request};
use std::alloc::{AllocError, Global};

// The first so many entries of a plan or a judgement.
fn write_entries(
    out: &mut String,
    sizes: Sizes,
    values: &[i64],
    remedies: &[u8],
    entries: usize,
) -> Result<(), AllocError>
    ensures { IfOk result (λ _. string_bytes out.new ≡ string_bytes out.old ++ table_lines sizes.conditions values.now remedies.now entries) }
{
    for (i, (&value, &remedy)) in values.iter().zip(remedies).take(entries).enumerate() {
        let visit = i / sizes.conditions + 1;
        let condition = i % sizes.conditions;
        writeln!(out, "P\t{visit}\t{condition}\t{remedy}\t{value}")?;
    }
    Ok(())
}

// A turn of a round.
fn write_turn(out: &mut String, line: usize, turn: Turn) -> Result<(), AllocError>
    ensures { IfOk result (λ _. string_bytes out.new ≡ string_bytes out.old ++ turn_line line turn.call turn.reply) }
{
    match (turn.call, turn.reply) {
        (_, Some(Reply::Treated { remedy })) => write_number(out, line, remedy),
        (_, Some(Reply::Settled { total })) => write_total(out, line, total),
        (_, Some(Reply::Declined(refusal))) => {
            write_refusal(out, line, refusal.number(), refusal.places())
        }
        (RoundCall::Report { next }, Some(Reply::Reported)) => write_number(out, line, next),
        _ => write_silence(out, line),
    }
}

// A call that is accepted.
fn write_accepted(
    out: &mut String,
    sizes: Sizes,
    line: usize,
    call: &Call<By, i64>,
    answer: usize,
) -> Result<(), AllocError>
    ensures { IfOk result (λ _. string_bytes out.new ≡ string_bytes out.old ++ accepted sizes.conditions line answer (called call.now None).order (called call.now None).values (called call.now None).remedies) }
{
    match call {
        Call::Judge {
            values,
            remedies,
            ..
        }
        | Call::Plan {
            values,
            remedies,
            ..
        } => {
            write_entries(out, sizes, values.as_slice(), remedies.as_slice(), answer)?;
            write_number(out, line, answer)
        }
        Call::Round {
            condition,
            values,
            ..
        } => write_total(out, line, values.get(*condition).copied().unwrap_or(0)),
        _ => write_number(out, line, answer),
    }
}

// A request.
fn write_request(
    out: &mut String,
    sizes: Sizes,
    line: usize,
    request: &Request<By, i64>,
) -> Result<(), AllocError>
    ensures { IfOk result (λ _. string_bytes out.new ≡ string_bytes out.old ++ request_text sizes.conditions line (brought_of request.now)) }
{
    match request.answer {
        Some(Ok(answer)) => write_accepted(out, sizes, line, &request.call, answer),
        Some(Err(refusal)) => write_refusal(out, line, refusal.number(), refusal.places()),
        None => write_silence(out, line),
    }
}

// The turns of a request.
fn turns_of(request: &Request<By, i64>) -> &[Turn]
    ensures { result.now ≡ (brought_of request.now).round }
{
    match &request.call {
        Call::Round { turns, .. } => turns.as_slice(),
        _ => &[],
    }
}

// What is left to print: the turns of the round that stands open, and the requests.
#[derive(Clone, Copy)]
struct Unprinted<'a> {
    turns: &'a [Turn],
    requests: &'a [Request<By, i64>],
}

impl<'a> Unprinted<'a> {
    ghost use Rattle.answers.specs.Views.{remaining_of};

    // Writes what is printed of a line, and answers what is left after it.
    fn write_line(
        self,
        out: &mut String,
        sizes: Sizes,
        line: &ScriptLine,
    ) -> Result<Unprinted<'a>, AllocError>
        ensures text { IfOk result (λ _. string_bytes out.new ≡ string_bytes out.old ++ line_text sizes.conditions line.now.number (checked_of line.now.command) (remaining_of self.entry)) }
        ensures left { IfOk result (λ u. remaining_of u ≡ after_line (checked_of line.now.command) (remaining_of self.entry)) }
    {
        match &line.command {
            Err(fault) => {
                write_refusal(out, line.number, fault.number(), fault.places())?;
                Ok(self)
            }
            Ok(Command::Turn(_)) => match self.turns.split_first() {
                Some((turn, turns)) => {
                    write_turn(out, line.number, *turn)?;
                    Ok(Unprinted { turns, ..self })
                }
                None => {
                    write_silence(out, line.number)?;
                    Ok(self)
                }
            },
            Ok(_) => match self.requests.split_first() {
                Some((request, requests)) => {
                    write_request(out, sizes, line.number, request)?;
                    let turns = turns_of(request);
                    Ok(Unprinted { turns, requests })
                }
                None => Ok(self),
            },
        }
    }
}

// What is printed of the lines of a script, where these requests were made of them and served.
pub(crate) fn text_of(
    heap: Global,
    sizes: Sizes,
    lines: &[ScriptLine],
    requests: &[Request<By, i64>],
) -> Result<String, AllocError>
    ensures { IfOk result (λ s. string_bytes s ≡ printed sizes.conditions (remaining [] (map brought_of requests.now)) (map said_of lines.now)) }
{
    let mut out = String::new(heap);
    let mut left = Unprinted {
        turns: &[],
        requests,
    };
    for line in lines {
        left = left.write_line(&mut out, sizes, line)?;
    }
    Ok(out)
}
