// What is printed of a quote.
ghost use Rattle.std.specs.Prelude.{◌≡◌, ◌≤◌, length, IfOk, string_bytes};
ghost use Rattle.quoting.specs.Faults.{fault_number, fault_places};
ghost use Rattle.quoting.specs.Printing.{refusal_line, text_of_plan, printed};
ghost use Rattle.quoting.specs.Quotes.{Quotes, SomeAnswer};

use super::fault::Fault;
use super::quote::quote;
use super::tables::{Quote, Tables};
use std::alloc::{AllocError, Global};

fn fault_text(heap: Global, fault: &Fault) -> Result<String, AllocError>
    ensures { IfOk result (λ s. string_bytes s ≡ refusal_line (fault_number fault.now) (fault_places fault.now)) }
{
    let number = fault.number();
    let (first, second, third) = fault.places();
    format!(in heap; "N\t{number}\t{first}\t{second}\t{third}\n")
}

fn plan_text(
    heap: Global,
    quote: Quote,
    values: &[i64],
    remedies: &[u8],
) -> Result<String, AllocError>
    requires values { 1536 ≤ length values.now }
    requires remedies { 1536 ≤ length remedies.now }
    ensures { IfOk result (λ s. string_bytes s ≡ text_of_plan quote.conditions values.now remedies.now quote.entries) }
{
    let mut out = String::new(heap);
    let entries = quote.entries;
    for (i, (&value, &remedy)) in values.iter().zip(remedies).take(entries).enumerate() {
        let visit = i / quote.conditions + 1;
        let condition = i % quote.conditions;
        writeln!(out, "P\t{visit}\t{condition}\t{remedy}\t{value}")?;
    }
    writeln!(out, "T\t{entries}")?;
    Ok(out)
}

// A `P` line for each entry and a `T` line with their count, or one `N` line with number and places.
pub fn text(
    heap: Global,
    answer: Result<Quote, Fault>,
    tables: &Tables,
) -> Result<String, AllocError>
    ensures { IfOk result (λ s. string_bytes s ≡ printed answer tables.now.values.items tables.now.remedies.items) }
{
    match answer {
        Ok(quote) => plan_text(
            heap,
            quote,
            tables.values.as_slice(),
            tables.remedies.as_slice(),
        ),
        Err(fault) => fault_text(heap, &fault),
    }
}

// What is printed of the bytes of an input: the whole of `quote`, worked in the tables.
#[tactic(auto, using(crate::proofs::Answered::answer_quoted))]
pub fn quoted(heap: Global, bytes: &[u8], tables: &mut Tables) -> Result<String, AllocError>
    ensures output { IfOk result (λ s. Quotes bytes.now (string_bytes s)) }
    ensures tables { SomeAnswer bytes.now tables.old tables.new }
{
    let answer = quote(bytes, tables);
    text(heap, answer, tables)
}
