// What holds of the inputs and the answers of `quote`; each contract is a theorem.
ghost use Rattle.quoting.specs.Inputs.{AskingIsExact};
ghost use Rattle.quoting.specs.Quotes.{OneQuote, AnswersAreOne};

// What an input asks, or its first fault, is computed exactly; no input has two outputs, and two answers to it print
// alike and leave the same tables.
pub fn quotes_are_one()
    ensures exact { AskingIsExact }
    ensures one_output { OneQuote }
    ensures one_answer { AnswersAreOne }
{}
