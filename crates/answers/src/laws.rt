// What holds of every script and of every input; each contract is a theorem.
ghost use Rattle.answers.specs.Laws.{EachOrderIsARequest, RoundsTakeTheirTurns, EachLineIsAnswered, OneDesk};

// A script makes one request for each order that is not a turn, in order; and a round takes its own turns, all of them.
pub fn each_order_is_a_request()
    ensures requests { EachOrderIsARequest }
    ensures turns { RoundsTakeTheirTurns }
{}

// Each line is answered by a text of its own, in order, and each request, as it was served, at its own line.
pub fn each_line_is_answered()
    ensures { EachLineIsAnswered }
{}

// Nothing of what is printed is left open.
pub fn one_output_an_input()
    ensures { OneDesk }
{}
