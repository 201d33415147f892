// The words of refusals.
ghost use Rattle.std.specs.Prelude.{◌≡◌};
ghost use Rattle.answers.specs.Words.{word};

// The word that is printed beside a refusal's number.
#[tactic(auto, unfolding(crate::specs::Words::word))]
pub(crate) fn word_of(number: u32) -> &'static str
    ensures { result.now ≡ word number }
{
    match number {
        1 => "visits",
        2 => "short",
        3 => "unknown",
        4 => "span",
        5 => "dear",
        6 => "full",
        7 => "stuck",
        8 => "uneven",
        9 => "fine",
        10 => "rule",
        12 => "size",
        13 => "entry",
        14 => "over",
        15 => "impossible",
        16 => "early",
        20 => "letter",
        21 => "fields",
        22 => "number",
        23 => "range",
        24 => "order",
        25 => "space",
        26 => "end",
        _ => "",
    }
}
