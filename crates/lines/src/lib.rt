// An answer's line, as document 01's 'Cases' has the program `rise` print it: a word and numbers in decimal.
#![tactic(auto)]

ghost use Rattle.std.specs.Prelude.{◌≤◌, length};
ghost use Rattle.lines.specs.Lines.{Says, refusal_line, answer_line};

use refusals::Parts;
use text::Line;

// A line and no `Display`, whose `write!` could fail. By the count of values, since the parts are plain numbers for the C interface:
// `refused NUMBER PLACE`, `WORD VALUE` or `WORD LOW HIGH`.
#[tactic(auto, unfolding(crate::specs::Lines::answer_line))]
pub fn answer_line(word: &[u8], parts: Parts) -> Line
    requires { length word.now ≤ 8 }
    ensures { Says result (answer_line word.now parts) }
{
    if parts.count == 0 {
        return refusal_line(parts.number, parts.place);
    }
    let first = Line::empty().with(word).with(b" ").with_signed(parts.first);
    if parts.count == 1 {
        return first.with(b"\n");
    }
    first.with(b" ").with_signed(parts.second).with(b"\n")
}

#[tactic(auto, unfolding(crate::specs::Lines::refusal_line))]
fn refusal_line(number: u8, place: u8) -> Line
    ensures { Says result (refusal_line number place) }
{
    let refused = Line::empty()
        .with(b"refused ")
        .with_number(u64::from(number));
    refused.with(b" ").with_number(u64::from(place)).with(b"\n")
}
