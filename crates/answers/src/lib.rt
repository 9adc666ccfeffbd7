// The line of each answer, from the numbers that were read: a cable's eight fields, and what is asked of it; or from the bytes of a sheet and what is asked.
#![tactic(auto)]

ghost use Rattle.std.specs.Prelude.{◌≤◌};
ghost use Rattle.text.specs.Writing.{line_length, line_room};
ghost use Rattle.lines.specs.Lines.{Says};
ghost use Rattle.answers.specs.Lines.{share_line, factor_line, current_line, OfCable, InSheet};

use asked::{Asked, hours_from};
use cycle::FactorAnswer;
use emergency::CurrentAnswer;
use share::ShareAnswer;
use text::Line;
use words::{CABLE_FIELDS, ROOM};

// What is asked of a cable, from the numbers that were read: minutes, 24 hours, or the preload, limit and minutes stand behind its eight fields.
pub fn of_cable(asked: Asked, values: [u32; ROOM]) -> Line
    ensures { (OfCable asked values result) × (line_length result ≤ line_room) }
{
    let cable = cable::cable_from(&values);
    match asked {
        Asked::Share => share_line(share::share(cable, values[CABLE_FIELDS])),
        Asked::Factor => factor_line(cycle::factor(cable, hours_from(values, CABLE_FIELDS))),
        Asked::Current => current_line(emergency::current(
            cable,
            values[CABLE_FIELDS],
            values[CABLE_FIELDS + 1],
            values[CABLE_FIELDS + 2],
        )),
    }
}

// What is asked of a sheet, with the numbers that were read, which stand first. Each arm calls another function than `of_cable` and reads other places, so that a
// trait for the two would state the six calls once more.
pub fn in_sheet(asked: Asked, sheet: &[u8], values: [u32; ROOM]) -> Line
    ensures { (InSheet asked sheet.now values result) × (line_length result ≤ line_room) }
{
    match asked {
        Asked::Share => share_line(share::share_in_sheet(sheet, values[0])),
        Asked::Factor => factor_line(cycle::factor_in_sheet(sheet, hours_from(values, 0))),
        Asked::Current => current_line(emergency::current_in_sheet(
            sheet, values[0], values[1], values[2],
        )),
    }
}

// `share LOW HIGH`, `factor M`, `current I`, or `refused NUMBER PLACE`, and the line's end. The three answers are of three types, each with the `parts` of its own
// crate, so that a trait for them would take more lines than the three calls.
fn share_line(answer: ShareAnswer) -> Line
    ensures { Says result (share_line answer) }
{
    lines::answer_line(b"share", share::parts(answer))
}

fn factor_line(answer: FactorAnswer) -> Line
    ensures { Says result (factor_line answer) }
{
    lines::answer_line(b"factor", cycle::parts(answer))
}

fn current_line(answer: CurrentAnswer) -> Line
    ensures { Says result (current_line answer) }
{
    lines::answer_line(b"current", emergency::parts(answer))
}
