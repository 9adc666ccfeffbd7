// What is asked of a cable or of a sheet: how many numbers it takes, and the hours among them as the factor takes them.
#![tactic(auto)]

ghost use Rattle.std.specs.Prelude.{◌≡◌, ◌≤◌, min};
ghost use Rattle.cycle_rules.specs.Day.{day_hours};
ghost use Rattle.words.specs.Words.{cable_fields, numbers_room};
ghost use Rattle.asked.specs.Wanted.{more_of, wanted_by};
ghost use Rattle.asked.specs.Hours.{HoursFrom, most_hour};

pub use commands::Asked;
use cycle_rules::DAY_HOURS;
use std::array;
use words::{CABLE_FIELDS, ROOM};

// How many numbers it takes: a cable's fields, where no file is named, and what is asked.
pub fn wanted(asked: Asked, named: bool) -> usize
    ensures { (result ≡ wanted_by asked named) × (result ≤ numbers_room) }
{
    let more = more_wanted(asked);
    if named { more } else { CABLE_FIELDS + more }
}

fn more_wanted(asked: Asked) -> usize
    ensures { (result ≡ more_of asked) × (result ≤ day_hours) }
{
    match asked {
        Asked::Share => 1,
        Asked::Factor => DAY_HOURS,
        Asked::Current => 3,
    }
}

// The hourly amperes from place `from` on, as the factor takes them: the type's largest value where they are beyond it.
pub fn hours_from(values: [u32; ROOM], from: usize) -> [u16; DAY_HOURS]
    requires { from ≤ cable_fields }
    ensures { HoursFrom from values result }
{
    array::from_fn(|k| narrowed(values[from + k]))
}

fn narrowed(amperes: u32) -> u16
    ensures { result ≡ min amperes most_hour }
{
    u16::try_from(amperes).unwrap_or(u16::MAX)
}
