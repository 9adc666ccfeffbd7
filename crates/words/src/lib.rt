// What is typed after `rating`: the whole numbers among the words; and the commands, passed on.
#![tactic(auto)]

ghost use Rattle.std.specs.Prelude.{◌≡◌, ◌≤◌};
ghost use Rattle.words.specs.Words.{after_file, first_number, numbers_room, ReadSaid};

pub use commands::{Command, command_of};
use cycle_rules::DAY_HOURS;
use std::rt::Env;

// The program's own name and the command stand before the first number, or before the name of a file.
pub const AFTER_COMMAND: usize = 2;

pub const AFTER_FILE: usize = AFTER_COMMAND + 1;

// The largest number that is asked for; digits that spell more stand for it.
pub const MOST: u32 = u32::MAX;

pub const CABLE_FIELDS: usize = 8;

// Room for a cable and its hours, the most that a calculation takes.
pub const ROOM: usize = CABLE_FIELDS + DAY_HOURS;

// Why numbers are not all there: another count of words than wanted, or the first, counted from 1, that is no whole number.
#[derive(Clone, Copy, PartialEq, Eq)]
pub enum Fault {
    Count,
    NotWhole(usize),
}

// The wanted numbers, from all the words after the command, or after the file that is named; 0 stands behind them.
pub fn read(
    rt: &HostRuntime,
    words: usize,
    named: bool,
    wanted: usize,
) -> Result<[u32; ROOM], Fault>
    requires { wanted ≤ numbers_room }
    ensures { ReadSaid words named wanted result }
{
    let first = first_number(named);
    if words != first + wanted {
        return Err(Fault::Count);
    }
    let mut values = [0u32; ROOM];
    // Set by index in an array of all places, since answers are read from fixed places and the contract has 0 behind: a word that is no number ends the call,
    // which `array::from_fn` cannot, and after an `iter_mut` a proof knows no element.
    for k in 0..wanted {
        values[k] = word_at(rt, first + k).ok_or(Fault::NotWhole(k + 1))?;
    }
    Ok(values)
}

// Where the numbers begin.
fn first_number(named: bool) -> usize
    ensures { (result ≡ first_number named) × (result ≤ after_file) }
{
    if named { AFTER_FILE } else { AFTER_COMMAND }
}

// Word k as a whole number. With pages of 4 KiB the system hands over no word that does not fit here.
fn word_at(rt: &HostRuntime, k: usize) -> Option<u32> {
    let mut word = [0u8; 131072];
    let length = rt.arg(k, &mut word).ok()?;
    text::number_of(&word[..length], MOST)
}
