// Every calculation from the shell: `rating COMMAND NUMBERS` or `rating COMMAND FILE NUMBERS` prints one line of answer.
#![tactic(auto)]

mod file;
mod usage;

use asked::Asked;
use std::rt::Env;
use text::Line;
use usage::usage;
use words::{AFTER_COMMAND, AFTER_FILE, Command, MOST, ROOM};

// More words than any command takes.
const MOST_WORDS: usize = 64;

fn main(rt: HostRuntime) {
    let words = report::word_count(&rt, MOST_WORDS);
    if words < AFTER_COMMAND {
        guide::help(&rt);
        return;
    }
    match command_given(&rt) {
        Some(Command::Calculate(asked)) => calculate(&rt, words, asked),
        Some(Command::Rise) if words == AFTER_FILE => {
            of_file(&rt, |sheet| report::rise_line(history::rise(sheet)))
        }
        Some(Command::Rise) => guide::complaint(&rt, b"usage: one file wanted: rating rise FILE\n"),
        Some(Command::Explain) => explain(&rt, words),
        Some(Command::Help) if words == AFTER_COMMAND => guide::help(&rt),
        Some(Command::Help) => {
            guide::complaint(&rt, b"usage: no more words wanted: rating help\n")
        }
        Some(Command::Version) if words == AFTER_COMMAND => guide::version(&rt),
        Some(Command::Version) => {
            guide::complaint(&rt, b"usage: no more words wanted: rating version\n")
        }
        None => guide::complaint(
            &rt,
            b"usage: no such command; rating share, factor, current, rise, explain, help or version\n",
        ),
    }
}

// The command that the first word names. A word longer than every name is none.
fn command_given(rt: &HostRuntime) -> Option<Command> {
    let mut word = [0u8; 16];
    let length = rt.arg(1, &mut word).ok()?;
    words::command_of(&word[..length])
}

// A calculation of the cable whose numbers follow the command, or of the sheet in a file that is named first.
fn calculate(rt: &HostRuntime, words: usize, asked: Asked) {
    let named = names_file(rt, words);
    match words::read(rt, words, named, asked::wanted(asked, named)) {
        Ok(values) if named => of_file(rt, |sheet| answers::in_sheet(asked, sheet, values)),
        Ok(values) => print_answer(rt, answers::of_cable(asked, values)),
        Err(fault) => guide::fault(rt, fault, usage(asked, named)),
    }
}

// Whether the word after the command names a file: it is not all digits. Of a word that is longer than every path its start tells.
fn names_file(rt: &HostRuntime, words: usize) -> bool {
    if words <= AFTER_COMMAND {
        return false;
    }
    let mut word = io::buffer();
    let length = rt.arg(AFTER_COMMAND, &mut word).unwrap_or(word.len());
    text::number_of(&word[..length], MOST).is_none()
}

// The line of the sheet in the file that is named.
fn of_file<F: Fn(&[u8]) -> Line>(rt: &HostRuntime, line_of: F)
    requires { F.IsAlwaysCallable line_of }
{
    let mut buffer = [0u8; report::SHEET_ROOM];
    if let Ok(length) = file::read_sheet(rt, &mut buffer) {
        print_answer(rt, line_of(&buffer[..length]));
    }
}

fn print_answer(rt: &HostRuntime, line: Line) {
    report::print(rt, line, b"rating: the answer cannot be written");
}

// A refusal's number and, where a second word follows, its place.
fn explain(rt: &HostRuntime, words: usize) {
    let placed = words == AFTER_COMMAND + 2;
    let wanted = if placed { 2 } else { 1 };
    match words::read(rt, words, false, wanted) {
        Ok(values) if placed => guide::refusal_at(rt, values[0], values[1]),
        Ok(values) => guide::refusal(rt, values[0]),
        Err(fault) => guide::fault(
            rt,
            fault,
            b"usage: one or two numbers wanted: rating explain NUMBER PLACE\n",
        ),
    }
}
