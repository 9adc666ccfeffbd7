// What a program reads and prints: a sheet from a reader, and an answer as one line.
#![tactic(auto)]

ghost use Rattle.std.specs.Prelude.{◌≤◌};
ghost use Rattle.lines.specs.Lines.{Says};
ghost use Rattle.history_rules.specs.Answer.{history_of, RiseSaid};
ghost use Rattle.report.specs.Reading.{Within, FromBytes};
ghost use Rattle.report.specs.Lines.{rise_line};

mod reason;

use history::RiseAnswer;
pub use reason::fail;
use std::env::FillError;
use std::io;
use std::io::{Print, Read};
use std::rt::Env;
use text::Line;

// A loop over `read`, since the library's `read_exact` fails where an input is shorter than the buffer, and `read_to_end` allocates.
// Fills the buffer from its start: how many bytes were read before the input ended or the buffer was full, or why a read failed.
pub fn read_input<R: Read>(reader: &mut R, buffer: &mut [u8]) -> io::Result<usize>
    ensures { Within result buffer.new }
{
    let mut done: usize = 0;
    while done < buffer.len() {
        let more = reader.read(&mut buffer[done..])?;
        if more == 0 {
            break;
        }
        done += more;
    }
    Ok(done)
}

// In bytes. Longer than the longest sheet, so that a longer input is refused for its length and not cut.
pub const SHEET_ROOM: usize = 1024;

// What a sheet's chain is walked by. A trait and no closure: what is handed in has its promise by its type, so that `rise_from` asks for none.
pub trait Walk {
    fn rise(&self, sheet: &[u8]) -> RiseAnswer
        ensures { RiseSaid (history_of sheet.now) result };
}

// Each record is read from the bytes: `history::rise`.
#[derive(Clone, Copy)]
pub struct Plain;

impl Walk for Plain {
    fn rise(&self, sheet: &[u8]) -> RiseAnswer {
        history::rise(sheet)
    }
}

// Each record is read by the sheet's reader: `history::rise_by_reader`.
#[derive(Clone, Copy)]
pub struct ByReader;

impl Walk for ByReader {
    fn rise(&self, sheet: &[u8]) -> RiseAnswer {
        history::rise_by_reader(sheet)
    }
}

// The rise of the sheet that a reader gives, or why it could not be read.
pub fn rise_from<R: Read, W: Walk>(reader: &mut R, walk: &W) -> io::Result<RiseAnswer>
    ensures { FromBytes result }
{
    let mut buffer = [0u8; SHEET_ROOM];
    let length = read_input(reader, &mut buffer)?;
    Ok(walk.rise(&buffer[..length]))
}

// `rise LOW HIGH` or `refused NUMBER PLACE`, and the line's end.
pub fn rise_line(answer: RiseAnswer) -> Line
    ensures { Says result (rise_line answer) }
{
    lines::answer_line(b"rise", history::parts(answer))
}

pub fn print_rise(rt: &HostRuntime, answer: RiseAnswer, lost: &[u8]) {
    print(rt, rise_line(answer), lost);
}

// Writes the line as it is, with no line end of its own.
pub fn print(rt: &HostRuntime, line: Line, lost: &[u8]) {
    put(rt, line.as_slice(), lost);
}

// Writes to standard output. Where that fails, standard error is told what was lost, and the reason that the system gives.
pub fn put(rt: &HostRuntime, text: &[u8], lost: &[u8]) {
    if let Err(error) = rt.stdout().write_all(text) {
        fail(rt, lost, error);
    }
}

// How many words the program was started with, its own name among them, and `most` where they are more.
pub fn word_count(rt: &HostRuntime, most: usize) -> usize
    ensures { result ≤ most }
{
    let mut first = [0u8; 1];
    for k in 0..most {
        if let Err(FillError::NotPresent) = rt.arg(k, &mut first) {
            return k;
        }
    }
    most
}
