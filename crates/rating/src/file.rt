// The sheet in the file that the word after the command names.
ghost use Rattle.report.specs.Reading.{Within};

use std::env::FillError;
use std::fs;
use std::io::{Error, ErrorKind};
use std::rt::Env;
use words::AFTER_COMMAND;

// The numbers of the system's errors for a word that is not there, and for a name that is too long: what is printed is the system's text for them.
const NOT_THERE: i32 = 22;

const TOO_LONG: i32 = 36;

// Fills the buffer. Where the file cannot be read, that is told with the reason that the system gives.
pub fn read_sheet(rt: &HostRuntime, buffer: &mut [u8]) -> std::io::Result<usize>
    ensures { Within result buffer.new }
{
    let mut path = io::buffer();
    // Of a word that is longer than every path its start is there, and no length.
    let (name, read) = match rt.arg(AFTER_COMMAND, &mut path) {
        Ok(length) => (&path[..length], read_named(rt, &path[..length], buffer)),
        Err(error) => (path.as_slice(), Err(reason(error))),
    };
    if let Err(error) = read {
        guide::unread(rt, name, error);
    }
    read
}

// No `From`: both types are the library's.
fn reason(error: FillError) -> Error {
    match error {
        FillError::NotPresent => Error::from_raw_os_error(NOT_THERE),
        FillError::TooLong => Error::from_raw_os_error(TOO_LONG),
    }
}

// The library opens files by names that are UTF-8 alone.
fn read_named(rt: &HostRuntime, path: &[u8], buffer: &mut [u8]) -> std::io::Result<usize>
    ensures { Within result buffer.new }
{
    let name = std::str::from_utf8(path).map_err(|_| Error::new(
        ErrorKind::InvalidInput,
        "its name is not UTF-8",
    ))?;
    let mut file = fs::open(rt, name)?;
    report::read_input(&mut file, buffer)
}
