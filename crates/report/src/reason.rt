// Why a read or a write failed, as the system words it.
use arrayvec::ArrayString;
use std::fmt::Write;
use std::io::{Error, Print};

// In bytes. No reason of the system is longer.
const REASON_ROOM: usize = 80;

// Writes a line to standard error: what failed, as the caller names it, a colon and the reason.
pub fn fail(rt: &HostRuntime, what: &[u8], error: Error) {
    let mut reason: ArrayString<REASON_ROOM> = ArrayString::new();
    let _ = write!(reason, "{error}");
    let _ = rt.stderr().write_all(what);
    let _ = rt.stderr().write_all(b": ");
    let _ = rt
        .stderr()
        .write_all(before_number(reason.as_str()).as_bytes());
    let _ = rt.stderr().write_all(b"\n");
}

// The reason's words: the number of a system's error, as in ` (os error 2)`, stands behind them and is left out.
fn before_number(reason: &str) -> &str {
    match reason.split_once(" (os error ") {
        Some((words, _)) => words,
        None => reason,
    }
}
