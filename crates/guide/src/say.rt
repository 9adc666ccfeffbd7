// What is no answer, on standard error.
use std::io::{Error, Print};
use words::Fault;

pub fn complaint(rt: &HostRuntime, text: &[u8]) {
    let _ = rt.stderr().write_all(text);
}

// Why numbers are not all there.
pub fn fault(rt: &HostRuntime, fault: Fault, usage: &[u8]) {
    match fault {
        Fault::Count => complaint(rt, usage),
        Fault::NotWhole(k) => {
            let _ = eprintln!(rt; "rating: number {k} is not a whole number of digits only");
        }
    }
}

// Which file it is, and the reason that the system gave.
pub fn unread(rt: &HostRuntime, path: &[u8], error: Error) {
    complaint(rt, b"rating: the file cannot be read: ");
    report::fail(rt, path, error);
}
