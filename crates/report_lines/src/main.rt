// Prints an answer of each kind, for the line that document 01 asks for: "a negative number with a leading minus sign", and 0 for no place.
#![tactic(auto)]

use bounds::Bounds;
use history::RiseAnswer;
use refusals::{Place, Refusal};

fn main(rt: HostRuntime) {
    print(&rt, 562500, 562500);
    print(&rt, -1, 0);
    print(&rt, -6400, -1);
    print(&rt, -9223372036854775807 - 1, 9223372036854775807);
    print_refused(&rt, 1, Place::None);
    print_refused(&rt, 2, Place::Field(8));
    print_refused(&rt, 5, Place::Record(0));
    print_refused(&rt, 8, Place::Record(48));
    print_refused(&rt, 10, Place::Hour(23));
    print_refused(&rt, 12, Place::Input(2));
}

fn print(rt: &HostRuntime, low: i64, high: i64) {
    report::print_rise(
        rt,
        RiseAnswer::Rise(Bounds { low, high }),
        b"report_lines: a line cannot be written",
    );
}

fn print_refused(rt: &HostRuntime, number: u8, place: Place) {
    report::print_rise(
        rt,
        RiseAnswer::Refused(Refusal { number, place }),
        b"report_lines: a line cannot be written",
    );
}
