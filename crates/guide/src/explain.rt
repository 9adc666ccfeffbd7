// What a refusal says: its condition, as document 01's table ('When the desk is told no') and document 02's notes word it, and what its place is.
use crate::say;
use std::io;
use std::io::Print;

// The condition of a number, as it was typed; with its place, it is another function, since `rating explain` takes one word or two.
pub fn refusal(rt: &HostRuntime, number: u32) {
    explain(rt, number, None);
}

// The condition of a number, and its place.
pub fn refusal_at(rt: &HostRuntime, number: u32, place: u32) {
    explain(rt, number, Some(place));
}

fn explain(rt: &HostRuntime, number: u32, place: Option<u32>) {
    let Some(condition) = condition(number) else {
        say::complaint(rt, b"rating: no refusal has this number\n");
        return;
    };
    if let Err(error) = explained(rt, condition, number, place) {
        report::fail(rt, b"rating: the explanation cannot be written", error);
    }
}

// Each of the following that hands back an `io::Result` says whether what it has to say was written, or why not. A complaint counts as written: there is
// nowhere else to tell it.

fn explained(rt: &HostRuntime, condition: &str, number: u32, place: Option<u32>) -> io::Result<()> {
    out(rt, condition)?;
    match place {
        Some(place) => place_of(rt, number, place),
        None => Ok(()),
    }
}

fn out(rt: &HostRuntime, text: &str) -> io::Result<()> {
    rt.stdout().write_all(text.as_bytes())
}

// The condition, or none where no refusal has the number.
fn condition(number: u32) -> Option<&'static str> {
    match number {
        1 => Some("length is neither 36 + 6n nor 38 + 6n, n 0 to 48\n"),
        2 => Some("field outside its range, first such\n"),
        3 => Some("slow rate above fast\n"),
        4 => Some("starting current above 4,000\n"),
        5 => Some("link above n\n"),
        6 => Some("record's minutes out of range\n"),
        7 => Some("record's amperes above 4,000\n"),
        8 => Some("minutes not below the record before\n"),
        9 => Some("minutes asked outside 1 to 2,880\n"),
        10 => Some("hour above 4,000 A, first such\n"),
        11 => Some("all hours 0\n"),
        12 => Some("h outside 0 to 200, or r outside 1 to 200\n"),
        13 => Some("h² above 100·r\n"),
        14 => Some("neighbour's link above n or, unless 0, not above the record holding it\n"),
        15 => {
            Some("neighbour's offset beyond 3,000 mm either way, or depth outside 300 to 5,000\n")
        }
        16 => Some("neighbour's c below d\n"),
        _ => None,
    }
}

// What kind of place it is follows from the refusal's number.
fn place_of(rt: &HostRuntime, number: u32, place: u32) -> io::Result<()> {
    match number {
        2 => field(rt, place),
        5 => link(rt, place, "record 0: the header's first link\n"),
        6 => record(rt, place, ": its minutes, 1 to 2,880\n"),
        7 => record(rt, place, ": its amperes, 0 to 4,000\n"),
        8 => record(
            rt,
            place,
            ": its minutes, below those of the record before\n",
        ),
        10 => hour(rt, place),
        12 => input(rt, place),
        14 => link(rt, place, "record 0: the header's second link\n"),
        15 => record(
            rt,
            place,
            ": its offset, 3,000 mm either way at most, and depth, 300 to 5,000 mm\n",
        ),
        16 => record(
            rt,
            place,
            ": its distance from the cable's axis, not below the cable's diameter\n",
        ),
        _ if place == 0 => out(rt, "no place is named\n"),
        _ => no_such_place(rt),
    }
}

fn no_such_place(rt: &HostRuntime) -> io::Result<()> {
    say::complaint(rt, b"rating: this refusal has no such place\n");
    Ok(())
}

// The fields and ranges of document 01's table 'The cable'.
fn field(rt: &HostRuntime, place: u32) -> io::Result<()> {
    match place {
        1 => out(rt, "field 1: outer diameter, 0.1 mm, 100 to 1,500\n"),
        2 => out(rt, "field 2: depth of axis, mm, 300 to 5,000\n"),
        3 => out(
            rt,
            "field 3: soil diffusivity, 10^-9 m²/s, 100 to 2,000, or 0 for 500\n",
        ),
        4 => out(rt, "field 4: surface ratio, millionths, 0 to 1,000,000\n"),
        5 => out(rt, "field 5: fast weight, millionths, 0 to 1,000,000\n"),
        6 => out(
            rt,
            "field 6: fast rate, millionths per second, 1 to 100,000\n",
        ),
        7 => out(
            rt,
            "field 7: slow rate, millionths per second, 1 to 100,000\n",
        ),
        8 => out(rt, "field 8: rated current, A, 50 to 2,000\n"),
        _ => no_such_place(rt),
    }
}

fn link(rt: &HostRuntime, place: u32, header: &str) -> io::Result<()> {
    match place {
        0 => out(rt, header),
        _ => record(rt, place, ": its next link\n"),
    }
}

fn record(rt: &HostRuntime, place: u32, what: &str) -> io::Result<()> {
    match place {
        1..=48 => print!(rt; "record {place}{what}"),
        _ => no_such_place(rt),
    }
}

fn hour(rt: &HostRuntime, place: u32) -> io::Result<()> {
    match place {
        0..=23 => println!(rt; "hour {place}: its amperes, 0 to 4,000"),
        _ => no_such_place(rt),
    }
}

fn input(rt: &HostRuntime, place: u32) -> io::Result<()> {
    match place {
        1 => out(
            rt,
            "input 1: preload, percent of the rated current, 0 to 200\n",
        ),
        2 => out(rt, "input 2: limit, percent of the rated rise, 1 to 200\n"),
        _ => no_such_place(rt),
    }
}
