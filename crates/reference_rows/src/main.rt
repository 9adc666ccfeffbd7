// Runs the reference's rows of shares, factors and currents through the public calls, and says of each whether the answer is one that the row allows.
// The rows stand in the files of this crate's data folder: all of false.tsv are false on purpose, and none of unreadable.tsv can be read.
#![tactic(auto)]

ghost use Rattle.std.specs.Prelude.{◌≡◌, ◌+◌, ◌≤◌, ◌<◌, length};
ghost use Rattle.report.specs.Reading.{Within};
ghost use Rattle.reference_rows.specs.Kinds.{kind_of};
ghost use Rattle.reference_rows.specs.Counting.{rows_in, table_room, most_rows};

mod answers;
mod cells;
mod inputs;
mod results;
mod verdicts;

use std::{fs, io};

// In bytes. A longer file is told, and not cut.
const TABLE_ROOM: usize = 65536;

const TABLES: [&str; 5] = [
    "reference.tsv",
    "reference-notes.tsv",
    "days.tsv",
    "false.tsv",
    "unreadable.tsv",
];

#[derive(Clone, Copy, Default)]
struct Counts {
    inside: u64,
    outside: u64,
    unreadable: u64,
}

fn main(rt: HostRuntime) {
    let mut counts = Counts::default();
    for name in TABLES {
        counts = table(&rt, name, counts);
    }
    print_counts(&rt, counts);
}

// The counts with the rows of a file, each of which has its line. That there is room for what is counted is asked of the counts at hand, other room in each
// function, and so it is no fact of the type.
fn table(rt: &HostRuntime, name: &str, counts: Counts) -> Counts
    requires { rows_in counts + table_room ≤ most_rows }
    ensures { rows_in result ≤ rows_in counts + table_room }
{
    put(rt, name.as_bytes());
    let mut buffer = [0u8; TABLE_ROOM];
    let Ok(length) = read_table(rt, name, &mut buffer) else {
        put(rt, b" cannot be read\n");
        return counts;
    };
    if length == TABLE_ROOM {
        put(rt, b" is too long\n");
        return counts;
    }
    put(rt, b"\n");
    rows(rt, &buffer[..length], counts)
}

fn read_table(rt: &HostRuntime, name: &str, buffer: &mut [u8]) -> io::Result<usize>
    ensures { Within result buffer.new }
{
    let mut file = fs::open(rt, name)?;
    report::read_input(&mut file, buffer)
}

fn rows(rt: &HostRuntime, table: &[u8], counts: Counts) -> Counts
    requires { rows_in counts + length table.now ≤ most_rows }
    ensures { rows_in result ≤ rows_in counts + length table.now }
{
    let mut all = counts;
    for line in table.split_inclusive(|x| *x == b'\n') {
        all = with_row(rt, all, cells::part(line, b'\n', 0));
    }
    all
}

// The counts with a row, after its line is printed.
fn with_row(rt: &HostRuntime, counts: Counts, line: &[u8]) -> Counts
    requires { rows_in counts < most_rows }
    ensures { rows_in result ≤ rows_in counts + 1 }
{
    let word = cells::part(line, b'\t', 0);
    if answers::skips(word) {
        return counts;
    }
    let inside = verdict(
        word,
        cells::part(line, b'\t', 2),
        cells::part(line, b'\t', 3),
    );
    put(rt, cells::part(line, b'\t', 1));
    put(
        rt,
        match inside {
            Some(true) => b" inside\n",
            Some(false) => b" outside\n",
            None => b" unreadable\n",
        },
    );
    counted(counts, inside)
}

// Whether a row's answer is one that it allows: nothing where its kind is not known, or it cannot be read.
fn verdict(word: &[u8], inputs: &[u8], results: &[u8]) -> Option<bool>
    ensures { kind_of word.now ≡ None → result ≡ None }
{
    let kind = answers::kind_of(word)?;
    let said = answers::ask(kind, inputs)?;
    verdicts::judge(kind, results, said)
}

fn counted(counts: Counts, inside: Option<bool>) -> Counts
    requires { rows_in counts < most_rows }
    ensures { rows_in result ≤ rows_in counts + 1 }
{
    let mut all = counts;
    match inside {
        Some(true) => all.inside += 1,
        Some(false) => all.outside += 1,
        None => all.unreadable += 1,
    }
    all
}

fn print_counts(rt: &HostRuntime, counts: Counts) {
    let inside = counts.inside;
    let outside = counts.outside;
    let unreadable = counts.unreadable;
    let _ = println!(rt; "{inside} rows inside, {outside} outside, {unreadable} unreadable");
}

// A program that tests has nowhere to tell that a line was lost. One line here and in `rise_files`: a crate for the two would be longer.
fn put(rt: &HostRuntime, text: &[u8]) {
    let _ = rt.stdout().write_all(text);
}
