// Prints the rise of each sheet that an argument names, after the name. A name that four numbers follow asks for a range: LOW_MIN LOW_MAX HIGH_MIN
// HIGH_MAX. For it `inside` is printed where low and high are in their ranges, and `outside` where not. The chain of each sheet is walked by the reader, too:
// where its answer differs, it is printed on the next line, and the last line counts the sheets and those with two answers alike. A name, `against` and a
// second name hold the first sheet's answer by the plain walk to the second one's by the reader: `alike` or `differ` is printed.
#![tactic(auto)]

ghost use Rattle.std.specs.Prelude.{◌≡◌, true, false, ◌≤◌, ◌<◌};
ghost use Rattle.rise_files.specs.Words.{most_words};

use bounds::Bounds;
use history::RiseAnswer;
use refusals::Parts;
use report::{ByReader, Plain, Walk};
use std::fs;
use std::io::{Error, ErrorKind, Print};
use std::rt::Env;

const MOST_WORDS: usize = 4096;

// How many sheets had a line of their own, and for how many of them both walks gave the same answer.
#[derive(Clone, Copy)]
struct Counts {
    sheets: u64,
    alike: u64,
}

fn main(rt: HostRuntime) {
    let words = report::word_count(&rt, MOST_WORDS);
    let mut counts = Counts {
        sheets: 0,
        alike: 0,
    };
    for k in 1..words {
        counts = counted(&rt, counts, k);
    }
    print_counts(&rt, counts);
}

// The counts after argument k, with the line of the sheet that it names.
fn counted(rt: &HostRuntime, counts: Counts, k: usize) -> Counts
    requires { (0 < k) × (k < most_words) × (counts.sheets < k) × (counts.alike < k) }
    ensures { (result.sheets ≤ k) × (result.alike ≤ k) }
{
    if !begins(rt, k) {
        return counts;
    }
    if is_against(rt, k + 1) {
        print_against(rt, k, k + 2);
        return counts;
    }
    Counts {
        sheets: counts.sheets + 1,
        alike: counts.alike + u64::from(report_sheet(rt, k)),
    }
}

fn word_at(rt: &HostRuntime, k: usize) -> Option<i64> {
    let mut word = io::buffer();
    match rt.arg(k, &mut word) {
        Ok(length) => text::signed_of(&word[..length]),
        Err(_) => None,
    }
}

// Whether a line begins at argument k: it is no number, and no part of what stands before it.
fn begins(rt: &HostRuntime, k: usize) -> bool
    requires { 0 < k }
{
    word_at(rt, k).is_none() && !is_against(rt, k) && !is_against(rt, k - 1)
}

fn is_against(rt: &HostRuntime, k: usize) -> bool {
    let mut word = io::buffer();
    match rt.arg(k, &mut word) {
        Ok(length) => &word[..length] == b"against".as_slice(),
        Err(_) => false,
    }
}

fn print_word(rt: &HostRuntime, k: usize) {
    let mut text = io::buffer();
    if let Ok(length) = rt.arg(k, &mut text) {
        put(rt, &text[..length]);
    }
}

// The rise of the sheet that argument k names, by either walk.
fn rise_by<W: Walk>(rt: &HostRuntime, k: usize, walk: &W) -> std::io::Result<RiseAnswer> {
    let mut sheet = sheet_named(rt, k)?;
    report::rise_from(&mut sheet, walk)
}

// The file of the sheet that argument k names.
fn sheet_named(rt: &HostRuntime, k: usize) -> std::io::Result<fs::File> {
    let mut path = io::buffer();
    let Ok(length) = rt.arg(k, &mut path) else {
        return Err(Error::from(ErrorKind::InvalidInput));
    };
    match std::str::from_utf8(&path[..length]) {
        Ok(name) => fs::open(rt, name),
        Err(_) => Err(Error::from(ErrorKind::InvalidInput)),
    }
}

// The line of the sheet that argument k names; whether the two walks answer alike. That k is below `most_words` is asked here and in the functions that count on
// from it: a struct for it would hold the one number.
fn report_sheet(rt: &HostRuntime, k: usize) -> bool
    requires { k < most_words }
{
    print_word(rt, k);
    put(rt, b": ");
    let Ok(plain) = rise_by(rt, k, &Plain) else {
        put(rt, b"cannot be read\n");
        return false;
    };
    print_row(rt, plain, k);
    let Ok(other) = rise_by(rt, k, &ByReader) else {
        put(rt, b"by the reader: cannot be read\n");
        return false;
    };
    if same(history::parts(plain), history::parts(other)) {
        return true;
    }
    put(rt, b"by the reader: ");
    report::print_rise(rt, other, b"rise_files: a line cannot be written");
    false
}

fn print_row(rt: &HostRuntime, answer: RiseAnswer, k: usize)
    requires { k < most_words }
{
    match (word_at(rt, k + 1), answer) {
        (Some(low_min), RiseAnswer::Rise(pair)) => print_inside(rt, pair, low_min, k),
        _ => report::print_rise(rt, answer, b"rise_files: a line cannot be written"),
    }
}

fn print_inside(rt: &HostRuntime, pair: Bounds, low_min: i64, k: usize)
    requires { k < most_words }
{
    if low_min <= pair.low
        && word_at(rt, k + 2).is_some_and(|low_max| pair.low <= low_max)
        && word_at(rt, k + 3).is_some_and(|high_min| high_min <= pair.high)
        && word_at(rt, k + 4).is_some_and(|high_max| pair.high <= high_max)
    {
        put(rt, b"inside\n");
    } else {
        put(rt, b"outside\n");
    }
}

// The plain answer for the sheet of argument k, held to the reader's for that of argument j.
fn print_against(rt: &HostRuntime, k: usize, j: usize) {
    print_word(rt, k);
    put(rt, b" against ");
    print_word(rt, j);
    put(rt, b": ");
    let Ok(plain) = rise_by(rt, k, &Plain) else {
        put(rt, b"cannot be read\n");
        return;
    };
    // Not opened where the first cannot be read: it may be one that never ends.
    let Ok(other) = rise_by(rt, j, &ByReader) else {
        put(rt, b"cannot be read\n");
        return;
    };
    if same(history::parts(plain), history::parts(other)) {
        put(rt, b"alike\n");
    } else {
        put(rt, b"differ\n");
    }
}

// Whether two answers state the same: refusal, kind and number of its place, count of values, and values. The derived `==`, with what it says as clauses.
fn same(a: Parts, b: Parts) -> bool
    ensures alike { result ≡ true → a ≡ b }
    ensures differ { result ≡ false → a ≡ b → ⊥ }
{
    a == b
}

// A program that tests has nowhere to tell that a line was lost, here and in `put`.
fn print_counts(rt: &HostRuntime, counts: Counts) {
    let _ = println!(rt;
        "by the reader: {} of {} answers alike",
        counts.alike, counts.sheets
    );
}

// As the one line of `reference_rows`; a crate for the two would be longer.
fn put(rt: &HostRuntime, text: &[u8]) {
    let _ = rt.stdout().write_all(text);
}
