// The bytes of a load sheet: numbers, lengths, and the header with refusals 1 to 4. Document 01, 'The load sheet'; document 02, note 2.
#![tactic(auto)]

ghost use Rattle.std.specs.Prelude.{◌≡◌, ◌+◌, ◌*◌, ◌≤◌, length};
ghost use Rattle.sheet_rules.specs.BigEndian.{big_endian};
ghost use Rattle.sheet_rules.specs.Layout.{short_header, header_length, record_count, wrong_length};
ghost use Rattle.sheet_rules.specs.Header.{field_of, cable_of, starting_current, first_link, second_link};
ghost use Rattle.sheet_rules.specs.Promises.{HeaderSaid};

use cable::Cable;
use refusals::{Place, Refusal};
use sheet_rules::Header;

// In bytes.
const SHORT_HEADER: usize = 36;

const LONG_HEADER: usize = 38;

pub const RECORD_LENGTH: usize = 6;

const MOST_RECORDS: usize = 48;

// In A. Document 01 states it beside that of a record's current, which is another rule.
const MOST_START: u32 = 4000;

// The number of `width` bytes at `at`, the most significant first.
pub fn number_at(sheet: &[u8], at: usize, width: usize) -> u32
    requires { (at + width ≤ length sheet.now) × (width ≤ 4) }
    ensures { result ≡ big_endian sheet.now at width }
{
    let mut number: u32 = 0;
    for byte in &sheet[at..at + width] {
        number = number * 256 + u32::from(*byte);
    }
    number
}

// How long the header of a sheet of `size` bytes is: a second link stands in a long one.
pub fn header_length(size: usize) -> usize
    ensures { result ≡ header_length size }
{
    if size % RECORD_LENGTH == LONG_HEADER % RECORD_LENGTH {
        LONG_HEADER
    } else {
        SHORT_HEADER
    }
}

// How many records a sheet of `size` bytes holds.
pub fn record_count(size: usize) -> usize
    ensures { result ≡ record_count size }
{
    let header = header_length(size);
    if size < header {
        0
    } else {
        (size - header) / RECORD_LENGTH
    }
}

// Whether refusal 1 meets a sheet of `size` bytes.
pub fn wrong_length(size: usize) -> bool
    ensures { result ≡ wrong_length size }
{
    let count = record_count(size);
    let header = header_length(size);
    MOST_RECORDS < count || size != header + RECORD_LENGTH * count
}

// Field `number` of the table, counted from 1. This and the three functions below ask that the header's bytes are there: a struct with that fact would have one
// field, and two of the four are named in docs/CONTRACTS.md as functions on bytes.
fn field(sheet: &[u8], number: usize) -> u32
    requires { (1 ≤ number) × (number ≤ 8) × (short_header ≤ length sheet.now) }
    ensures { result ≡ field_of sheet.now number }
{
    number_at(sheet, 4 * (number - 1), 4)
}

fn cable_of(sheet: &[u8]) -> Cable
    requires { short_header ≤ length sheet.now }
    ensures { result ≡ cable_of sheet.now }
{
    Cable {
        diameter: field(sheet, 1),
        depth: field(sheet, 2),
        diffusivity: field(sheet, 3),
        surface_ratio: field(sheet, 4),
        fast_weight: field(sheet, 5),
        fast_rate: field(sheet, 6),
        slow_rate: field(sheet, 7),
        rated: field(sheet, 8),
    }
}

pub fn starting_current(sheet: &[u8]) -> u32
    requires { short_header ≤ length sheet.now }
    ensures { result ≡ starting_current sheet.now }
{
    number_at(sheet, 32, 2)
}

pub fn first_link(sheet: &[u8]) -> usize
    requires { short_header ≤ length sheet.now }
    ensures { result ≡ first_link sheet.now }
{
    number_at(sheet, 34, 2) as usize
}

// A short header has no second link.
fn second_link(sheet: &[u8]) -> usize
    requires { header_length (length sheet.now) ≤ length sheet.now }
    ensures { result ≡ second_link sheet.now }
{
    if header_length(sheet.len()) == SHORT_HEADER {
        0
    } else {
        number_at(sheet, SHORT_HEADER, 2) as usize
    }
}

// The header of a sheet of any length, or its first refusal.
pub fn check_header(sheet: &[u8]) -> Result<Header, Refusal>
    ensures { HeaderSaid sheet.now result }
{
    if wrong_length(sheet.len()) {
        return Err(Refusal {
            number: 1,
            place: Place::None,
        });
    }
    let cable = cable::check_cable(cable_of(sheet))?;
    let start = starting_current(sheet);
    if MOST_START < start {
        return Err(Refusal {
            number: 4,
            place: Place::None,
        });
    }
    let link = first_link(sheet);
    let neighbours = second_link(sheet);
    Ok(Header {
        cable,
        start,
        link,
        neighbours,
    })
}
