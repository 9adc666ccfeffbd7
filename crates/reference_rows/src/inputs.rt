// What a row asks: a day's hours, or a sheet in hexadecimal.
ghost use Rattle.std.specs.Prelude.{◌≡◌, ◌<◌, IfSome};
ghost use Rattle.reference_rows.specs.Cells.{value_in};
ghost use Rattle.reference_rows.specs.Inputs.{base, digit_of, sheet_name, SheetOf, hours_name, DayOf};

use crate::cells;
use arrayvec::ArrayVec;
use cycle_rules::DAY_HOURS;

// The amperes of a day, where all of them can be read.
pub fn day_in(cell: &[u8]) -> Option<[u16; DAY_HOURS]>
    ensures { DayOf (value_in hours_name cell.now) result }
{
    day_of(cells::value(cell, b"hours"))
}

// Of 24 numbers with commas between, and no more. They are set by their index: what is no number ends the loop, which
// `array::from_fn` cannot, and after an `iter_mut` a proof knows no element.
fn day_of(list: &[u8]) -> Option<[u16; DAY_HOURS]>
    ensures { DayOf list.now result }
{
    if !cells::part(list, b',', DAY_HOURS).is_empty() {
        return None;
    }
    let mut hours = [0u16; DAY_HOURS];
    for k in 0..DAY_HOURS {
        let amperes = cells::whole(cells::part(list, b',', k))?;
        hours[k] = u16::try_from(amperes).ok()?;
    }
    Some(hours)
}

// In bytes: more than the longest sheet.
const SHEET_ROOM: usize = 1024;

// A sheet in hexadecimal. No row has one of no bytes.
pub fn sheet_in(cell: &[u8]) -> Option<ArrayVec<u8, SHEET_ROOM>>
    ensures { SheetOf (value_in sheet_name cell.now) result }
{
    bytes_of(cells::value(cell, b"sheet_hex"))
}

// The bytes of hexadecimal digits: none where one is no digit, where their count is odd, or where there are too many.
fn bytes_of(hex: &[u8]) -> Option<ArrayVec<u8, SHEET_ROOM>>
    ensures { SheetOf hex.now result }
{
    if hex.is_empty() || hex.len() % 2 != 0 {
        return None;
    }
    let mut bytes = ArrayVec::new();
    for pair in hex.chunks_exact(2) {
        let high = digit(pair[0])?;
        let low = digit(pair[1])?;
        bytes.try_push(16 * high + low).ok()?;
    }
    Some(bytes)
}

// The library's `char::to_digit` takes capitals too, which no row has.
fn digit(byte: u8) -> Option<u8>
    ensures value { result ≡ digit_of byte }
    ensures below { IfSome result (λ d. d < base) }
{
    match byte {
        b'0'..=b'9' => Some(byte - b'0'),
        b'a'..=b'f' => Some(byte - b'a' + 10),
        _ => None,
    }
}
