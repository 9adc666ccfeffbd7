// One record of a load sheet: the header's for 0, and refusals 5 to 8. Document 01, 'The load sheet'; document 02, note 2.
#![tactic(auto)]

ghost use Rattle.std.specs.Prelude.{◌≡◌, ◌+◌, ◌≤◌, length};
ghost use Rattle.sheet_rules.specs.Layout.{record_length, most_records, record_start};
ghost use Rattle.sheet_rules.specs.Records.{record_of, before_first, refused_at};
ghost use Rattle.sheet_rules.specs.Promises.{RecordReadAs, RecordSaid};

use header::RECORD_LENGTH;
use refusals::{Place, Refusal};
use sheet_rules::LoadRecord;

// A step's minutes before now.
const LEAST_MINUTES: u32 = 1;

const MOST_MINUTES: u32 = 2880;

// In A.
const MOST_AMPERES: u32 = 4000;

// The header as the record before the first: the starting current, from earlier than every step, and the first link.
pub fn before_first(start: u32, link: usize) -> LoadRecord
    ensures { result ≡ before_first start link }
{
    LoadRecord {
        number: 0,
        minutes: MOST_MINUTES + 1,
        amperes: start,
        next: link,
    }
}

// Record `number` of a sheet: the header's for 0, and missing above the last one.
pub fn record_at(sheet: &[u8], number: usize) -> Option<LoadRecord>
    ensures { RecordReadAs sheet.now number result }
{
    let size = sheet.len();
    if header::wrong_length(size) {
        return None;
    }
    if header::record_count(size) < number {
        return None;
    }
    if number == 0 {
        return Some(before_first(header::starting_current(sheet), header::first_link(sheet)));
    }
    Some(held_record(sheet, number))
}

fn held_record(sheet: &[u8], number: usize) -> LoadRecord
    requires { (1 ≤ number) × (number ≤ most_records) × (record_start (length sheet.now) number + record_length ≤ length sheet.now) }
    ensures { result ≡ record_of sheet.now number }
{
    let header = header::header_length(sheet.len());
    let at = header + RECORD_LENGTH * (number - 1);
    let minutes = header::number_at(sheet, at, 2);
    let amperes = header::number_at(sheet, at + 2, 2);
    let next = header::number_at(sheet, at + 4, 2) as usize;
    LoadRecord {
        number: number as u8,
        minutes,
        amperes,
        next,
    }
}

// What was read at the link of the record `before`, or its first refusal.
pub fn check_record(before: LoadRecord, read: Option<LoadRecord>) -> Result<LoadRecord, Refusal>
    ensures { RecordSaid before read result }
{
    let Some(record) = read else {
        return refused_at(5, before.number);
    };
    if ranges::outside(record.minutes, LEAST_MINUTES, MOST_MINUTES) {
        return refused_at(6, record.number);
    }
    if MOST_AMPERES < record.amperes {
        return refused_at(7, record.number);
    }
    if before.minutes <= record.minutes {
        return refused_at(8, record.number);
    }
    Ok(record)
}

pub fn refused_at(number: u8, place: u8) -> Result<LoadRecord, Refusal>
    ensures { result ≡ refused_at number place }
{
    Err(Refusal {
        number,
        place: Place::Record(place),
    })
}
