// A reader that refers to a sheet and holds a record number: made at the header, moved on to a record, and read. Each function is thin, and
// `record_at` does the work.
#![tactic(auto)]

ghost use Rattle.std.specs.Prelude.{◌≡◌};
ghost use Rattle.sheet_rules.specs.Promises.{RecordReadAs};

use records::record_at;
use sheet_rules::LoadRecord;

#[derive(Clone, Copy)]
pub struct Reader<'a> {
    pub sheet: &'a [u8],
    pub number: usize,
}

// The reader at the header, as record 0.
pub fn opened<'a>(sheet: &'a [u8]) -> Reader<'a>
    ensures { (result.sheet ≡ sheet.entry) × (result.number ≡ 0) }
{
    Reader { sheet, number: 0 }
}

// The reader at another record of the same sheet.
pub fn moved<'a>(reader: Reader<'a>, number: usize) -> Reader<'a>
    ensures { (result.sheet ≡ reader.entry.sheet) × (result.number ≡ number) }
{
    Reader {
        sheet: reader.sheet,
        number,
    }
}

// The record that the reader is at: the header's for 0, and missing above the last one.
pub fn read<'a>(reader: Reader<'a>) -> Option<LoadRecord>
    ensures { RecordReadAs reader.entry.sheet.now reader.entry.number result }
{
    record_at(reader.sheet, reader.number)
}

// A record by a reader that is moved on to it.
pub fn record_read(sheet: &[u8], number: usize) -> Option<LoadRecord>
    ensures { RecordReadAs sheet.now number result }
{
    read(moved(opened(sheet), number))
}
