// The rise with the chain walked by the reader of the sheet: the same walk, each record read by the reader.
ghost use Rattle.history_rules.specs.Answer.{history_of, RiseSaid};

use crate::RiseAnswer;
use refusals::{Place, Refusal};
use sheet::reader;

// The same rise, its chain walked by a reader: the starting current and every link, minute and ampere come through it.
pub fn rise_by_reader(sheet: &[u8]) -> RiseAnswer
    ensures { RiseSaid (history_of sheet.now) result }
{
    let checked = sheet::check_sheet(sheet);
    match checked {
        Err(refusal) => RiseAnswer::Refused(refusal),
        Ok(header) => {
            let ground = sheet::ground_of(sheet, header);
            let read = reader::record_read(sheet, 0);
            // Never taken: record 0 of an accepted sheet is the one made of its header.
            let Some(first) = read else {
                return RiseAnswer::Refused(Refusal {
                    number: 1,
                    place: Place::None,
                });
            };
            crate::walked(
                ground,
                first,
                |number| reader::record_read(ground.sheet, number),
            )
        }
    }
}
