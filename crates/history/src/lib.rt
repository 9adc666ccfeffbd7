// The rise of a cable after a load history: document 01, 'The load sheet'; document 02, note 2.
#![tactic(auto)]

ghost use Rattle.std.specs.Prelude.{◌≡◌, ℕ, Option};
ghost use Rattle.refusals.specs.Apart.{parts_of};
ghost use Rattle.sheet_rules.specs.Promises.{RecordReadAs};
ghost use Rattle.sheet_rules.specs.declared.LoadRecord.{LoadRecord};
ghost use Rattle.history_rules.specs.Answer.{stated_rise, history_of, RiseSaid};
ghost use Rattle.history_rules.specs.Walk.{Begins};

mod by_reader;

pub use by_reader::rise_by_reader;
pub use history_rules::{Reached, RiseAnswer};
use refusals::Parts;
use sheet::{Ground, LoadRecord};

// The rise now, from the bytes of a sheet of any length. The sheet is only read.
pub fn rise(sheet: &[u8]) -> RiseAnswer
    ensures { RiseSaid (history_of sheet.now) result }
{
    let checked = sheet::check_sheet(sheet);
    match checked {
        Err(refusal) => RiseAnswer::Refused(refusal),
        Ok(header) => {
            let ground = sheet::ground_of(sheet, header);
            let first = sheet::before_first(header.start, header.link);
            walked(
                ground,
                first,
                |number| sheet::record_at(ground.sheet, number),
            )
        }
    }
}

// The walk along the chain of records, from the header's own on, each read by its number. Minutes fall from record to record.
fn walked<F: Fn(usize) -> Option<LoadRecord>>(
    ground: Ground,
    first: LoadRecord,
    read: F,
) -> RiseAnswer
    requires begins { Begins ground first }
    requires callable { F.IsAlwaysCallable read }
    requires reads { (number : ℕ) (r : Option LoadRecord) → F.post read number r → RecordReadAs ground.sheet.now number r }
    ensures { RiseSaid (history_of ground.entry.sheet.now) result }
{
    let mut at = heat::begin(first);
    loop {
        let last = at.last;
        if last.next == 0 {
            break RiseAnswer::Rise(heat::end(ground.trench.cable, at));
        }
        let turn = walk::step(ground, at, read(last.next));
        match turn {
            Err(refusal) => break RiseAnswer::Refused(refusal),
            Ok(next) => at = next,
        }
    }
}

// What an answer states. No From, which would have to stand beside the answer's type, in a crate that has definitions alone.
pub fn parts(answer: RiseAnswer) -> Parts
    ensures { result ≡ parts_of (stated_rise answer) }
{
    match answer {
        RiseAnswer::Rise(pair) => Parts::from(pair),
        RiseAnswer::Refused(refusal) => Parts::from(refusal),
    }
}
