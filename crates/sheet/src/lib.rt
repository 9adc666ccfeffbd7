// All checks of a sheet, and what a calculation is given: by a sheet, or by a cable without one. Document 02, note 2.
#![tactic(auto)]

ghost use Rattle.std.specs.Prelude.{◌≡◌, suc, Ok};
ghost use Rattle.sheet_rules.specs.Promises.{InGround, SheetSaid, TrenchSaid, GroundSaid, GivenBySheet, GivenAlone, checked_next, turns_left, outcome_of};
ghost use Rattle.sheet_rules.specs.Sheet.{checked_sheet};
ghost use Rattle.sheet_rules.specs.Walk.{walk_from};

pub mod reader;

use cable::Cable;
pub use header::check_header;
use neighbours::check_neighbour;
pub use neighbours::{beside_first, image_of, near_of};
pub use records::{before_first, check_record, record_at};
use refusals::Refusal;
use sheet_rules::Links;
pub use sheet_rules::{Ground, Header, LoadRecord, Trench};

// The header of a sheet of which all is accepted, or the first refusal: of the header, of the load chain, of the neighbours.
pub fn check_sheet(sheet: &[u8]) -> Result<Header, Refusal>
    ensures { SheetSaid sheet.now result }
{
    let header = check_header(sheet)?;
    let load = before_first(header.start, header.link);
    check_chain(sheet, Links::Load, header.cable, load)?;
    let beside = beside_first(header.neighbours);
    check_chain(sheet, Links::Neighbours, header.cable, beside)?;
    Ok(header)
}

// The walk along a chain, for its checks alone. Each turn is nearer to the chain's end: minutes fall on the load chain, and links rise on that of neighbours.
fn check_chain(sheet: &[u8], links: Links, cable: Cable, first: LoadRecord) -> Result<(), Refusal>
    requires { InGround cable }
    ensures { result ≡ outcome_of (walk_from (checked_next links cable) (suc (turns_left links first)) sheet.now first) }
{
    let mut at = first;
    while at.next != 0 {
        at = check_next(links, cable, at, record_at(sheet, at.next))?;
    }
    Ok(())
}

fn check_next(
    links: Links,
    cable: Cable,
    before: LoadRecord,
    read: Option<LoadRecord>,
) -> Result<LoadRecord, Refusal>
    requires { InGround cable }
    ensures { result ≡ checked_next links cable before read }
{
    match links {
        Links::Load => check_record(before, read),
        Links::Neighbours => check_neighbour(cable, before, read),
    }
}

// What a calculation is given by a sheet.
pub fn given(sheet: &[u8]) -> Result<Ground<'_>, Refusal>
    ensures { GivenBySheet sheet.now result }
{
    let header = check_sheet(sheet)?;
    Ok(ground_of(sheet, header))
}

// What a calculation is given by a cable without a sheet: no bytes, and no neighbours.
pub fn given_alone(cable: Cable) -> Result<Ground<'static>, Refusal>
    ensures { GivenAlone cable result }
{
    let used = cable::given(cable)?;
    Ok(Ground {
        sheet: b"",
        trench: Trench {
            cable: used,
            neighbours: 0,
        },
    })
}

// What a calculation takes of an accepted sheet and its header.
pub fn ground_of(sheet: &[u8], header: Header) -> Ground<'_>
    requires { checked_sheet sheet.now ≡ Ok header }
    ensures { GroundSaid sheet.now header result }
{
    Ground {
        sheet,
        trench: trench_of(header),
    }
}

// What a calculation takes of an accepted sheet's header. No `From`, which would stand beside the types, in a crate that has definitions alone.
pub fn trench_of(header: Header) -> Trench
    ensures { TrenchSaid header result }
{
    Trench {
        cable: cable::alone(header.cable),
        neighbours: header.neighbours,
    }
}
