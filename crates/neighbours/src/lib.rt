// The chain of neighbours: a record as a neighbour in the trench, and refusals 14, 15, 16. Document 02, note 2.
#![tactic(auto)]

ghost use Rattle.std.specs.Prelude.{◌≡◌, ◌≤◌, nat_abs};
ghost use Rattle.exact.specs.Share.{source_of};
ghost use Rattle.sheet_rules.specs.Neighbours.{signed_of, neighbour_of, most_depth, beside_first};
ghost use Rattle.sheet_rules.specs.Promises.{InGround, NeighbourSaid};

use cable_rules::Cable;
use records::refused_at;
use refusals::Refusal;
use sheet_rules::LoadRecord;

// In mm, to either side.
const MOST_OFFSET: u32 = 3000;

// In mm.
const LEAST_DEPTH: u32 = 300;

const MOST_DEPTH: u32 = 5000;

// Two's complement of two bytes: from here on an offset is below 0.
const NEGATIVE_FROM: u32 = 32768;

const MINUS_ONE: u32 = 65535;

// Tenths of a millimetre to one, squared.
const TENTHS: u64 = 100;

// The size of an offset, which is handed in as it is written.
fn aside(offset: u32) -> u32
    ensures { (result ≡ nat_abs (signed_of offset)) × (result ≤ 32768) }
{
    if offset < NEGATIVE_FROM {
        offset
    } else {
        MINUS_ONE.saturating_sub(offset) + 1
    }
}

// c² in mm²: the squared distance from a cable at a depth to the axis of a neighbour. Minutes are the offset and amperes the depth: one record may serve both
// chains.
pub fn near_of(depth: u32, neighbour: LoadRecord) -> u64
    requires { (depth ≤ 5000) × (neighbour.amperes ≤ most_depth) }
    ensures { result ≡ (source_of depth (neighbour_of neighbour)).near }
{
    numbers::square(aside(neighbour.minutes)) + numbers::square(depth.abs_diff(neighbour.amperes))
}

// m² in mm²: that to the neighbour's image above ground. Not one function with `near_of`, which would be handed the one operator that differs.
pub fn image_of(depth: u32, neighbour: LoadRecord) -> u64
    requires { (depth ≤ 5000) × (neighbour.amperes ≤ most_depth) }
    ensures { result ≡ (source_of depth (neighbour_of neighbour)).image }
{
    numbers::square(aside(neighbour.minutes)) + numbers::square(depth + neighbour.amperes)
}

// What was read at the link of the record `before`, or its first refusal. `InGround` is asked here and in the two functions of `sheet` that only hand the cable
// on: a type for it would be made at one place and taken off again here.
pub fn check_neighbour(
    cable: Cable,
    before: LoadRecord,
    read: Option<LoadRecord>,
) -> Result<LoadRecord, Refusal>
    requires { InGround cable }
    ensures { NeighbourSaid cable before read result }
{
    let holder = before.number;
    let Some(record) = read else {
        return refused_at(14, holder);
    };
    if record.number <= holder {
        return refused_at(14, holder);
    }
    if MOST_OFFSET < aside(record.minutes) {
        return refused_at(15, record.number);
    }
    if ranges::outside(record.amperes, LEAST_DEPTH, MOST_DEPTH) {
        return refused_at(15, record.number);
    }
    if TENTHS * near_of(cable.depth, record) < numbers::square(cable.diameter) {
        return refused_at(16, record.number);
    }
    Ok(record)
}

// The header as the record before the first neighbour: its number is 0, and it holds the second link.
pub fn beside_first(link: usize) -> LoadRecord
    ensures { result ≡ beside_first link }
{
    LoadRecord {
        number: 0,
        minutes: 0,
        amperes: 0,
        next: link,
    }
}
