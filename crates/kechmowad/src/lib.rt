// The calculations for C and Rust, on numbers and bytes. Each writes its answer as five numbers into a lent array: the refusal's number, 0 for none,
// the kind and the number of its place, and the values. One function for each call, of a cable and of a sheet: these are the names of the C interface.
#![tactic(auto)]

ghost use Rattle.std.specs.Prelude.{◌≡◌};
ghost use Rattle.cable_rules.specs.Checks.{cable_from};
ghost use Rattle.cable_rules.specs.Group.{given_cable};
ghost use Rattle.sheet_rules.specs.Sheet.{given_sheet};
ghost use Rattle.share_rules.specs.Answer.{ShareSaid, stated_share};
ghost use Rattle.history_rules.specs.Answer.{history_of, RiseSaid, stated_rise};
ghost use Rattle.cycle_rules.specs.Answer.{FactorSaid, stated_factor};
ghost use Rattle.emergency_rules.specs.Answer.{CurrentSaid, stated_current};
ghost use Rattle.kechmowad.specs.Crossing.{five_of, Crosses};

use refusals::Parts;

// The attained share: low and high.
#[unsafe(no_mangle)]
pub extern "C" fn kechmowad_share(cable: &[u32; 8], minutes: u32, answer: &mut [i64; 5])
    ensures { Crosses (ShareSaid (given_cable (cable_from cable.now)) minutes) stated_share answer.new }
{
    let share = share::share(cable::cable_from(cable), minutes);
    *answer = copied(share::parts(share));
}

// The rise of a sheet: low and high.
#[unsafe(no_mangle)]
pub extern "C" fn kechmowad_rise(sheet: &[u8], answer: &mut [i64; 5])
    ensures { Crosses (RiseSaid (history_of sheet.now)) stated_rise answer.new }
{
    let rise = history::rise(sheet);
    *answer = copied(history::parts(rise));
}

// The cyclic factor, and 0.
#[unsafe(no_mangle)]
pub extern "C" fn kechmowad_factor(cable: &[u32; 8], hours: &[u16; 24], answer: &mut [i64; 5])
    ensures { Crosses (FactorSaid (given_cable (cable_from cable.now)) hours.now) stated_factor answer.new }
{
    let day = *hours;
    let factor = cycle::factor(cable::cable_from(cable), day);
    *answer = copied(cycle::parts(factor));
}

// The emergency current, and 0.
#[unsafe(no_mangle)]
pub extern "C" fn kechmowad_current(
    cable: &[u32; 8],
    h: u32,
    r: u32,
    minutes: u32,
    answer: &mut [i64; 5],
)
    ensures { Crosses (CurrentSaid (given_cable (cable_from cable.now)) h r minutes) stated_current answer.new }
{
    let current = emergency::current(cable::cable_from(cable), h, r, minutes);
    *answer = copied(emergency::parts(current));
}

// The attained share of the cable of a sheet, with its neighbours: low and high.
#[unsafe(no_mangle)]
pub extern "C" fn kechmowad_share_in_sheet(sheet: &[u8], minutes: u32, answer: &mut [i64; 5])
    ensures { Crosses (ShareSaid (given_sheet sheet.now) minutes) stated_share answer.new }
{
    let share = share::share_in_sheet(sheet, minutes);
    *answer = copied(share::parts(share));
}

// The cyclic factor of the cable of a sheet, with its neighbours, and 0.
#[unsafe(no_mangle)]
pub extern "C" fn kechmowad_factor_in_sheet(sheet: &[u8], hours: &[u16; 24], answer: &mut [i64; 5])
    ensures { Crosses (FactorSaid (given_sheet sheet.now) hours.now) stated_factor answer.new }
{
    let day = *hours;
    let factor = cycle::factor_in_sheet(sheet, day);
    *answer = copied(cycle::parts(factor));
}

// The emergency current of the cable of a sheet, with its neighbours, and 0.
#[unsafe(no_mangle)]
pub extern "C" fn kechmowad_current_in_sheet(
    sheet: &[u8],
    h: u32,
    r: u32,
    minutes: u32,
    answer: &mut [i64; 5],
)
    ensures { Crosses (CurrentSaid (given_sheet sheet.now) h r minutes) stated_current answer.new }
{
    let current = emergency::current_in_sheet(sheet, h, r, minutes);
    *answer = copied(emergency::parts(current));
}

// What an answer states, but for the count of its values, which the caller knows. No `From`: an array and `Parts` are both of other crates.
fn copied(parts: Parts) -> [i64; 5]
    ensures { result ≡ five_of parts }
{
    let number = i64::from(parts.number);
    let kind = i64::from(parts.kind);
    let place = i64::from(parts.place);
    [number, kind, place, parts.first, parts.second]
}
