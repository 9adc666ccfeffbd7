// The cyclic rating factor of a cable: document 01, 'The daily cycle', with the reference hour of document 02, note 1, 'The hottest hour'; and note 2.
#![tactic(auto)]

ghost use Rattle.std.specs.Prelude.{◌≡◌, ◌<◌, IfSome};
ghost use Rattle.refusals.specs.Apart.{parts_of};
ghost use Rattle.cable_rules.specs.Group.{given_cable};
ghost use Rattle.sheet_rules.specs.Sheet.{given_sheet};
ghost use Rattle.sheet_rules.specs.Ground.{group_at, as_given_in};
ghost use Rattle.cycle_rules.specs.Day.{day_hours, highest_load};
ghost use Rattle.cycle_rules.specs.Heating.{heating_sum, reference_hour};
ghost use Rattle.cycle_rules.specs.Factor.{largest_factor};
ghost use Rattle.cycle_rules.specs.Answer.{first_above, factor_from, factor_answer, hour_pair, stated_factor, FactorSaid};
ghost use Rattle.cycle_rules.specs.declared.FactorAnswer.TheVariants.{Factor};

use bounds::Bounds;
use cable::Cable;
use cycle_rules::DAY_HOURS;
pub use cycle_rules::FactorAnswer;
use heating::HEATING_HOURS;
use refusals::{Parts, Place, Refusal};
use share::ShareAnswer;
use sheet::Ground;

// In A.
const MOST_AMPERES: u16 = 4000;

// In minutes.
const HOUR: u32 = 60;

// By how many thousandths a cable's rated current may be multiplied where the load goes through `hours` each day: the largest whole m, at most 5,000,
// with m² times the heating sum at most 10^12, at the hour of the day at which that sum is largest. With T the largest of the 24 exact sums, in
// millionths, m²·T is at most 10^12; and if m is below 5,000, each larger whole number, squared and times T + 301, is above 10^12.
pub fn factor(cable: Cable, hours: [u16; DAY_HOURS]) -> FactorAnswer
    ensures { FactorSaid (given_cable cable) hours result }
{
    factor_given(sheet::given_alone(cable), hours)
}

// The factor of the cable of a sheet, with its neighbours. The sheet is only read. Two calls over one body, as README and the C interface name them.
pub fn factor_in_sheet(sheet: &[u8], hours: [u16; DAY_HOURS]) -> FactorAnswer
    ensures { FactorSaid (given_sheet sheet.now) hours result }
{
    factor_given(sheet::given(sheet), hours)
}

// The factor of what is given, or the refusal of what was handed in.
fn factor_given(given: Result<Ground, Refusal>, hours: [u16; DAY_HOURS]) -> FactorAnswer
    ensures { result ≡ factor_answer (as_given_in given.entry) hours }
{
    match given {
        Ok(ground) => factor_of(ground, hours),
        Err(refusal) => FactorAnswer::Refused(refusal),
    }
}

// The factor of an accepted cable in use and its neighbours: refusal 10, refusal 11, or the factor.
pub fn factor_of(ground: Ground, hours: [u16; DAY_HOURS]) -> FactorAnswer
    ensures { result ≡ factor_from (hour_pair (group_at ground.entry)) hours }
{
    if let Some(hour) = first_above(hours) {
        return FactorAnswer::Refused(Refusal {
            number: 10,
            place: Place::Hour(hour as u8),
        });
    }
    if heating::highest_load(hours) == 0 {
        return FactorAnswer::Refused(Refusal {
            number: 11,
            place: Place::None,
        });
    }
    factor_of_day(ground, hours)
}

// What an answer states. No From, which would have to stand beside the answer's type, in a crate that has definitions alone.
pub fn parts(answer: FactorAnswer) -> Parts
    ensures { result ≡ parts_of (stated_factor answer) }
{
    match answer {
        FactorAnswer::Factor(m) => Parts::from(m),
        FactorAnswer::Refused(refusal) => Parts::from(refusal),
    }
}

// The factor of a day. The six shares, at hours of 60 minutes, are worked out once for all 24 hours. They are set by their index: a
// share's refusal ends the loop, which `array::from_fn` cannot, and after an `iter_mut` a proof knows no element.
fn factor_of_day(ground: Ground, hours: [u16; DAY_HOURS]) -> FactorAnswer
    requires { 0 < highest_load hours }
    ensures { result ≡ Factor (largest_factor (heating_sum (hour_pair (group_at ground.entry)) hours (reference_hour (hour_pair (group_at ground.entry)) hours))) }
{
    let none = Bounds::whole(0);
    let mut shares = [none; HEATING_HOURS];
    for i in 0..HEATING_HOURS {
        let answer = share::share_of(ground, HOUR * (i as u32 + 1));
        let ShareAnswer::Pair(pair) = answer else {
            return FactorAnswer::Refused(Refusal::from(share::parts(answer)));
        };
        shares[i] = pair;
    }
    FactorAnswer::Factor(factors::largest_factor(heating::largest_sum(shares, hours)))
}

// The first hour above 4,000 A.
fn first_above(hours: [u16; DAY_HOURS]) -> Option<usize>
    ensures answer { result ≡ first_above hours }
    ensures within { IfSome result (λ hour. hour < day_hours) }
{
    hours.iter().position(|amperes| MOST_AMPERES < *amperes)
}
