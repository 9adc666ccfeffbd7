// The heating sum of a day, and that of its hottest hour: document 01, 'The daily cycle', with the reference hour of document 02, note 1, 'The hottest hour'.
#![tactic(auto)]

ghost use Rattle.std.specs.Prelude.{◌≡◌, ◌≤◌, ◌<◌};
ghost use Rattle.bounds.specs.Operations.{point_b};
ghost use Rattle.bounds.specs.Promises.{Sized};
ghost use Rattle.cycle_rules.specs.Day.{day_hours, highest_load, squared_loads};
ghost use Rattle.cycle_rules.specs.Heating.{heating_hours, relative_load, gathered_load, heating_bounds, reference_hour};
ghost use Rattle.cycle_rules.specs.Asked.{Shared, DivisorOf, pairs_of, most_divisor, most_sum};

use bounds::Bounds;
use cycle_rules::DAY_HOURS;

// The hours with a share of their own; those before them count by the mean.
pub const HEATING_HOURS: usize = 6;

// Millionths in one.
const MILLION: u64 = 1000000;

// The hours of a day, with the mean and the divisor of all 24, which are computed once: the sum of the squared loads, 24 times their mean, and 24 times the
// square of the highest.
#[derive(Drop)]
struct Day {
    hours: [u16; DAY_HOURS],
    mean: u64,
    divisor: u64,
    ghost mean_is: { mean ≡ squared_loads hours day_hours },
    ghost mean_to: { mean ≤ most_divisor },
    ghost divisor_of: { DivisorOf hours divisor },
}

impl Day {
    fn new(hours: [u16; DAY_HOURS]) -> Day
        ensures { result.hours ≡ hours }
    {
        Day {
            hours,
            mean: squared_loads(hours),
            divisor: common_divisor(hours),
        }
    }

    // The heating sum for a reference hour. What multiplies each share is gathered first; the sum is divided, and so rounded, once.
    fn heating_sum(&self, shares: [Bounds; HEATING_HOURS], hour: usize) -> Bounds
        requires { (Shared shares self.now.hours) × (hour < day_hours) }
        ensures { (result ≡ heating_bounds (pairs_of shares) self.now.hours hour) × (Sized most_sum result) }
    {
        let mut sum = Bounds::whole(self.mean * MILLION);
        for (i, share) in shares.iter().enumerate() {
            sum = sum.add(self.gathered_load(hour, i).mul(*share));
        }
        sum.divided(self.divisor)
    }

    // What multiplies G(i + 1). That an hour is one of the day is asked by each of these methods: it is the caller's, and no fact of the day.
    fn gathered_load(&self, hour: usize, i: usize) -> Bounds
        requires { (hour < day_hours) × (i < heating_hours) }
        ensures { result ≡ point_b (gathered_load self.now.hours hour i) }
    {
        let here = Bounds::whole(self.relative_load(hour, i));
        let before = Bounds::whole(self.relative_load(hour, i + 1));
        here.add(before.neg())
    }

    // The load i hours before an hour, squared, for i below 6, and at 6 the mean, times 24 each.
    fn relative_load(&self, hour: usize, i: usize) -> u64
        requires { (hour < day_hours) × (i ≤ heating_hours) }
        ensures { (result ≡ relative_load self.now.hours hour i) × (result ≤ most_divisor) }
    {
        if i < HEATING_HOURS {
            let at = (hour + DAY_HOURS - i) % DAY_HOURS;
            (DAY_HOURS as u64) * numbers::square(u32::from(self.hours[at]))
        } else {
            self.mean
        }
    }
}

// The heating sum of the hottest hour: the one at which it is largest.
pub fn largest_sum(shares: [Bounds; HEATING_HOURS], hours: [u16; DAY_HOURS]) -> Bounds
    requires { Shared shares hours }
    ensures { (result ≡ heating_bounds (pairs_of shares) hours (reference_hour (pairs_of shares) hours)) × (Sized most_sum result) }
{
    let day = Day::new(hours);
    let mut largest = day.heating_sum(shares, 0);
    for hour in 1..DAY_HOURS {
        let sum = day.heating_sum(shares, hour);
        if largest.high <= sum.high {
            largest = sum;
        }
    }
    largest
}

pub fn highest_load(hours: [u16; DAY_HOURS]) -> u16
    ensures { result ≡ highest_load hours }
{
    hours
        .iter()
        .fold(0, |highest, amperes| highest.max(*amperes))
}

fn squared_loads(hours: [u16; DAY_HOURS]) -> u64
    ensures { (result ≡ squared_loads hours day_hours) × (result ≤ most_divisor) }
{
    hours
        .iter()
        .map(|amperes| numbers::square(u32::from(*amperes)))
        .sum()
}

fn common_divisor(hours: [u16; DAY_HOURS]) -> u64
    ensures { DivisorOf hours result }
{
    (DAY_HOURS as u64) * numbers::square(u32::from(highest_load(hours)))
}
