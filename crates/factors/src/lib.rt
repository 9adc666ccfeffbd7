// The largest factor that a heating sum allows: document 01, 'The daily cycle'.
#![tactic(auto)]

ghost use Rattle.std.specs.Prelude.{◌≡◌, ◌≤◌};
ghost use Rattle.bounds.specs.Promises.{Sized};
ghost use Rattle.cycle_rules.specs.Factor.{most_factor, allowed, largest_factor};
ghost use Rattle.cycle_rules.specs.Asked.{most_sum};

use bounds::Bounds;

// In thousandths.
const MOST_FACTOR: u32 = 5000;

// 10^12: a factor's thousandths² times a sum's millionths.
const MOST_HEATING: i64 = 1000000000000;

pub fn largest_factor(sum: Bounds) -> u32
    requires { Sized most_sum sum }
    ensures { result ≡ largest_factor sum.high }
{
    numbers::largest_passing(MOST_FACTOR, |m| allowed(sum, m))
}

fn allowed(sum: Bounds, m: u32) -> bool
    requires { (Sized most_sum sum) × (m ≤ most_factor) }
    ensures { result ≡ allowed sum.high m }
{
    let heating = sum.times(numbers::square(m));
    heating.high <= MOST_HEATING
}
