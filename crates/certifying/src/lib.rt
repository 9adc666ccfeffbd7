// The certifying rule, and the largest ampere that it certifies: document 01, 'The emergency current'.
#![tactic(auto)]

ghost use Rattle.std.specs.Prelude.{◌≡◌, ◌*◌, ◌≤◌, pos};
ghost use Rattle.emergency_rules.specs.Asked.{InRange};
ghost use Rattle.emergency_rules.specs.Certifying.{steady_limit, certified, largest_certified, most_current};

// The rated current or the rated rise, in percent.
pub const RATED: u32 = 100;

// A squared load at the rated current, in percent².
const RATED_LOAD: u64 = (RATED as u64) * (RATED as u64);

// In amperes.
const MOST_CURRENT: u32 = 10000;

// A share of all, in millionths.
const MILLION: u64 = 1000000;

pub fn largest_certified(rated: u32, h: u32, r: u32, g: u64) -> u32
    requires { (InRange rated h r g) × (h * h ≤ steady_limit r) }
    ensures { result ≡ largest_certified rated h r (pos g) }
{
    numbers::largest_passing(MOST_CURRENT, |i| certified(rated, h, r, g, i))
}

// The certifying rule, with both sides moved so that nothing is subtracted. A limit of r percent of the rated rise is 100 · r
// percent² of a load.
fn certified(rated: u32, h: u32, r: u32, g: u64, i: u32) -> bool
    requires { (InRange rated h r g) × (i ≤ most_current) }
    ensures { result ≡ certified rated h r (pos g) i }
{
    let rated_squared = numbers::square(rated);
    let preload = numbers::square(h) * rated_squared;
    let load = RATED_LOAD * numbers::square(i);
    let limit = u64::from(RATED) * u64::from(r) * rated_squared;
    load * g + preload * MILLION <= limit * MILLION + preload * g
}
