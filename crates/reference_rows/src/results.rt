// What a row's results allow of an answer.
ghost use Rattle.std.specs.Prelude.{◌≡◌};
ghost use Rattle.reference_rows.specs.Results.{refuses, between, encloses, is_share, is_value, in_ranges, is_share_of};

use refusals::Parts;

// In millionths: the whole of a share, and how far its two ends may be apart.
const WHOLE: i64 = 1000000;

const MOST_APART: i64 = 50;

// Whether the answer has no values, and this refusal.
pub fn refuses(said: Parts, number: u32, place: u32) -> bool
    ensures { result ≡ refuses said number place }
{
    said.count == 0 && u32::from(said.number) == number && u32::from(said.place) == place
}

fn between(least: i64, n: i64, most: i64) -> bool
    ensures { result ≡ between least n most }
{
    least <= n && n <= most
}

// Whether low is at most the exact value, and high at least: above the whole part of it where there is more. `more` is the digits after the point, held at 1 as
// they are read.
fn encloses(said: Parts, floor: i64, more: u32) -> bool
    ensures { result ≡ encloses said floor more }
{
    let below = if more == 0 {
        floor <= said.second
    } else {
        floor < said.second
    };
    said.first <= floor && below
}

// Whether there are two values, low from 0 to 1,000,000, and high at most that and at most 50 above low.
#[tactic(auto, unfolding(crate::specs::Results::is_share))]
fn is_share(said: Parts) -> bool
    ensures { result ≡ is_share said }
{
    said.count == 2
        && between(0, said.first, WHOLE)
        && said.second <= WHOLE
        && said.second <= said.first + MOST_APART
}

// Whether there is one value, from the least to the most.
pub fn is_value(said: Parts, least: i64, most: i64) -> bool
    ensures { result ≡ is_value said least most }
{
    said.count == 1 && between(least, said.first, most)
}

// Whether there is a share, and each end of it in its range.
pub fn in_ranges(said: Parts, low_min: i64, low_max: i64, high_min: i64, high_max: i64) -> bool
    ensures { result ≡ in_ranges said low_min low_max high_min high_max }
{
    is_share(said)
        && between(low_min, said.first, low_max)
        && between(high_min, said.second, high_max)
}

// Whether there is a share, and the exact value within it.
pub fn is_share_of(said: Parts, floor: i64, more: u32) -> bool
    ensures { result ≡ is_share_of said floor more }
{
    is_share(said) && encloses(said, floor, more)
}
