// The emergency current from a share: document 01, 'The emergency current'.
#![tactic(auto)]

ghost use Rattle.std.specs.Prelude.{◌≡◌};
ghost use Rattle.numbers.specs.Integer.{up};
ghost use Rattle.distance.specs.Promised.{Millionths};
ghost use Rattle.emergency_rules.specs.Asked.{Rated};
ghost use Rattle.emergency_rules.specs.Answer.{after_share};

use bounds::Bounds;
use certifying::RATED;
use emergency_rules::CurrentAnswer;
use refusals::{Place, Refusal};
use share::ShareAnswer;

// In percent: of a preload, of the rated current; of a limit, of the rated rise.
const MOST_PERCENT: u32 = 200;

// The current from what the share answers: its refusal, that of what was handed in or 9; 12 or 13; or the amperes. Rated current, preload and limit stay three
// numbers, as the calls take them.
pub fn after_share(answer: ShareAnswer, rated: u32, h: u32, r: u32) -> CurrentAnswer
    requires { Rated rated answer }
    ensures { result ≡ after_share rated h r answer }
{
    let ShareAnswer::Pair(pair) = answer else {
        return CurrentAnswer::Refused(Refusal::from(share::parts(answer)));
    };
    if ranges::outside(h, 0, MOST_PERCENT) {
        return CurrentAnswer::Refused(Refusal {
            number: 12,
            place: Place::Input(1),
        });
    }
    if ranges::outside(r, 1, MOST_PERCENT) {
        return CurrentAnswer::Refused(Refusal {
            number: 12,
            place: Place::Input(2),
        });
    }
    if RATED * r < h * h {
        return CurrentAnswer::Refused(Refusal {
            number: 13,
            place: Place::None,
        });
    }
    CurrentAnswer::Current(certifying::largest_certified(rated, h, r, high_share(pair)))
}

// Not a `From`, which could not ask that a share is not below 0.
fn high_share(pair: Bounds) -> u64
    requires { Millionths pair }
    ensures { result ≡ up pair.high }
{
    pair.high as u64
}
