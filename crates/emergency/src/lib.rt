// The emergency current of a cable: document 01, 'The emergency current'; document 02, note 2.
#![tactic(auto)]

ghost use Rattle.std.specs.Prelude.{◌≡◌};
ghost use Rattle.refusals.specs.Apart.{parts_of};
ghost use Rattle.cable_rules.specs.Group.{given_cable};
ghost use Rattle.sheet_rules.specs.Sheet.{given_sheet};
ghost use Rattle.sheet_rules.specs.Ground.{as_given_in};
ghost use Rattle.emergency_rules.specs.Asked.{rated_of};
ghost use Rattle.emergency_rules.specs.Answer.{current_answer, stated_current, CurrentSaid};

use cable::Cable;
pub use emergency_rules::CurrentAnswer;
use refusals::{Parts, Refusal};
use sheet::Ground;

// The current that a cable may carry for `minutes` after a preload of h percent of its rated current, its rise staying within r percent of the
// rated one: the largest whole number of amperes up to 10,000 that the high share certifies.
pub fn current(cable: Cable, h: u32, r: u32, minutes: u32) -> CurrentAnswer
    ensures { CurrentSaid (given_cable cable) h r minutes result }
{
    current_given(sheet::given_alone(cable), h, r, minutes)
}

// The current that the cable of a sheet may carry, with its neighbours. The sheet is only read. Two calls over one body, as README and the C interface name
// them.
pub fn current_in_sheet(sheet: &[u8], h: u32, r: u32, minutes: u32) -> CurrentAnswer
    ensures { CurrentSaid (given_sheet sheet.now) h r minutes result }
{
    current_given(sheet::given(sheet), h, r, minutes)
}

// The current of what is given, or the refusal of what was handed in.
fn current_given(given: Result<Ground, Refusal>, h: u32, r: u32, minutes: u32) -> CurrentAnswer
    ensures { result ≡ current_answer (as_given_in given.entry) h r minutes }
{
    let answer = share::share_given(given, minutes);
    granting::after_share(answer, rated_of(given), h, r)
}

// The rated current of what is given; where that is refused there is none, and 0 stands for it: `after_share` hands the refusal on before it reads one, so an
// Option would only be taken apart there again.
fn rated_of(given: Result<Ground, Refusal>) -> u32
    ensures { result ≡ rated_of given.entry }
{
    match given {
        Ok(ground) => ground.trench.cable.rated,
        Err(_) => 0,
    }
}

// What an answer states. No From, which would have to stand beside the answer's type, in a crate that has definitions alone.
pub fn parts(answer: CurrentAnswer) -> Parts
    ensures { result ≡ parts_of (stated_current answer) }
{
    match answer {
        CurrentAnswer::Current(amperes) => Parts::from(amperes),
        CurrentAnswer::Refused(refusal) => Parts::from(refusal),
    }
}
