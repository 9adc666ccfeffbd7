// The attained share of a cable after some minutes: document 01, 'The attained share'; document 02, note 2.
#![tactic(auto)]

ghost use Rattle.std.specs.Prelude.{◌≡◌};
ghost use Rattle.refusals.specs.Apart.{parts_of};
ghost use Rattle.cable_rules.specs.Group.{given_cable};
ghost use Rattle.sheet_rules.specs.Sheet.{given_sheet};
ghost use Rattle.sheet_rules.specs.Ground.{group_at, as_given_in};
ghost use Rattle.share_rules.specs.Answer.{share_from, share_answer, stated_share, ShareSaid};

use cable::Cable;
use refusals::{Parts, Place, Refusal};
pub use share_rules::ShareAnswer;
use sheet::Ground;

// Two days.
const MOST_MINUTES: u32 = 2880;

// The share after `minutes`. The pair is the same for equal inputs, encloses the exact share and is at most 50 millionths wide.
pub fn share(cable: Cable, minutes: u32) -> ShareAnswer
    ensures { ShareSaid (given_cable cable) minutes result }
{
    share_given(sheet::given_alone(cable), minutes)
}

// The share after `minutes` of the cable of a sheet, with its neighbours. The sheet is only read. Two calls over one body, as README and the C interface name
// them.
pub fn share_in_sheet(sheet: &[u8], minutes: u32) -> ShareAnswer
    ensures { ShareSaid (given_sheet sheet.now) minutes result }
{
    share_given(sheet::given(sheet), minutes)
}

// The share of what is given, or the refusal of what was handed in.
pub fn share_given(given: Result<Ground, Refusal>, minutes: u32) -> ShareAnswer
    ensures { result ≡ share_answer (as_given_in given.entry) minutes }
{
    match given {
        Ok(ground) => share_of(ground, minutes),
        Err(refusal) => ShareAnswer::Refused(refusal),
    }
}

// The share of an accepted cable in use and its neighbours: refusal 9, or the pair.
pub fn share_of(ground: Ground, minutes: u32) -> ShareAnswer
    ensures { result ≡ share_from (group_at ground.entry) minutes }
{
    if ranges::outside(minutes, 1, MOST_MINUTES) {
        return ShareAnswer::Refused(Refusal {
            number: 9,
            place: Place::None,
        });
    }
    ShareAnswer::Pair(pair::pair_of(ground, minutes))
}

// What an answer states. No From, which would have to stand beside the answer's type, in a crate that has definitions alone.
pub fn parts(answer: ShareAnswer) -> Parts
    ensures { result ≡ parts_of (stated_share answer) }
{
    match answer {
        ShareAnswer::Pair(pair) => Parts::from(pair),
        ShareAnswer::Refused(refusal) => Parts::from(refusal),
    }
}
