// The attained share: the type of its answer, what it is, and what its pair promises. Document 01, 'The attained share'; document 02, note 2.
#![tactic(auto)]

use bounds::Bounds;
use refusals::Refusal;

// The pair of low and high, in millionths, or the first refusal: of the cable or the sheet, then 9.
// An enum of its own and no Result: document 01, 'Language form for each place', has the refusal as a case of each answer enum.
#[derive(Clone, Copy)]
pub enum ShareAnswer {
    Pair(Bounds),
    Refused(Refusal),
}
