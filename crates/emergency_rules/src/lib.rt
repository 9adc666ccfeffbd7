// The emergency current: the type of its answer, what it is, and how far it is from the exact one. Document 01, 'The emergency current'; document 02, note 2.
#![tactic(auto)]

use refusals::Refusal;

// The largest certified whole amperes, or the first refusal: of the cable or the sheet, then 9, 12, 13.
// An enum of its own and no Result: document 01, 'Language form for each place', has the refusal as a case of each answer enum.
#[derive(Clone, Copy)]
pub enum CurrentAnswer {
    Current(u32),
    Refused(Refusal),
}
