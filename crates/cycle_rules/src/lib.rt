// The cyclic rating factor: the type of its answer, what it is, and how far it is from the exact one. Document 01, 'The daily cycle', with the reference hour of
// document 02, note 1, 'The hottest hour'; and note 2.
#![tactic(auto)]

use refusals::Refusal;

// In h.
pub const DAY_HOURS: usize = 24;

// The factor in thousandths, or the first refusal: of the cable or the sheet, then 10, 11.
// An enum of its own and no Result: document 01, 'Language form for each place', has the refusal as a case of each answer enum.
#[derive(Clone, Copy)]
pub enum FactorAnswer {
    Factor(u32),
    Refused(Refusal),
}
