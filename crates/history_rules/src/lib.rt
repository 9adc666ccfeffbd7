// The rise of a cable after a load history: types, what an answer is, turn by turn too, and how far it is from the exact rise. Document 01, 'The load sheet';
// document 02, note 2.
#![tactic(auto)]

use bounds::Bounds;
use refusals::Refusal;
use sheet_rules::LoadRecord;

// The rise, low and high, in millionths of the rated steady rise, or the sheet's first refusal.
// An enum of its own and no Result: document 01, 'Language form for each place', has the refusal as a case of each answer enum.
#[derive(Clone, Copy)]
pub enum RiseAnswer {
    Rise(Bounds),
    Refused(Refusal),
}

// Where a walk along the chain stands: at the last record that it reached, with the sum so far, in squared amperes times millionths.
#[derive(Clone, Copy)]
pub struct Reached {
    pub last: LoadRecord,
    pub sum: Bounds,
}
