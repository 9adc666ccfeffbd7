// The sum that a walk along the load chain carries: what the starting current adds, the change at a step, and the rise at the end. Document 01, 'The load sheet'.
#![tactic(auto)]

ghost use Rattle.std.specs.Prelude.{◌≡◌, ◌≤◌};
ghost use Rattle.bounds.specs.Operations.{point_b};
ghost use Rattle.sheet_rules.specs.Header.{most_amperes};
ghost use Rattle.history_rules.specs.Rise.{change_of};
ghost use Rattle.history_rules.specs.Walk.{Ending, begin_at, end_of};

use bounds::Bounds;
use cable_rules::Cable;
use history_rules::Reached;
use sheet_rules::LoadRecord;

// The whole of a share, in millionths.
const MILLION: u64 = 1000000;

// Before the first step: the starting current's part of the sum is its square, in millionths.
pub fn begin(first: LoadRecord) -> Reached
    requires { first.amperes ≤ most_amperes }
    ensures { result ≡ begin_at first }
{
    let sum = Bounds::whole(numbers::square(first.amperes) * MILLION);
    Reached { last: first, sum }
}

// The signed change of the squared current at a step.
pub fn change(previous: u32, amperes: u32) -> Bounds
    requires { (previous ≤ most_amperes) × (amperes ≤ most_amperes) }
    ensures { result ≡ point_b (change_of previous amperes) }
{
    Bounds::whole(numbers::square(amperes)).add(Bounds::whole(numbers::square(previous)).neg())
}

// The rise, once the chain has ended: one division, by the squared rated current.
pub fn end(used: Cable, at: Reached) -> Bounds
    requires { Ending used at }
    ensures { result ≡ end_of used at }
{
    let sum = at.sum;
    sum.divided(numbers::square(used.rated))
}
