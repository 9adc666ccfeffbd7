// One turn of the walk along the load chain. Document 01, 'The load sheet'; document 02, note 2.
#![tactic(auto)]

ghost use Rattle.std.specs.Prelude.{◌≡◌, Ok};
ghost use Rattle.share_rules.specs.Pair.{share_pair};
ghost use Rattle.sheet_rules.specs.Ground.{group_at};
ghost use Rattle.history_rules.specs.Walk.{Turning, StepTo, next_at, turn_of};

use history_rules::Reached;
use refusals::Refusal;
use share_rules::ShareAnswer;
use sheet_rules::{Ground, LoadRecord};

// One turn of the walk: what was read at the link is checked, and the change of its step times its share is added; or its refusal is handed out.
pub fn step(ground: Ground, at: Reached, read: Option<LoadRecord>) -> Result<Reached, Refusal>
    requires { Turning at }
    ensures { result ≡ turn_of (share_pair (group_at ground.entry)) at read }
{
    let next = records::check_record(at.last, read)?;
    step_to(ground, at, next)
}

// The turn to a record that was checked. Its minutes are those of a share, so the share is not refused.
fn step_to(ground: Ground, at: Reached, next: LoadRecord) -> Result<Reached, Refusal>
    requires { (Turning at) × (StepTo next) }
    ensures { result ≡ Ok (next_at (share_pair (group_at ground.entry)) at next) }
{
    let answer = share::share_of(ground, next.minutes);
    let ShareAnswer::Pair(pair) = answer else {
        return Err(Refusal::from(share::parts(answer)));
    };
    let last = at.last;
    let sum = at.sum;
    Ok(Reached {
        last: next,
        sum: sum.add(heat::change(last.amperes, next.amperes).mul(pair)),
    })
}
