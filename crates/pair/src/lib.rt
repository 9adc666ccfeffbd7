// The pair of an accepted cable in use, its neighbours and an accepted minute count: document 01, 'The attained share'; document 02, note 2.
#![tactic(auto)]

ghost use Rattle.std.specs.Prelude.{◌≡◌};
ghost use Rattle.sheet_rules.specs.Ground.{group_at};
ghost use Rattle.share_rules.specs.Pair.{share_pair};
ghost use Rattle.pair.specs.Sums.{Timed, Summed, sums_in};

use attained::Sums;
use bounds::Bounds;
use sheet_rules::Ground;

// In seconds.
const MINUTE: u64 = 60;

pub fn pair_of(ground: Ground, minutes: u32) -> Bounds
    requires { Timed ground minutes }
    ensures { result ≡ share_pair (group_at ground.entry) minutes }
{
    let used = ground.trench.cable;
    let seconds = MINUTE * (minutes as u64);
    attained::attained_share(
        sums_in(ground, seconds),
        used.surface_ratio as u64,
        used.fast_weight as u64,
        used.fast_rate as u64,
        used.slow_rate as u64,
        seconds,
    )
}

// The sums of the cable and of each neighbour, along their chain. Links rise.
fn sums_in(ground: Ground, seconds: u64) -> Sums
    requires { Summed ground seconds }
    ensures { result ≡ sums_in (group_at ground.entry) seconds }
{
    let used = ground.trench.cable;
    let diffusion = 8 * seconds * (used.diffusivity as u64);
    let mut sums = attained::cable_sums(used.diameter as u64, used.depth as u64, diffusion);
    let mut at = neighbours::beside_first(ground.trench.neighbours);
    while at.next != 0 {
        let read = records::record_at(ground.sheet, at.next);
        // Never taken: the links of an accepted chain lead to records.
        let Some(next) = read else {
            return sums;
        };
        let near = neighbours::near_of(used.depth, next);
        let image = neighbours::image_of(used.depth, next);
        sums = attained::joined(sums, near, image, diffusion);
        at = next;
    }
    sums
}
