// A cable of its fields, its checks 2 and 3, and the cable in use.
#![tactic(auto)]

ghost use Rattle.std.specs.Prelude.{◌≡◌, ◌≤◌, length};
ghost use Rattle.cable_rules.specs.Checks.{cable_from, outside_field};
ghost use Rattle.cable_rules.specs.Promises.{Checked, Alone, GivenBy};

pub use cable_rules::Cable;
use refusals::{Place, Refusal};

// The cable of its fields in table order; there are eight at least. No From, which could not ask for that; a cable's fields are also the first of more numbers.
pub fn cable_from(fields: &[u32]) -> Cable
    requires { 8 ≤ length fields.now }
    ensures { result ≡ cable_from fields.now }
{
    Cable {
        diameter: fields[0],
        depth: fields[1],
        diffusivity: fields[2],
        surface_ratio: fields[3],
        fast_weight: fields[4],
        fast_rate: fields[5],
        slow_rate: fields[6],
        rated: fields[7],
    }
}

// The diffusivity that 0 stands for, in 10^-9 m²/s.
const DEFAULT_DIFFUSIVITY: u32 = 500;

// Refusal 2 at the first field outside its range, refusal 3 where the slow rate is above the fast one, or the cable as it is.
pub fn check_cable(cable: Cable) -> Result<Cable, Refusal>
    ensures { Checked cable result }
{
    if let Some(field) = outside_field(cable) {
        return Err(Refusal {
            number: 2,
            place: Place::Field(field),
        });
    }
    if cable.fast_rate < cable.slow_rate {
        return Err(Refusal {
            number: 3,
            place: Place::None,
        });
    }
    Ok(cable)
}

// What a calculation is given by a cable: the cable in use, or the refusal of check 2 or 3.
pub fn given(cable: Cable) -> Result<Cable, Refusal>
    ensures { GivenBy cable result }
{
    let accepted = check_cable(cable)?;
    Ok(alone(accepted))
}

// The cable in use, with nothing beside it: the default is put for a diffusivity of 0.
pub fn alone(cable: Cable) -> Cable
    ensures { Alone cable result }
{
    let mut used = cable;
    if used.diffusivity == 0 {
        used.diffusivity = DEFAULT_DIFFUSIVITY;
    }
    used
}

// The table's last column: of each field the least and the greatest value.
const RANGES: [[u32; 2]; 8] = [
    [100, 1500], // d
    [300, 5000], // l
    [100, 2000], // s
    [0, 1000000], // k
    [0, 1000000], // w
    [1, 100000], // fast rate
    [1, 100000], // slow rate
    [50, 2000], // rated current
];

// The number of the first field outside its range. A diffusivity of 0 is a value: the least one is tested for it.
fn outside_field(cable: Cable) -> Option<u8>
    ensures { result ≡ outside_field cable }
{
    let ranges = RANGES;
    let mut diffusivity = cable.diffusivity;
    if diffusivity == 0 {
        diffusivity = ranges[2][0];
    }
    let fields = [
        cable.diameter,
        cable.depth,
        diffusivity,
        cable.surface_ratio,
        cable.fast_weight,
        cable.fast_rate,
        cable.slow_rate,
        cable.rated,
    ];
    ranges::first_outside(&fields, &ranges)
}
