// The attained share of accepted numbers, in fixed point, from the sums of a cable and its neighbours. Document 01, 'The attained share', and
// document 02, note 2.
#![tactic(auto)]

ghost use Rattle.std.specs.Prelude.{◌≡◌, ◌*◌};
ghost use Rattle.bounds.specs.Pair.{as_bounds, as_pair, less_p};
ghost use Rattle.bounds.specs.Promises.{QuotientRoom};
ghost use Rattle.model.specs.Scale.{beta_one, exactly};
ghost use Rattle.model.specs.Integral.{heating_integral};
ghost use Rattle.model.specs.Share.{beta, surface_factor, attainment, share_of, cable_logarithm};
ghost use Rattle.attained.specs.Asked.{PartOf, FactorAsked, AttainmentAsked, HeatAsked, CableAsked, JoinAsked, ShareAsked};
ghost use Rattle.attained.specs.Sums.{as_sums, with_source};

use bounds::Bounds;
use series::ONE;

// The sources of heat summed so far: the numerator and the divisor of beta, in units of 2^-30.
#[derive(Clone, Copy)]
pub struct Sums {
    pub heat: Bounds,
    pub logarithm: Bounds,
}

// 1, in millionths: the share, k and the weight of the fast part; and the same as an end of a pair, as below, by `as`, since a constant can call no `try_from`.
const MILLION: u64 = 1000000;

const MILLION_END: i64 = MILLION as i64;

// 1, in the unit of beta.
const BETA_ONE: u64 = 7500000;

const BETA_END: i64 = BETA_ONE as i64;

// 1, in thousand millionths, the unit of the surface factor.
const SURFACE_ONE: u64 = 1000000000;

const SURFACE_END: i64 = SURFACE_ONE as i64;

// Units of beta's times millionths to one of the surface factor's.
const BETA_TO_SURFACE: u64 = MILLION * BETA_ONE / SURFACE_ONE;

// The conductor's attainment before its division by a million.
const ATTAINMENT_ONE: u64 = MILLION * ONE;

// Units of the surface factor's times 2^-30 to one millionth.
const SURFACE_TO_SHARE: u64 = SURFACE_ONE * ONE / MILLION;

// What is left of a whole, in its unit.
fn rest_of(whole: u64, part: Bounds) -> Bounds
    requires { PartOf whole part }
    ensures { result ≡ as_bounds (less_p whole (as_pair part)) }
{
    Bounds::whole(whole).add(part.neg())
}

// The heating integral over its logarithm, at most 1, in units of 1/BETA_ONE.
fn beta(integral: Bounds, logarithm: Bounds) -> Bounds
    requires { QuotientRoom integral logarithm beta_one }
    ensures { result ≡ as_bounds (beta (as_pair integral) (as_pair logarithm)) }
{
    integral.quotient(logarithm, BETA_ONE).at_most(BETA_END)
}

// 1 - k + k·beta as 1 - k·(1 - beta), in thousand millionths; k in millionths.
fn surface_factor(k: Bounds, beta: Bounds) -> Bounds
    requires { FactorAsked k beta }
    ensures { result ≡ as_bounds (surface_factor (as_pair k) (as_pair beta)) }
{
    let missing = rest_of(BETA_ONE, beta);
    let lost = k.scaled_mul(missing, BETA_TO_SURFACE).at_most(SURFACE_END);
    rest_of(SURFACE_ONE, lost)
}

// 1 - w·e^(-fast·seconds) - (1 - w)·e^(-slow·seconds), in units of 2^-30; w in millionths, the rates in millionths per second.
fn attainment(w: u64, fast: u64, slow: u64, seconds: u64) -> Bounds
    requires { AttainmentAsked w fast slow seconds }
    ensures { result ≡ as_bounds (attainment w fast slow seconds) }
{
    let fast_part = series::exp_neg(fast * seconds, MILLION).times(w);
    let slow_part = series::exp_neg(slow * seconds, MILLION).times(MILLION - w);
    rest_of(ATTAINMENT_ONE, fast_part.add(slow_part)).divided(MILLION)
}

// The heating integral from near to far, in units of 2^-30. It does not pass their logarithm, whose high end is its top.
fn heat_of(near: u64, far: u64, diffusion: u64, logarithm: Bounds) -> Bounds
    requires { HeatAsked near far diffusion logarithm }
    ensures { result ≡ as_bounds (heating_integral near far diffusion (as_pair logarithm).high) }
{
    let top = bounds::natural(logarithm.high);
    integral::heating_integral(near, far, diffusion, top)
}

// The sums of a cable by itself: d in 0.1 mm, l in mm; diffusion is 8·seconds·s.
pub fn cable_sums(d: u64, l: u64, diffusion: u64) -> Sums
    requires { CableAsked d l diffusion }
    ensures { result ≡ as_sums (heating_integral (5 * d * d) (8000 * l * l) diffusion (cable_logarithm d l).high) (cable_logarithm d l) }
{
    let logarithm = integral::logarithm(d, 40 * l).times(2);
    let heat = heat_of(5 * d * d, 8000 * l * l, diffusion, logarithm);
    Sums { heat, logarithm }
}

// One neighbour more: near is c², image m², in mm². c²/(4tδ) is 2,000·c² over the diffusion.
pub fn joined(sums: Sums, near: u64, image: u64, diffusion: u64) -> Sums
    requires { JoinAsked sums near image diffusion }
    ensures { result ≡ with_source diffusion sums (record { near = near; image = image }) }
{
    let own = integral::logarithm(near, image);
    let heat = heat_of(2000 * near, 2000 * image, diffusion, own);
    let heat_sum = sums.heat.add(heat);
    let logarithm_sum = sums.logarithm.add(own);
    Sums {
        heat: heat_sum,
        logarithm: logarithm_sum,
    }
}

// The attained share, in millionths, from a group's sums and its cable's other fields, after some seconds.
pub fn attained_share(sums: Sums, k: u64, w: u64, fast: u64, slow: u64, seconds: u64) -> Bounds
    requires { ShareAsked sums k w fast slow seconds }
    ensures { result ≡ as_bounds (share_of (surface_factor (exactly k) (beta (as_pair sums.heat) (as_pair sums.logarithm))) (attainment w fast slow seconds)) }
{
    let surface = surface_factor(Bounds::whole(k), beta(sums.heat, sums.logarithm));
    let attained = attainment(w, fast, slow, seconds);
    surface
        .scaled_mul(attained, SURFACE_TO_SHARE)
        .at_most(MILLION_END)
}
