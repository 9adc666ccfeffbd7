// The series of one slice and the exponential, in fixed point: fractions are whole numbers of 2^-30.
#![tactic(auto)]

ghost use Rattle.std.specs.Prelude.{◌≡◌};
ghost use Rattle.bounds.specs.Pair.{as_bounds, as_pair};
ghost use Rattle.model.specs.Scale.{one};
ghost use Rattle.model.specs.Series.{series_pair};
ghost use Rattle.model.specs.Exponential.{fraction_exp_pair, decayed, exp_pair};
ghost use Rattle.series.specs.Asked.{SliceFractions, PartOfOne, Exponent, UpTo};

use bounds::Bounds;

// 1, in units of 2^-30; and the same as an end of a pair, by `as`, since a constant can call no `try_from`.
pub const ONE: u64 = 1 << 30;

const ONE_END: i64 = ONE as i64;

// The last order of the slice's series, what its sum may lose by rounding down, in units of 2^-30, and what its last term may.
const SERIES_ORDER: u64 = 19;

const SERIES_LOSS: u64 = 172;

const TERM_LOSS: u64 = 15;

// The last order of the exponential's series, and what its sum may lose, in units of 2^-30.
const EXP_ORDER: u64 = 12;

const EXP_LOSS: u64 = 49;

// e^(-1), in units of 2^-30.
const INVERSE_E: Bounds = Bounds {
    low: 395007542,
    high: 395007543,
};

// Beyond this argument, a plain number, e^(-u) is taken for anything from 0 to e^(-17); and that, in units of 2^-30.
pub const FAR_FROM: u64 = 16;

const FAR_EXP: Bounds = Bounds { low: 0, high: 45 };

// The sum of g_k/(k + 1) with g_0 = 1 and g_k = theta·g_(k-1) + tau^k/k!, in units of 2^-30.
pub fn series(theta: u64, tau: u64) -> Bounds
    requires { SliceFractions theta tau }
    ensures { result ≡ as_bounds (series_pair theta tau) }
{
    let mut power = tau;
    let mut term = theta + tau;
    let mut sum = ONE + term / 2;
    for k in 2..=SERIES_ORDER {
        power = power * tau / ONE / k;
        term = theta * term / ONE + power;
        sum += term / (k + 1);
    }
    let high = sum + SERIES_LOSS + 2 * (term + TERM_LOSS) / (SERIES_ORDER + 1);
    bounds::from_naturals(sum, high)
}

// e^(-x) for x at most 1, in units of 2^-30.
pub fn exp_fraction(x: u64) -> Bounds
    requires { PartOfOne x }
    ensures { result ≡ as_bounds (fraction_exp_pair x) }
{
    let mut term = x;
    let mut sum = ONE + x;
    for k in 2..=EXP_ORDER {
        term = term * x / ONE / k;
        sum += term;
    }
    let whole_sum = bounds::from_naturals(sum, sum + EXP_LOSS);
    Bounds::whole(ONE).quotient(whole_sum, ONE).at_most(ONE_END)
}

// A pair of at most 1 times e^(-m), in units of 2^-30.
fn decayed(start: Bounds, m: u64) -> Bounds
    requires { UpTo one start }
    ensures { result ≡ as_bounds (decayed m (as_pair start)) }
{
    let mut pair = start;
    for _ in 0..m {
        pair = pair.scaled_mul(INVERSE_E, ONE);
    }
    pair
}

// e^(-num/den), in units of 2^-30.
pub fn exp_neg(num: u64, den: u64) -> Bounds
    requires { Exponent num den }
    ensures { result ≡ as_bounds (exp_pair num den) }
{
    let whole = num / den;
    if whole > FAR_FROM {
        return FAR_EXP;
    }
    decayed(exp_fraction(num % den * ONE / den), whole)
}
