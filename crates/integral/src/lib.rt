// The logarithm and the heating integral of any two squared distances, in fixed point: both are whole numbers of 2^-30.
#![tactic(auto)]

ghost use Rattle.std.specs.Prelude.{◌≡◌, ◌*◌, ◌<◌, min, max};
ghost use Rattle.bounds.specs.Pair.{as_bounds, as_pair};
ghost use Rattle.model.specs.Scale.{one, far_from, units, halves};
ghost use Rattle.model.specs.Exponential.{exp_pair};
ghost use Rattle.model.specs.Logarithm.{logarithm_slice, logarithm};
ghost use Rattle.model.specs.Integral.{Stretch, slice_pair, any_slice, part_slice, joined, unit_sum, half_sum, slice_start, far_pair, heating_integral};
ghost use Rattle.series.specs.Asked.{UpTo};
ghost use Rattle.integral.specs.Asked.{OneOctave, Ratio, Span, SliceWithExp, BelowKnot};
ghost use Rattle.integral.specs.Knots.{knots, knot_exp};

mod tables;

use bounds::Bounds;
use series::{FAR_FROM, ONE};
use tables::{EXP, HALF, UNIT};

// ln 2, in units of 2^-30.
const LN_TWO: Bounds = Bounds {
    low: 744261068,
    high: 744261259,
};

// The two ends of an integral, squared distances, the diffusion, and the logarithm that no sum of its slices passes.
#[derive(Clone, Copy)]
struct Reach {
    near: u64,
    far: u64,
    diffusion: u64,
    top: u64,
    ghost span: { Span near far diffusion top },
}

// A slice from x to y, which lies at a knot.
#[derive(Clone, Copy)]
struct KnotSlice {
    x: u64,
    y: u64,
    diffusion: u64,
    knot: usize,
    ghost below: { BelowKnot x y diffusion knot },
}

// How many slices lie between the knots 16, 15, .., 1: the knot 1 has this number.
const UNITS: usize = 15;

// ln(y/x) for y at most 2x, in units of 2^-30.
fn logarithm_slice(x: u64, y: u64) -> Bounds
    requires { OneOctave x y }
    ensures { result ≡ as_bounds (logarithm_slice x y) }
{
    let theta = (y - x) * ONE / y;
    bounds::from_naturals(theta, theta + 1).scaled_mul(series::series(theta, 0), ONE)
}

// ln(y/x), in units of 2^-30: that of 2 for each time that x can be doubled, and the rest.
pub fn logarithm(x: u64, y: u64) -> Bounds
    requires { Ratio x y }
    ensures { result ≡ as_bounds (logarithm x y) }
{
    let mut base = x;
    let mut doublings = 0;
    // A search for the last doubling, as the model's: how many there are is what it finds, so no `for` counts them.
    while 2 * base <= y {
        base = 2 * base;
        doublings += 1;
    }
    LN_TWO.times(doublings).add(logarithm_slice(base, y))
}

// A row of a table: its low end and its high end. No `From`: a pair of numbers and `Bounds` are both of other crates.
fn row(ends: (u32, u32)) -> Bounds
    ensures { result ≡ as_bounds (record { low = ends.0; high = ends.1 }) }
{
    let (low, high) = ends;
    Bounds {
        low: numbers::wide(low),
        high: numbers::wide(high),
    }
}

// e^(-u) at a knot, in units of 2^-30.
fn knot_exp(knot: usize) -> Bounds
    requires { knot < knots }
    ensures { result ≡ as_bounds (knot_exp knot) }
{
    row(EXP[knot])
}

// The integral of e^(-u)/u from x/diffusion to y/diffusion, one slice, in units of 2^-30. `decay` is e^(-u) at its far end.
fn heat_slice(x: u64, y: u64, diffusion: u64, decay: Bounds) -> Bounds
    requires { SliceWithExp x y diffusion decay }
    ensures { result ≡ as_bounds (slice_pair x y diffusion) }
{
    let width = y - x;
    let theta = width * ONE / y;
    let height = decay.scaled_mul(series::series(theta, width * ONE / diffusion), ONE);
    height.scaled_mul(bounds::from_naturals(theta, theta + 1), ONE)
}

impl KnotSlice {
    // e^(-u) where the slice ends: at the knot, y, or at a far end before it. In units of 2^-30.
    fn end_exp(self, far: u64) -> Bounds
        ensures { result ≡ as_bounds (exp_pair (min far self.y) self.diffusion) }
    {
        if far < self.y {
            return series::exp_neg(far, self.diffusion);
        }
        knot_exp(self.knot)
    }

    // What lies from near to far of the slice, in units of 2^-30: a slice, or nothing. Not inlined, so that `part` stays small.
    #[inline(never)]
    fn cut(self, near: u64, far: u64) -> Bounds
        ensures { result ≡ as_bounds (any_slice (max near self.x) (min far self.y) self.diffusion) }
    {
        let start = near.max(self.x);
        let end = numbers::least(far, self.y);
        if start < end {
            let decay = self.end_exp(far);
            heat_slice(start, end, self.diffusion, decay)
        } else {
            Bounds::whole(0)
        }
    }

    // The same, where the integral of the whole slice, `all`, is at hand. Inlined, so that a whole slice takes no call.
    #[inline]
    fn part(self, near: u64, far: u64, all: Bounds) -> Bounds
        requires { UpTo (2 * one) all }
        ensures { result ≡ as_bounds (part_slice near far self.x self.y self.diffusion (as_pair all)) }
    {
        if far <= self.x {
            return Bounds::whole(0);
        }
        if self.x < near || far < self.y {
            return self.cut(near, far);
        }
        all
    }
}

// e^(-u) where the far slice begins: at FAR_FROM, the first knot, or at a near end beyond it. In units of 2^-30.
fn far_exp(near: u64, diffusion: u64) -> Bounds
    requires { Stretch near diffusion }
    ensures { result ≡ as_bounds (exp_pair (max near (far_from * diffusion)) diffusion) }
{
    if FAR_FROM * diffusion < near {
        return series::exp_neg(near, diffusion);
    }
    row(EXP[0])
}

impl Reach {
    // With one slice more; no sum passes the logarithm, which each of the methods that add asks of the sum that it is handed. In units of 2^-30.
    fn joined(self, sum: Bounds, slice: Bounds) -> Bounds
        requires sum_most { UpTo self.top sum }
        requires slice_most { UpTo (2 * one) slice }
        ensures { result ≡ as_bounds (joined self.top (as_pair sum) (as_pair slice)) }
    {
        sum.add(slice).at_most(bounds::signed(self.top))
    }

    // Where the slices begin, a squared distance: what lies beyond FAR_FROM is one far slice.
    fn slice_start(self) -> u64
        ensures { result ≡ slice_start self.near self.far self.diffusion }
    {
        let edge = FAR_FROM * self.diffusion;
        if edge < self.far {
            self.near.max(edge)
        } else {
            self.far
        }
    }

    // The far slice, from 0 to e^(-u) at its near end times the logarithm, in units of 2^-30.
    fn far_slice(self) -> Bounds
        ensures { result ≡ as_bounds (far_pair self.near self.far self.diffusion self.top) }
    {
        if FAR_FROM * self.diffusion < self.far {
            return bounds::from_naturals(0, self.top)
                .scaled_mul(far_exp(self.near, self.diffusion), ONE)
                .at_most(bounds::signed(self.top));
        }
        Bounds::whole(0)
    }

    // `first` with what lies of the unit slices, from 16 down to 1 or to the near end, in units of 2^-30.
    fn unit_slices(self, first: Bounds) -> Bounds
        requires { UpTo self.top first }
        ensures { result ≡ as_bounds (unit_sum self.near self.far self.diffusion self.top (as_pair first) units) }
    {
        let diffusion = self.diffusion;
        let last = self.near.max(diffusion);
        let mut sum = first;
        let mut y = FAR_FROM * diffusion;
        for (knot, &ends) in UNIT.iter().enumerate() {
            if y <= last {
                break;
            }
            let x = y - diffusion;
            let slice = KnotSlice {
                x,
                y,
                diffusion,
                knot,
            };
            sum = self.joined(sum, slice.part(self.near, self.far, row(ends)));
            y = x;
        }
        sum
    }

    // `first` with what lies of the half slices, from 1 down to the near end, in units of 2^-30. Each is one slice of whole numbers with all distances and
    // the diffusion doubled once more.
    fn half_slices(self, first: Bounds) -> Bounds
        requires { UpTo self.top first }
        ensures { result ≡ as_bounds (half_sum self.near self.far self.diffusion self.top (as_pair first) halves) }
    {
        let diffusion = self.diffusion;
        let mut sum = first;
        let mut start = self.near;
        let mut end = numbers::least(self.far, diffusion);
        let mut divisor = diffusion;
        for (k, &ends) in HALF.iter().enumerate() {
            if diffusion <= start {
                break;
            }
            start = 2 * start;
            end = 2 * end;
            divisor = 2 * divisor;
            let slice = KnotSlice {
                x: diffusion,
                y: 2 * diffusion,
                diffusion: divisor,
                knot: UNITS + k,
            };
            let part = slice.part(start, end, row(ends));
            sum = self.joined(sum, part);
            end = numbers::least(end, diffusion);
        }
        sum
    }
}

// The integral of e^(-u)/u from near/diffusion to far/diffusion, in units of 2^-30, summed slice by slice from its far end. `top` is at least
// the logarithm of far/near, which no integral passes.
pub fn heating_integral(near: u64, far: u64, diffusion: u64, top: u64) -> Bounds
    requires { Span near far diffusion top }
    ensures { result ≡ as_bounds (heating_integral near far diffusion top) }
{
    let whole = Reach {
        near,
        far,
        diffusion,
        top,
    };
    let beyond = whole.far_slice();
    let short = Reach {
        near,
        far: whole.slice_start(),
        diffusion,
        top,
    };
    let to_one = short.unit_slices(beyond);
    short.half_slices(to_one)
}
