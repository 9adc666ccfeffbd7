// Pairs of bounds, added, negated, multiplied and divided as one thing, and division of signed numbers rounded down and up.
#![tactic(auto)]

ghost use Rattle.std.specs.Prelude.{◌≡◌, true, ◌<◌, ◌≤◌, ◌^◌, T, pos, negsuc, nat_abs};
ghost use Rattle.std.specs.Int.Signed.{mag, lt_z, non_neg};
ghost use Rattle.numbers.specs.Integer.{up, lesser, greater};
ghost use Rattle.bounds.specs.Pair.{as_bounds};
ghost use Rattle.bounds.specs.Operations.{add_b, mul_b};
ghost use Rattle.bounds.specs.Promises.{Sized, largest, ScaledRoom, QuotientRoom, TimesRoom, DividedRoom};
ghost use Rattle.bounds.specs.Promises.{Point, Sum, Negation, Product, ScaledProduct, Quotient, Multiple, Divided, Cut, Floor, Ceiling};

// A lower and an upper bound of a number, in whole units.
#[derive(Clone, Copy, PartialEq, Eq)]
pub struct Bounds {
    pub low: i64,
    pub high: i64,
}

// Methods by value, the form that document 01, 'Language form for each place', names.
impl Bounds {
    // The pair of one number.
    pub fn point(n: i64) -> Bounds
        ensures { Point n result }
    {
        Bounds { low: n, high: n }
    }

    // The pair of one natural number.
    pub fn whole(n: u64) -> Bounds
        requires { n ≤ largest }
        ensures { Point (pos n) result }
    {
        Bounds::point(signed(n))
    }

    // Encloses x + y.
    pub fn add(self, other: Bounds) -> Bounds
        requires { Sized largest (add_b self other) }
        ensures { Sum self other result }
    {
        Bounds {
            low: self.low + other.low,
            high: self.high + other.high,
        }
    }

    // Encloses -x.
    pub fn neg(self) -> Bounds
        requires { Sized largest self }
        ensures { Negation self result }
    {
        Bounds {
            low: -self.high,
            high: -self.low,
        }
    }

    // Encloses x · y, whatever the signs.
    pub fn mul(self, other: Bounds) -> Bounds
        requires { Sized largest (mul_b self other) }
        ensures { Product self other result }
    {
        let ll = self.low * other.low;
        let lh = self.low * other.high;
        let hl = self.high * other.low;
        let hh = self.high * other.high;
        Bounds {
            low: ll.min(lh).min(hl.min(hh)),
            high: ll.max(lh).max(hl.max(hh)),
        }
    }

    // Encloses x · y / scale, for pairs not below 0.
    pub fn scaled_mul(self, other: Bounds, scale: u64) -> Bounds
        requires { ScaledRoom self other scale }
        ensures { ScaledProduct self other scale result }
    {
        let low = natural(self.low) * natural(other.low) / scale;
        let high = natural(self.high) * natural(other.high) / scale + 1;
        from_naturals(low, high)
    }

    // Encloses x · scale / y, for pairs not below 0 and y above 0.
    pub fn quotient(self, divisor: Bounds, scale: u64) -> Bounds
        requires { QuotientRoom self divisor scale }
        ensures { Quotient self divisor scale result }
    {
        let low = natural(self.low) * scale / natural(divisor.high);
        let high = natural(self.high) * scale / natural(divisor.low) + 1;
        from_naturals(low, high)
    }

    // Encloses x · n.
    pub fn times(self, n: u64) -> Bounds
        requires { TimesRoom self n }
        ensures { Multiple self n result }
    {
        let factor = signed(n);
        Bounds {
            low: self.low * factor,
            high: self.high * factor,
        }
    }

    // Encloses x / d: low rounded down, high rounded up.
    pub fn divided(self, d: u64) -> Bounds
        requires { DividedRoom self d }
        ensures { Divided self d result }
    {
        Bounds {
            low: floor_div(self.low, d),
            high: ceil_div(self.high, d),
        }
    }

    // Encloses each x that is at most top.
    pub fn at_most(self, top: i64) -> Bounds
        ensures { Cut self top result }
    {
        Bounds {
            low: self.low.min(top),
            high: self.high.min(top),
        }
    }
}

// n / d rounded down, toward minus infinity: of -1 - m, which is !m, it is !(m / d). The library's div_euclid takes no divisor of 2^63 or more.
pub fn floor_div(n: i64, d: u64) -> i64
    requires { 0 < d }
    ensures { Floor n d result }
{
    if n < 0 {
        !signed(natural(!n) / d)
    } else {
        signed(natural(n) / d)
    }
}

// n / d rounded up.
pub fn ceil_div(n: i64, d: u64) -> i64
    requires { (0 < d) × (nat_abs n ≤ largest) }
    ensures { Ceiling n d result }
{
    -floor_div(-n, d)
}

// The ways between signed and natural numbers. `as` is proved to lose nothing; `try_from` would hand back an error that no caller can meet.
pub fn natural(n: i64) -> u64
    requires { T (non_neg n) }
    ensures { result ≡ up n }
{
    n as u64
}

pub fn signed(m: u64) -> i64
    requires { m < 2 ^ 63 }
    ensures { result ≡ pos m }
{
    m as i64
}

// Not a `From`, which could not ask that both ends are below 2^63.
pub fn from_naturals(low: u64, high: u64) -> Bounds
    requires { (low < 2 ^ 63) × (high < 2 ^ 63) }
    ensures { result ≡ as_bounds (record { low = low; high = high }) }
{
    Bounds {
        low: signed(low),
        high: signed(high),
    }
}
