// Polynomials, fractions, signed fractions and integers are laws only. The code is what every crate would else write anew: a square, the lesser of two, a
// wider number, a bisection.
#![tactic(auto)]

ghost use Rattle.std.specs.Prelude.{◌≡◌, ◌+◌, ◌*◌, ◌^◌, ◌<◌, ◌≤◌, min, pos};
ghost use Rattle.numbers.specs.Largest.{LargestPassing};

// The square of 32 bits fits 64.
pub fn square(x: u32) -> u64
    ensures { result ≡ x * x }
{
    u64::from(x).pow(2)
}

// Stays beside the library's `min`, since its contract has an edit of its own, `greater_for_lesser`.
pub fn least(a: u64, b: u64) -> u64
    ensures { result ≡ min a b }
{
    a.min(b)
}

// A number of 32 bits among the signed ones of 64. Stays beside `i64::from`, since its contract has an edit of its own, `wide_below_0`.
pub fn wide(n: u32) -> i64
    ensures { result ≡ pos n }
{
    i64::from(n)
}

// The largest number from 0 to an end that passes a test, where 0 passes and what passes, passes for every smaller number. By bisection: low passes, or
// is 0, and high does not, or is past the end.
pub fn largest_passing<F: Fn(u32) -> bool>(end: u32, passes: F) -> u32
    requires room { end + 1 < 2 ^ 32 }
    requires callable { (n : _) → n ≤ end → F.pre passes n }
    ensures { LargestPassing (F.post passes) end result }
{
    let mut low: u32 = 0;
    let mut high: u32 = end + 1;
    while 1 < high - low {
        let middle = low + (high - low) / 2;
        if passes(middle) {
            low = middle;
        } else {
            high = middle;
        }
    }
    low
}
