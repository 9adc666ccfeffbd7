// The ranges that inputs are held to, and the first input outside its range.
#![tactic(auto)]

ghost use Rattle.std.specs.Prelude.{◌≡◌, ◌≤◌, length};
ghost use Rattle.ranges.specs.Ranges.{◌to◌, outside, ranges_of, first_outside};

// Whether x lies outside low to high.
pub fn outside(x: u32, low: u32, high: u32) -> bool
    ensures { result ≡ outside (low to high) x }
{
    x < low || high < x
}

// The number of the first value outside its range, counted from 1; a range is its least and its greatest value. The ranges stay a table beside the values, read
// by place: a zip of the two would count its places all the same.
pub fn first_outside(values: &[u32], ranges: &[[u32; 2]]) -> Option<u8>
    requires { (length ranges.now ≡ length values.now) × (length values.now ≤ 255) }
    ensures { result ≡ first_outside 1 (ranges_of ranges.now) values.now }
{
    for (i, value) in values.iter().enumerate() {
        let range = ranges[i];
        if outside(*value, range[0], range[1]) {
            return Some((i + 1) as u8);
        }
    }
    None
}
