// Decimal numbers as bytes: read from a text, and written into a line.
#![tactic(auto)]

ghost use Rattle.std.specs.Prelude.{◌≡◌, [], ◌+◌, ◌<◌, ◌≤◌, length};
ghost use Rattle.text.specs.Reading.{number_of, beyond_signed, with_sign, as_integer, signed_of};
ghost use Rattle.text.specs.Writing.{decimal_text, signed_text, line_room, number_room, written, line_length, Appended, AppendedNumber};

use itoa::Buffer;

// Above every number of 18 digits.
const BEYOND_SIGNED: u64 = 1000000000000000000;

// The number that the digits spell, and the most where they spell more; none of a text that is no whole number.
#[tactic(auto, using(crate::proofs::Digits::at_most))]
pub fn number_of(text: &[u8], most: u32) -> Option<u32>
    ensures { result ≡ number_of text.now most }
{
    let number = spelled_by(text, u64::from(most))?;
    Some(number as u32)
}

// Of digits only. Ten times the most and a digit fit, so that the number can be held at the most after each digit.
#[tactic(auto, using(crate::proofs::Digits::passes, crate::proofs::Digits::stops, crate::proofs::Digits::ends, crate::proofs::Digits::none_spelled))]
fn spelled_by(text: &[u8], most: u64) -> Option<u64>
    requires { most ≤ beyond_signed }
    ensures { result ≡ number_of text.now most }
{
    if text.is_empty() {
        return None;
    }
    let mut number: u64 = 0;
    for byte in text {
        if !byte.is_ascii_digit() {
            return None;
        }
        number = (10 * number + u64::from(*byte - b'0')).min(most);
    }
    Some(number)
}

// The number of the digits, below 0 after a minus sign; none of a text that is no number of 18 digits at most.
#[tactic(auto, using(crate::proofs::Signs::after_minus, crate::proofs::Signs::without_minus))]
pub fn signed_of(text: &[u8]) -> Option<i64>
    ensures { result ≡ signed_of text.now }
{
    match text.strip_prefix(b"-") {
        Some(digits) => integer(spelled_by(digits, BEYOND_SIGNED), true),
        None => integer(spelled_by(text, BEYOND_SIGNED), false),
    }
}

fn integer(spelled: Option<u64>, minus: bool) -> Option<i64>
    ensures { result ≡ as_integer minus spelled }
{
    let size = spelled?;
    if size < BEYOND_SIGNED {
        Some(with_sign(size, minus))
    } else {
        None
    }
}

// Not a `From`: a size has no sign of its own.
fn with_sign(size: u64, minus: bool) -> i64
    requires { size < beyond_signed }
    ensures { result ≡ with_sign minus size }
{
    if minus { -(size as i64) } else { size as i64 }
}

// The bytes of the longest line.
const LINE_ROOM: usize = 80;

// A line of output in the making: its first `length` bytes are written. A line can be copied, which an `ArrayVec` cannot.
#[derive(Clone, Copy)]
pub struct Line {
    pub bytes: [u8; LINE_ROOM],
    pub length: usize,
}

impl Line {
    pub fn empty() -> Line
        ensures { (written result ≡ []) × (line_length result ≡ 0) }
    {
        Line {
            bytes: [0; LINE_ROOM],
            length: 0,
        }
    }

    pub fn as_slice(&self) -> &[u8]
        ensures { result.now ≡ written self.now }
    {
        &self.bytes[..self.length.min(LINE_ROOM)]
    }

    // The text after what is written.
    pub fn with(self, more: &[u8]) -> Line
        requires { line_length self + length more.now ≤ line_room }
        ensures { Appended self more.now result }
    {
        let length = self.length + more.len();
        let mut bytes = self.bytes;
        bytes[self.length..length].copy_from_slice(more);
        Line { bytes, length }
    }

    // In decimal, of 20 digits at most. No generic function with `with_signed`: each is one call, and promises a definition of its own.
    #[tactic(auto, using(crate::proofs::Decimal::library_number))]
    pub fn with_number(self, n: u64) -> Line
        requires { line_length self + number_room ≤ line_room }
        ensures { AppendedNumber self (decimal_text n) result }
    {
        let mut digits = Buffer::new();
        self.with(digits.format(n).as_bytes())
    }

    // In decimal, with a leading minus sign below 0: 20 bytes at most.
    #[tactic(auto, using(crate::proofs::Decimal::library_signed))]
    pub fn with_signed(self, n: i64) -> Line
        requires { line_length self + number_room ≤ line_room }
        ensures { AppendedNumber self (signed_text n) result }
    {
        let mut signed = Buffer::new();
        self.with(signed.format(n).as_bytes())
    }
}
