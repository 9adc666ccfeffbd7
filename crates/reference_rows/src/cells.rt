// What stands between the marks of a text: the cells of a line, and the values of a cell `name=value;name=value`.
ghost use Rattle.std.specs.Prelude.{◌≡◌};
ghost use Rattle.text.specs.Reading.{signed_of};
ghost use Rattle.reference_rows.specs.Cells.{part_at, value_in, number_from};

// Above every number that a row may ask: a larger one is read as this.
const BEYOND: u32 = u32::MAX;

// The part with a number, counted from 0, of a text with such bytes between its parts: nothing where there are fewer, and no Option,
// since a row's empty part and one that is missing are read alike.
pub fn part(text: &[u8], byte: u8, number: usize) -> &[u8]
    ensures { result.now ≡ part_at byte number text.now }
{
    text.split(|x| *x == byte).nth(number).unwrap_or(&[])
}

// The first value of that name in a cell: nothing where the name is missing, as of a part.
pub fn value<'a>(cell: &'a [u8], name: &[u8]) -> &'a [u8]
    ensures { result.now ≡ value_in name.now cell.now }
{
    let found = cell
        .split(|x| *x == b';')
        .find(|pair| part(pair, b'=', 0) == name);
    match found {
        Some(pair) => part(pair, b'=', 1),
        None => &[],
    }
}

// A whole number below 4,294,967,295.
pub fn whole(text: &[u8]) -> Option<u32>
    ensures { result ≡ number_from text.now }
{
    let n = text::number_of(text, BEYOND)?;
    (n < BEYOND).then_some(n)
}

pub fn number(cell: &[u8], name: &[u8]) -> Option<u32>
    ensures { result ≡ number_from (value_in name.now cell.now) }
{
    whole(value(cell, name))
}

pub fn integer(cell: &[u8], name: &[u8]) -> Option<i64>
    ensures { result ≡ signed_of (value_in name.now cell.now) }
{
    text::signed_of(value(cell, name))
}
