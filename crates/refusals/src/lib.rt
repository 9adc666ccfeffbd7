// What a refusal is: its number and its place; and what an answer states, taken apart and put together.
#![tactic(auto)]

ghost use Rattle.std.specs.Prelude.{◌≡◌, [], ◌∷◌, pos};
ghost use Rattle.refusals.specs.Stated.{place_kind, place_number, kind_number, stated_values, stated_refusal};
ghost use Rattle.refusals.specs.Apart.{parts_of, place_of, refusal_in};

use bounds::Bounds;

// A field, a record, an hour or an input, by its number, or none. None is a case here and no Option is made of it: document 01, 'Language form for each place'.
#[derive(Clone, Copy, PartialEq, Eq)]
pub enum Place {
    None,
    Field(u8),
    Record(u8),
    Hour(u8),
    Input(u8),
}

// By the papers' number, which is printed, explained and handed to C: an enum of the numbers would be turned back into them at each of these.
#[derive(Clone, Copy, PartialEq, Eq)]
pub struct Refusal {
    pub number: u8,
    pub place: Place,
}

// The place's number, 0 for none, as the C interface has it.
fn place_number(place: Place) -> u8
    ensures { result ≡ place_number place }
{
    match place {
        Place::None => 0,
        Place::Field(number) => number,
        Place::Record(number) => number,
        Place::Hour(number) => number,
        Place::Input(number) => number,
    }
}

// The kinds of place by number, in document 01's order, and 0 for none, as the C interface has them.
fn kind_number(place: Place) -> u8
    ensures { result ≡ kind_number (place_kind place) }
{
    match place {
        Place::None => 0,
        Place::Field(_) => 1,
        Place::Record(_) => 2,
        Place::Hour(_) => 3,
        Place::Input(_) => 4,
    }
}

// What an answer states: the refusal's number, 0 for none, the kind and the number of its place, how many values there are, and the values. Plain numbers,
// since the C interface takes them.
#[derive(Clone, Copy, PartialEq, Eq)]
pub struct Parts {
    pub number: u8,
    pub kind: u8,
    pub place: u8,
    pub count: u8,
    pub first: i64,
    pub second: i64,
}

// Of an answer that gives a pair.
impl From<Bounds> for Parts {
    ghost from_gives = { λ pair r. r ≡ parts_of (stated_values (pair.low ∷ pair.high ∷ [])) };

    fn from(pair: Bounds) -> Parts {
        Parts {
            number: 0,
            kind: 0,
            place: 0,
            count: 2,
            first: pair.low,
            second: pair.high,
        }
    }
}

// Of an answer that gives one value.
impl From<u32> for Parts {
    ghost from_gives = { λ value r. r ≡ parts_of (stated_values (pos value ∷ [])) };

    fn from(value: u32) -> Parts {
        Parts {
            number: 0,
            kind: 0,
            place: 0,
            count: 1,
            first: i64::from(value),
            second: 0,
        }
    }
}

// Of an answer that refuses.
impl From<Refusal> for Parts {
    ghost from_gives = { λ refusal r. r ≡ parts_of (stated_refusal refusal) };

    fn from(refusal: Refusal) -> Parts {
        let place = refusal.place;
        Parts {
            number: refusal.number,
            kind: kind_number(place),
            place: place_number(place),
            count: 0,
            first: 0,
            second: 0,
        }
    }
}

// The refusal in the parts of an answer that refuses.
impl From<Parts> for Refusal {
    ghost from_gives = { λ parts r. r ≡ refusal_in parts };

    fn from(parts: Parts) -> Refusal {
        Refusal {
            number: parts.number,
            place: place_of(parts.kind, parts.place),
        }
    }
}

fn place_of(kind: u8, number: u8) -> Place
    ensures { result ≡ place_of kind number }
{
    match kind {
        1 => Place::Field(number),
        2 => Place::Record(number),
        3 => Place::Hour(number),
        4 => Place::Input(number),
        _ => Place::None,
    }
}
