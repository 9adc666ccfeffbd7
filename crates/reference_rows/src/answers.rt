// The answer to what a row asks, by the public call of its kind.
ghost use Rattle.std.specs.Prelude.{◌≡◌, IfSome};
ghost use Rattle.reference_rows.specs.Kinds.{skips, kind_of};
ghost use Rattle.reference_rows.specs.Answers.{CableIn, FromCable, FromSheet, ShareTo, FactorTo, CurrentTo, Answered, AnswerTo};

use crate::{cells, inputs};
use cable_rules::Cable;
use refusals::Parts;

#[derive(Clone, Copy)]
pub enum Kind {
    Share,
    Factor,
    Current,
    ShareInSheet,
    FactorInSheet,
    CurrentInSheet,
}

// The word of each kind.
const KINDS: [(&[u8], Kind); 6] = [
    (b"share", Kind::Share),
    (b"factor", Kind::Factor),
    (b"current", Kind::Current),
    (b"share_in_sheet", Kind::ShareInSheet),
    (b"factor_in_sheet", Kind::FactorInSheet),
    (b"current_in_sheet", Kind::CurrentInSheet),
];

pub fn kind_of(word: &[u8]) -> Option<Kind>
    ensures { result ≡ kind_of word.now }
{
    let found = KINDS.iter().find(|row| row.0 == word)?;
    Some(found.1)
}

// Whether a row is none of this program's: the line of the columns' names, and what `rise_files` runs.
pub fn skips(word: &[u8]) -> bool
    ensures { result ≡ skips word.now }
{
    word == b"kind".as_slice() || word == b"rise".as_slice() || word == b"program".as_slice()
}

// Nothing where the inputs cannot be read. Each of the six public calls has its few lines below, since the rows are there to run them all: a trait over
// a cable and a sheet would take four methods in each of two impls to spare three of the six.
pub fn ask(kind: Kind, inputs: &[u8]) -> Option<Parts>
    ensures { AnswerTo kind inputs.now result }
{
    match kind {
        Kind::Share => share(inputs),
        Kind::Factor => factor(inputs),
        Kind::Current => current(inputs),
        Kind::ShareInSheet => share_in_sheet(inputs),
        Kind::FactorInSheet => factor_in_sheet(inputs),
        Kind::CurrentInSheet => current_in_sheet(inputs),
    }
}

fn share(inputs: &[u8]) -> Option<Parts>
    ensures { IfSome result (Answered (FromCable inputs.now) (ShareTo inputs.now)) }
{
    let cable = cable_in(inputs)?;
    let minutes = cells::number(inputs, b"minutes")?;
    Some(share::parts(share::share(cable, minutes)))
}

fn factor(inputs: &[u8]) -> Option<Parts>
    ensures { IfSome result (Answered (FromCable inputs.now) (FactorTo inputs.now)) }
{
    let cable = cable_in(inputs)?;
    let hours = inputs::day_in(inputs)?;
    Some(cycle::parts(cycle::factor(cable, hours)))
}

fn current(inputs: &[u8]) -> Option<Parts>
    ensures { IfSome result (Answered (FromCable inputs.now) (CurrentTo inputs.now)) }
{
    let cable = cable_in(inputs)?;
    let h = cells::number(inputs, b"h")?;
    let r = cells::number(inputs, b"r")?;
    let minutes = cells::number(inputs, b"minutes")?;
    Some(emergency::parts(emergency::current(cable, h, r, minutes)))
}

fn share_in_sheet(inputs: &[u8]) -> Option<Parts>
    ensures { IfSome result (Answered (FromSheet inputs.now) (ShareTo inputs.now)) }
{
    let sheet = inputs::sheet_in(inputs)?;
    let minutes = cells::number(inputs, b"minutes")?;
    Some(share::parts(share::share_in_sheet(sheet.as_slice(), minutes)))
}

fn factor_in_sheet(inputs: &[u8]) -> Option<Parts>
    ensures { IfSome result (Answered (FromSheet inputs.now) (FactorTo inputs.now)) }
{
    let sheet = inputs::sheet_in(inputs)?;
    let hours = inputs::day_in(inputs)?;
    Some(cycle::parts(cycle::factor_in_sheet(sheet.as_slice(), hours)))
}

fn current_in_sheet(inputs: &[u8]) -> Option<Parts>
    ensures { IfSome result (Answered (FromSheet inputs.now) (CurrentTo inputs.now)) }
{
    let sheet = inputs::sheet_in(inputs)?;
    let h = cells::number(inputs, b"h")?;
    let r = cells::number(inputs, b"r")?;
    let minutes = cells::number(inputs, b"minutes")?;
    Some(emergency::parts(emergency::current_in_sheet(sheet.as_slice(), h, r, minutes)))
}

fn cable_in(cell: &[u8]) -> Option<Cable>
    ensures { IfSome result (CableIn cell.now) }
{
    Some(Cable {
        diameter: cells::number(cell, b"d")?,
        depth: cells::number(cell, b"l")?,
        diffusivity: cells::number(cell, b"s")?,
        surface_ratio: cells::number(cell, b"k")?,
        fast_weight: cells::number(cell, b"w")?,
        fast_rate: cells::number(cell, b"fast")?,
        slow_rate: cells::number(cell, b"slow")?,
        rated: cells::number(cell, b"rated")?,
    })
}
