// The load sheet: types of its header, its records and what it gives, all checks in their order, and laws of both chains. Document 01, 'The load sheet';
// document 02, note 2.
#![tactic(auto)]

ghost use Rattle.sheet_rules.specs.Sheet.{Laid};
ghost use Rattle.sheet_rules.specs.OneProof.{laid_prop};

use cable_rules::Cable;

// What stands before the records: the cable, the starting current in A, the first link, and the first of the neighbours' links, 0 in a short header.
// A link is 0 for none, here and below, and no Option: document 01 has "the zero link", and the definitions walk by it.
#[derive(Clone, Copy)]
pub struct Header {
    pub cable: Cable,
    pub start: u32,
    pub link: usize,
    pub neighbours: usize,
}

// A record: its number, the minutes before now, the amperes from then on, the next link. On the chain of neighbours the same bytes are the offset to the side,
// as it is written, and the depth.
#[derive(Clone, Copy)]
pub struct LoadRecord {
    pub number: u8,
    pub minutes: u32,
    pub amperes: u32,
    pub next: usize,
}

// A cable in use, and the first link of its neighbours, 0 for none: what a calculation takes beside the bytes of a sheet.
#[derive(Clone, Copy)]
pub struct Trench {
    pub cable: Cable,
    pub neighbours: usize,
}

// A cable in use beside the bytes that its neighbours stand in: all of it is accepted. Without a sheet there are no bytes, and the link is 0.
#[derive(Clone, Copy)]
pub struct Ground<'a> {
    pub sheet: &'a [u8],
    pub trench: Trench,
    pub ghost laid: { Laid sheet.now trench } by { laid_prop sheet.now trench },
}

// Which chain a walk is along. The definitions and the laws of either chain are said once over it; a trait with the check, the measure and its law as ghost
// members, and two impls, would be longer than the one match.
#[derive(Clone, Copy)]
pub enum Links {
    Load,
    Neighbours,
}
