// A cable, and what its checks 2 and 3 find: types, definitions and laws.
#![tactic(auto)]

// The fields in the order and the units of document 01's table; a diffusivity of 0 stands for the default.
#[derive(Clone, Copy)]
pub struct Cable {
    pub diameter: u32,
    pub depth: u32,
    pub diffusivity: u32,
    pub surface_ratio: u32,
    pub fast_weight: u32,
    pub fast_rate: u32,
    pub slow_rate: u32,
    pub rated: u32,
}
