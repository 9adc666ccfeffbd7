// Runs Table 1 of the 1972 paper (source 000, l.1386 to 1426) through the public call: the rises of the six hours and what is left after them, for 45
// cable diameters at a depth of 1 m and a soil diffusivity of 0.5e-6 m²/s. Prints how many of the 315 values agree within 0.001 plus the width of the
// pair. The two misprints stand mended in the table: as printed their columns sum to 0.991 instead of 1.000. They are run as printed too, with two
// more values that are false on purpose, one to each side.
#![tactic(auto)]

ghost use Rattle.std.specs.Prelude.{◌≡◌, ◌≤◌};
ghost use Rattle.distance.specs.Promised.{Millionths};
ghost use Rattle.table_1972.specs.Agreement.{surface_cable, table_cable, share_after, InMillionths};
ghost use Rattle.table_1972.specs.Agreement.{ends_of, near, agrees_at, agreeing_lines, agreeing_columns};

use bounds::Bounds;
use cable::Cable;
use share::ShareAnswer;

// A pair in millionths, neither end below 0.
#[derive(Clone, Copy)]
struct Ends {
    low: u32,
    high: u32,
}

const DIAMETERS: usize = 45;

const LINES: usize = 7;

const VALUES: u64 = (DIAMETERS * LINES) as u64;

// The columns of the table, in thousandths: Φ0 to Φ5 and 1 − β(6), which stand under one another in the lines named, for a diameter.
const TABLE: [[u16; LINES]; DIAMETERS] = [
    // 0.030 m, l.1392 to 1398
    [298, 69, 41, 29, 23, 19, 521],
    // 0.035 m, l.1392 to 1398
    [277, 71, 42, 30, 23, 19, 538],
    // 0.040 m, l.1392 to 1398
    [257, 72, 43, 31, 24, 20, 553],
    // 0.045 m, l.1392 to 1398
    [239, 73, 44, 31, 25, 20, 568],
    // 0.050 m, l.1392 to 1398
    [223, 74, 45, 32, 25, 20, 581],
    // 0.055 m, l.1392 to 1398
    [207, 75, 45, 33, 25, 21, 594],
    // 0.060 m, l.1392 to 1398
    [193, 76, 46, 33, 26, 21, 605],
    // 0.065 m, l.1392 to 1398
    [180, 76, 46, 34, 26, 21, 617],
    // 0.070 m, l.1392 to 1398
    [168, 76, 47, 34, 26, 22, 627],
    // 0.075 m, l.1392 to 1398
    [156, 76, 47, 34, 27, 22, 638],
    // 0.080 m, l.1392 to 1398
    [145, 76, 47, 35, 27, 22, 648],
    // 0.085 m, l.1392 to 1398
    [135, 75, 48, 35, 27, 23, 657],
    // 0.090 m, l.1392 to 1398
    [126, 74, 48, 35, 27, 23, 667],
    // 0.095 m, l.1392 to 1398, 0.676 for the misprint 0.667
    [117, 74, 48, 35, 27, 23, 676],
    // 0.100 m, l.1392 to 1398, 0.108 for the misprint 0.100
    [108, 73, 48, 35, 28, 23, 684],
    // 0.105 m, l.1404 to 1410
    [101, 72, 48, 35, 28, 23, 693],
    // 0.110 m, l.1404 to 1410
    [93, 71, 48, 35, 28, 24, 701],
    // 0.115 m, l.1404 to 1410
    [86, 70, 47, 36, 28, 24, 709],
    // 0.120 m, l.1404 to 1410
    [80, 69, 47, 36, 28, 24, 716],
    // 0.125 m, l.1404 to 1410
    [74, 68, 47, 35, 28, 24, 724],
    // 0.130 m, l.1404 to 1410
    [68, 67, 46, 35, 29, 24, 731],
    // 0.135 m, l.1404 to 1410
    [63, 65, 46, 35, 29, 24, 738],
    // 0.140 m, l.1404 to 1410
    [58, 63, 46, 35, 29, 24, 745],
    // 0.145 m, l.1404 to 1410
    [53, 62, 45, 35, 29, 24, 752],
    // 0.150 m, l.1404 to 1410
    [49, 60, 45, 35, 29, 24, 758],
    // 0.155 m, l.1404 to 1410
    [45, 59, 44, 35, 28, 24, 765],
    // 0.160 m, l.1404 to 1410
    [41, 57, 44, 35, 28, 24, 771],
    // 0.165 m, l.1404 to 1410
    [38, 56, 43, 34, 28, 24, 777],
    // 0.170 m, l.1404 to 1410
    [34, 54, 43, 34, 28, 24, 783],
    // 0.175 m, l.1404 to 1410
    [31, 52, 42, 34, 28, 24, 789],
    // 0.180 m, l.1416 to 1422
    [29, 50, 41, 34, 28, 24, 794],
    // 0.185 m, l.1416 to 1422
    [26, 48, 41, 33, 28, 24, 800],
    // 0.190 m, l.1416 to 1422
    [24, 47, 40, 33, 27, 24, 805],
    // 0.195 m, l.1416 to 1422
    [22, 45, 39, 32, 27, 24, 811],
    // 0.200 m, l.1416 to 1422
    [20, 43, 38, 32, 27, 24, 816],
    // 0.205 m, l.1416 to 1422
    [18, 42, 37, 32, 27, 23, 821],
    // 0.210 m, l.1416 to 1422
    [16, 40, 37, 31, 27, 23, 826],
    // 0.215 m, l.1416 to 1422
    [15, 38, 36, 31, 27, 23, 830],
    // 0.220 m, l.1416 to 1422
    [13, 37, 35, 31, 26, 23, 835],
    // 0.225 m, l.1416 to 1422
    [12, 35, 34, 30, 26, 23, 840],
    // 0.230 m, l.1416 to 1422
    [11, 33, 33, 30, 26, 23, 844],
    // 0.235 m, l.1416 to 1422
    [10, 32, 33, 29, 25, 23, 848],
    // 0.240 m, l.1416 to 1422
    [9, 30, 32, 29, 25, 22, 853],
    // 0.245 m, l.1416 to 1422
    [8, 29, 31, 28, 25, 22, 857],
    // 0.250 m, l.1416 to 1422
    [7, 27, 30, 28, 25, 22, 861],
];

// The cable of a diameter of the table, the first being 0.030 m and each next 0.005 m more: all its rise is that of the surface, and the conductor's own
// is over at once. From the 26th on the diameter is beyond the range of the call, and the cable of half the size in soil of a quarter of the diffusivity,
// whose share is the same, takes its place.
fn cable_of(column: u16) -> Cable
    ensures { result ≡ table_cable column }
{
    let wide = u32::from(column);
    if column < 25 {
        surface_cable(300 + 50 * wide, 1000, 500)
    } else {
        surface_cable(150 + 25 * wide, 500, 125)
    }
}

fn surface_cable(diameter: u32, depth: u32, diffusivity: u32) -> Cable
    ensures { result ≡ surface_cable diameter depth diffusivity }
{
    Cable {
        diameter,
        depth,
        diffusivity,
        surface_ratio: 1000000,
        fast_weight: 0,
        fast_rate: 100000,
        slow_rate: 100000,
        rated: 400,
    }
}

// The share after some hours: nothing at 0, and all of it after more than 6.
fn share_after(cable: Cable, hours: u32) -> ShareAnswer
    ensures { (result ≡ share_after cable hours) × (InMillionths result) }
{
    match hours {
        0 => ShareAnswer::Pair(Bounds::point(0)),
        1..=6 => share::share(cable, 60 * hours),
        _ => ShareAnswer::Pair(Bounds::point(1000000)),
    }
}

// Not a `From`, which could not ask that the ends are those of a share.
fn ends_of(pair: Bounds) -> Ends
    requires { Millionths pair }
    ensures { result ≡ ends_of pair }
{
    Ends {
        low: pair.low as u32,
        high: pair.high as u32,
    }
}

// Whether a value lies at most 1 thousandth outside the pair of `later` less `earlier`. The sides are moved so that nothing is subtracted.
fn near(earlier: Ends, later: Ends, thousandths: u16) -> bool
    ensures { result ≡ near earlier later thousandths }
{
    let value = 1000 * u64::from(thousandths);
    let least = u64::from(earlier.low) + value;
    let most = u64::from(earlier.high) + value;
    u64::from(later.low) <= most + 1000 && least <= u64::from(later.high) + 1000
}

// Whether the value of a line agrees: Φ0 to Φ5 are what the share gains in an hour, and 1 − β(6) what it lacks after 6.
fn agrees(column: u16, line: u16, thousandths: u16) -> bool
    ensures { result ≡ agrees_at column line thousandths }
{
    let cable = cable_of(column);
    let hours = u32::from(line);
    let earlier = share_after(cable, hours);
    let later = share_after(cable, hours + 1);
    let ShareAnswer::Pair(before) = earlier else {
        return false;
    };
    let ShareAnswer::Pair(after) = later else {
        return false;
    };
    near(ends_of(before), ends_of(after), thousandths)
}

// How many values of a column agree.
fn agreeing_in(column: u16, printed: [u16; LINES]) -> u64
    ensures { (result ≡ agreeing_lines column printed 7) × (result ≤ 7) }
{
    let mut count = 0;
    for (line, thousandths) in printed.iter().enumerate() {
        count += u64::from(agrees(column, line as u16, *thousandths));
    }
    count
}

// How many values of the table agree.
fn agreeing(table: [[u16; LINES]; DIAMETERS]) -> u64
    ensures { (result ≡ agreeing_columns table 45) × (result ≤ 315) }
{
    let mut count = 0;
    for (column, printed) in table.iter().enumerate() {
        count += agreeing_in(column as u16, *printed);
    }
    count
}

// What is false on purpose: a name, the column and the line where it stands, and the value in thousandths.
const FALSE: [(&str, u16, u16, u16); 4] = [
    ("l.1398, 0.095 m, 0.667 as printed", 13, 6, 667),
    ("l.1392, 0.100 m, 0.100 as printed", 14, 0, 100),
    ("l.1392, 0.030 m, 0.296 for 0.298", 0, 0, 296),
    ("l.1392, 0.030 m, 0.300 for 0.298", 0, 0, 300),
];

// A program that tests has nowhere to tell that a line was lost.
fn main(rt: HostRuntime) {
    let count = agreeing(TABLE);
    let disagreeing = VALUES - count;
    let _ = println!(&rt; "agree {count}\ndisagree {disagreeing}");
    for (name, column, line, thousandths) in FALSE {
        let said = if agrees(column, line, thousandths) {
            "agrees"
        } else {
            "disagrees"
        };
        let _ = println!(&rt; "{name} {said}");
    }
}
