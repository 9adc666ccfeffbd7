// What the desk is told besides answers: help, version, what a refusal and its place mean, and what is no question.
#![tactic(auto)]

mod explain;
mod say;

pub use explain::{refusal, refusal_at};
pub use say::{complaint, fault, unread};

// The version of the product stands here alone.
pub fn version(rt: &HostRuntime) {
    report::put(
        rt,
        b"rating 0.1.0\n",
        b"rating: the version cannot be written",
    );
}

// One example for each command, in one write: where it is lost, that is told once.
pub fn help(rt: &HostRuntime) {
    report::put(
        rt,
        b"A buried cable's ratings, each with a proved distance to the exact value. docs/INPUTS.md explains every number and refusal.
CABLE is D L S K W FAST SLOW RATED: diameter in 0.1 mm, depth in mm, diffusivity in 1e-9 m2/s (0: 500),
surface ratio and fast weight in millionths, fast and slow rate in millionths per second, rated amperes; or a load sheet's file.
  rating share CABLE MINUTES        the attained share, low and high, in millionths
e.g. rating share 500 1000 500 600000 500000 1000 100 400 60
  rating factor CABLE H0 .. H23     the cyclic factor in thousandths, from hourly amperes
e.g. rating factor 500 1000 500 600000 500000 1000 100 400 $(yes 200 | head -24)
  rating current CABLE H R MINUTES  the emergency current in A, after H percent of the rated current, up to R percent of the rated rise
e.g. rating current 500 1000 500 600000 500000 1000 100 400 50 100 60
  rating rise FILE                  the rise after a load sheet, in millionths of the rated rise
e.g. rating rise examples/steady.sheet
  rating explain NUMBER PLACE       what `refused NUMBER PLACE` means; the place may be left out
e.g. rating explain 2 4
  rating help, rating version       these lines, and the version
",
        b"rating: the help cannot be written",
    );
}
