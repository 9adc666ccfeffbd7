// Reads a sheet from standard input and prints its rise as one line. What is no answer goes to standard error.
#![tactic(auto)]

use std::io::Print;

fn main(rt: HostRuntime) {
    if 1 < report::word_count(&rt, 2) {
        let _ = rt
            .stderr()
            .write_all(b"usage: no words wanted: rise < SHEET\n");
        return;
    }
    match report::rise_from(&mut rt.stdin(), &report::Plain) {
        Ok(answer) => report::print_rise(&rt, answer, b"rise: the answer cannot be written"),
        Err(error) => report::fail(&rt, b"rise: standard input cannot be read", error),
    }
}
