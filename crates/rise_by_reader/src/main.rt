// Reads a sheet from standard input and prints its rise as `rise` does, with the chain walked by the reader. What is no answer goes to standard error.
// A program of its own, since each of the two has a stdout that is compared.
#![tactic(auto)]

use std::io::Print;

fn main(rt: HostRuntime) {
    if 1 < report::word_count(&rt, 2) {
        let _ = rt
            .stderr()
            .write_all(b"usage: no words wanted: rise_by_reader < SHEET\n");
        return;
    }
    match report::rise_from(&mut rt.stdin(), &report::ByReader) {
        Ok(answer) => report::print_rise(
            &rt,
            answer,
            b"rise_by_reader: the answer cannot be written",
        ),
        Err(error) => report::fail(&rt, b"rise_by_reader: standard input cannot be read", error),
    }
}
