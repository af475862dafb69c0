//! Works out the sum that the standard input has, as `2 * (3 + 4) - 1`, and prints what it comes to.
#![tactic(auto)]

use console::run::start;
use programs::calc::Calc;
use std::process::ExitCode;

fn main(rt: HostRuntime) -> ExitCode {
    start(&rt, &Calc)
}
