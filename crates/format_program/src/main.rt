//! Prints each item of the program that the standard input has in a line of its own, as `let a = (1 + (2 * b));`.
#![tactic(auto)]

use console::run::start;
use programs::format_program::FormatProgram;
use std::process::ExitCode;

fn main(rt: HostRuntime) -> ExitCode {
    start(&rt, &FormatProgram)
}
