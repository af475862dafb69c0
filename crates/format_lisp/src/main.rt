//! Prints each of the s-expressions that the standard input has in a line of its own.
#![tactic(auto)]

use console::run::start;
use programs::format_lisp::FormatLisp;
use std::process::ExitCode;

fn main(rt: HostRuntime) -> ExitCode {
    start(&rt, &FormatLisp)
}
