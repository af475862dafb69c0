//! `show ini` and `show log`: print what a text of that language has, which the standard input gives.
#![tactic(auto)]

use console::run::start;
use programs::show::Show;
use std::process::ExitCode;

fn main(rt: HostRuntime) -> ExitCode {
    start(&rt, &Show)
}
