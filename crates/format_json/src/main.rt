//! `format_json [--indented]`: prints the JSON that the standard input has, in one line or indented.
#![tactic(auto)]

use console::run::start;
use programs::format_json::FormatJson;
use std::process::ExitCode;

fn main(rt: HostRuntime) -> ExitCode {
    start(&rt, &FormatJson)
}
