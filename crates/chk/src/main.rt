//! `chk parse NAME` and `chk check NAME`: runs the grammar of that name over the standard input, and prints what it
//! answers. `chk show NAME` and `chk draw NAME` print the grammar itself.
#![tactic(auto)]

use chk_run::look::look;
use chk_run::run::{FAILED, refuse, run};
use chk_run::show::Refusal;
use chumsky::Stop;
use console::failure::Failure;
use console::run::{buffer, words_of};
use std::alloc::Global;
use std::io;
use std::io::Write;
use std::process::ExitCode;

/// Runs the program on some words, through a buffer before the standard output. The result is its exit status.
fn status_of(rt: &HostRuntime, alloc: Global, words: &[String]) -> Result<u8, Failure> {
    let mut out = buffer(alloc, io::writer(rt))?;
    let ended = match look(alloc, words, &mut out) {
        Some(ended) => ended,
        None => run(alloc, words, &mut rt.reader(), &mut out, &mut rt.stderr()),
    };
    match out.flush() {
        Ok(()) => Ok(ended.status),
        Err(_) => Ok(FAILED),
    }
}

/// The status of a run on the process's words. Words that aren't UTF-8 are wrong, as no words are.
fn answer(rt: &HostRuntime, alloc: Global) -> Result<u8, Failure> {
    match words_of(rt, alloc) {
        Err(Failure::Words) => status_of(rt, alloc, &[]),
        words => status_of(rt, alloc, words?.as_slice()),
    }
}

/// Without memory for the words or the buffer the run is refused.
fn main(rt: HostRuntime) -> ExitCode {
    let status = match answer(&rt, rt.alloc()) {
        Ok(status) => status,
        Err(_) => refuse(&mut io::writer(&rt), Refusal::Run(Stop::Memory)).status,
    };
    ExitCode::from(status)
}
