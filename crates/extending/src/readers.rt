//! Readers that are parsers by `custom_by`. The edits beside `src/` hold wrong ones, which the check refuses: they go on after
//! a stop of a parser that they run, answer another, or end before their start.

use chumsky::extra::RichText;
use chumsky::input::TextRef;
use chumsky::prelude::*;
use chumsky::primitive::Reader;
use chumsky::{Failure, Stop};

/// Takes two tokens, and fails with an error of its own.
#[derive(Clone, Copy)]
pub struct TwoAndAnError;

impl<'src> Reader<'src, &'src str, &'static str, RichText> for TwoAndAnError {
    fn read(
        &self,
        inp: &mut TextRef<'src, '_, RichText>,
    ) -> Result<&'static str, Failure<Rich<char>>> {
        inp.next()?;
        inp.next()?;
        let span = SimpleSpan { start: 0, end: 2 };
        Err(Failure::Error(Rich::custom(span, String::new(inp.alloc()))))
    }
}

/// Runs `just('x')`, and gives a text of its own for the token.
#[derive(Clone, Copy)]
pub struct AnX;

impl<'src> Reader<'src, &'src str, &'static str, RichText> for AnX {
    fn read(
        &self,
        inp: &mut TextRef<'src, '_, RichText>,
    ) -> Result<&'static str, Failure<Rich<char>>> {
        match inp.check(just('x')) {
            Ok(()) => Ok("x"),
            Err(Failure::Error(error)) => Err(Failure::Error(error)),
            Err(Failure::Stop(reason)) => Err(Failure::Stop(reason)),
        }
    }
}

/// Runs `just("foo")`, and goes back where that fails.
#[derive(Clone, Copy)]
pub struct FooOrNothing;

impl<'src> Reader<'src, &'src str, bool, RichText> for FooOrNothing {
    fn read(&self, inp: &mut TextRef<'src, '_, RichText>) -> Result<bool, Failure<Rich<char>>> {
        let before = inp.save()?;
        match inp.parse(just("foo")) {
            Ok(_) => Ok(true),
            Err(Failure::Error(_)) => {
                inp.rewind(&before)?;
                Ok(false)
            }
            Err(Failure::Stop(stop)) => Err(Failure::Stop(stop)),
        }
    }
}

/// The same with `inp.check`.
#[derive(Clone, Copy)]
pub struct FooOrNothingByCheck;

impl<'src> Reader<'src, &'src str, bool, RichText> for FooOrNothingByCheck {
    fn read(&self, inp: &mut TextRef<'src, '_, RichText>) -> Result<bool, Failure<Rich<char>>> {
        let start = inp.save()?;
        match inp.check(just("foo")) {
            Ok(()) => Ok(true),
            Err(Failure::Error(_)) => {
                inp.rewind(&start)?;
                Ok(false)
            }
            Err(Failure::Stop(refused)) => Err(Failure::Stop(refused)),
        }
    }
}
