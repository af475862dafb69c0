//! A grammar that calls itself: rules as data, closed and run.

use chumsky::Stop;
use chumsky::extra::RichText;
use chumsky::prelude::*;
use chumsky::recursive::{FoundedError, Leaves, RecursiveError, SimpleValues, Simply};
use std::alloc::{AllocError, Global};

/// The leaves, by number.
const OPENING: usize = 0;

const CLOSING: usize = 1;

/// What is made of two values, by number: the first, which a bracket follows; or one more than the second, which a bracket
/// precedes.
const CLOSED: usize = 0;

const OPENED: usize = 1;

/// Values are depths: of several pairs of brackets the greatest, of nothing none, and a pair is one deeper than what it
/// holds.
#[derive(Drop)]
struct Depths;

impl SimpleValues<SimpleSpan, Rich<char>> for Depths {
    type Value = usize;

    fn unit(&self, _alloc: Global) -> Result<usize, AllocError> {
        Ok(0)
    }

    fn pair(
        &self,
        _alloc: Global,
        number: usize,
        first: usize,
        second: usize,
    ) -> Result<usize, AllocError> {
        if number == OPENED {
            Ok(second.saturating_add(1))
        } else {
            Ok(first)
        }
    }

    fn list(&self, _alloc: Global, depths: Vec<usize>) -> Result<usize, AllocError> {
        let mut deepest = 0;
        for depth in depths.as_slice() {
            deepest = deepest.max(*depth);
        }
        Ok(deepest)
    }
}

/// Any number of brackets, one after another and within one another.
fn brackets(rules: &mut Rules) -> Result<Recursive, RecursiveError> {
    rules.recursive(|rules, brackets| {
        let opening = rules.leaf(OPENING)?;
        let inside = rules.rule(brackets)?;
        let closing = rules.leaf(CLOSING)?;
        let closed = rules.then_by(inside, closing, CLOSED)?;
        let opened = rules.then_by(opening, closed, OPENED)?;
        rules.repeated(opened, 0, None)
    })
}

/// Why no depth is told.
#[derive(Debug, Drop)]
pub enum Refused {
    Building(RecursiveError),
    Closing(FoundedError),
    Running(Stop),
}

/// How deep the brackets of a text go. However deep they go, the run is refused for memory alone.
pub fn depth(alloc: Global, text: &str) -> Result<ParseResult<usize, Rich<char>>, Refused> {
    let mut rules = Rules::new(alloc);
    let start = match brackets(&mut rules) {
        Ok(start) => start,
        Err(error) => return Err(Refused::Building(error)),
    };
    let leaves = [just::<_, _, RichText>("[").to(0), just("]").to(0)];
    let actions = Leaves {
        leaves: &leaves,
        values: Simply(Depths),
    };
    match close_founded(&rules, start, &actions, text.len()) {
        Ok(grammar) => grammar.parse(alloc, text).map_err(Refused::Running),
        Err(error) => Err(Refused::Closing(error)),
    }
}

/// How deep the brackets of a text go, where no more than `limit` rules are open at once.
pub fn depth_within(
    alloc: Global,
    text: &str,
    limit: usize,
) -> Result<ParseResult<usize, Rich<char>>, Refused> {
    let mut rules = Rules::new(alloc);
    let start = match brackets(&mut rules) {
        Ok(start) => start,
        Err(error) => return Err(Refused::Building(error)),
    };
    let leaves = [just::<_, _, RichText>("[").to(0), just("]").to(0)];
    let actions = Leaves {
        leaves: &leaves,
        values: Simply(Depths),
    };
    match close(&rules, start, &actions, limit) {
        Ok(grammar) => grammar.parse(alloc, text).map_err(Refused::Running),
        Err(error) => Err(Refused::Closing(FoundedError::Close(error))),
    }
}
