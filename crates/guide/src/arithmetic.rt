//! A grammar of two levels: sums of products, as rules.

use crate::recursion::Refused;
use chumsky::extra::RichText;
use chumsky::prelude::*;
use chumsky::recursive::{Leaves, RecursiveError, SepCfg, SimpleValues, Simply};
use std::alloc::{AllocError, Global};

/// The leaves, by number.
const DIGIT: usize = 0;

const PLUS: usize = 1;

const TIMES: usize = 2;

const OPENING: usize = 3;

const CLOSING: usize = 4;

/// What is made of two values, by number: the first, which a bracket follows; or the second, which a bracket precedes.
const CLOSED: usize = 0;

const OPENED: usize = 1;

/// The mappers, by number: what the numbers of a list come to.
const ADDED: usize = 0;

const MULTIPLIED: usize = 1;

/// A number, twice; or of a list both what its numbers come to added and multiplied, until a mapper takes one of the two.
#[derive(Clone, Copy, Drop)]
struct Amount {
    added: u64,
    multiplied: u64,
}

/// One number.
fn number(n: u64) -> Amount {
    Amount {
        added: n,
        multiplied: n,
    }
}

/// Values are amounts, and signs and brackets count nothing. What is more than a `u64` holds is its greatest number.
#[derive(Drop)]
struct Amounts;

impl SimpleValues<SimpleSpan, Rich<char>> for Amounts {
    type Value = Amount;

    fn unit(&self, _alloc: Global) -> Result<Amount, AllocError> {
        Ok(number(0))
    }

    fn pair(
        &self,
        _alloc: Global,
        number: usize,
        first: Amount,
        second: Amount,
    ) -> Result<Amount, AllocError> {
        if number == OPENED {
            Ok(second)
        } else {
            Ok(first)
        }
    }

    fn list(&self, _alloc: Global, amounts: Vec<Amount>) -> Result<Amount, AllocError> {
        let mut added = 0u64;
        let mut multiplied = 1u64;
        for amount in amounts.as_slice() {
            added = added.saturating_add(amount.added);
            multiplied = multiplied.saturating_mul(amount.multiplied);
        }
        Ok(Amount { added, multiplied })
    }

    fn map(&self, _alloc: Global, mapper: usize, amount: Amount) -> Result<Amount, AllocError> {
        if mapper == ADDED {
            Ok(number(amount.added))
        } else {
            Ok(number(amount.multiplied))
        }
    }
}

/// One or more, with a sign between them.
const ONE_OR_MORE: SepCfg = SepCfg {
    at_least: 1,
    at_most: None,
    allow_leading: false,
    allow_trailing: false,
};

/// Sums of products of digits, and of such sums in brackets.
fn expression(rules: &mut Rules) -> Result<Recursive, RecursiveError> {
    rules.recursive(|rules, expression| {
        let digit = rules.leaf(DIGIT)?;
        let opening = rules.leaf(OPENING)?;
        let inside = rules.rule(expression)?;
        let closing = rules.leaf(CLOSING)?;
        let closed = rules.then_by(inside, closing, CLOSED)?;
        let in_brackets = rules.then_by(opening, closed, OPENED)?;
        let atom = rules.choice(&[digit, in_brackets])?;

        let times = rules.leaf(TIMES)?;
        let factors = rules.separated_by(atom, times, ONE_OR_MORE)?;
        let term = rules.map(factors, MULTIPLIED)?;

        let plus = rules.leaf(PLUS)?;
        let terms = rules.separated_by(term, plus, ONE_OR_MORE)?;
        rules.map(terms, ADDED)
    })
}

/// What a sum of products comes to.
pub fn value_of(alloc: Global, text: &str) -> Result<ParseResult<u64, Rich<char>>, Refused> {
    let mut rules = Rules::new(alloc);
    let start = match expression(&mut rules) {
        Ok(start) => start,
        Err(error) => return Err(Refused::Building(error)),
    };
    let amount = |token: char| number(token.to_digit(10).unwrap_or(0) as u64);
    let leaves = [
        one_of::<_, _, RichText>("0123456789").map(amount),
        one_of("+").map(amount),
        one_of("*").map(amount),
        one_of("(").map(amount),
        one_of(")").map(amount),
    ];
    let actions = Leaves {
        leaves: &leaves,
        values: Simply(Amounts),
    };
    match close_founded(&rules, start, &actions, text.len()) {
        Ok(grammar) => grammar
            .map(|amount: Amount| amount.added)
            .parse(alloc, text)
            .map_err(Refused::Running),
        Err(error) => Err(Refused::Closing(error)),
    }
}
