//! A parser that is handed in, and one that is built in a function generic in the input and the extra.
use chumsky::Stop;
use chumsky::extra::ParserExtra;
use chumsky::input::ValueInput;
use chumsky::prelude::*;
use std::alloc::Global;

/// What `parse` and `check` give.
pub fn each<
    'src,
    I: Input<'src> + Drop,
    O: Drop,
    E: ParserExtra<I>,
    P: IsParser<I, O, E> + Parser<'src, I, O, E>,
>(
    parser: &P,
    alloc: Global,
    one: I,
    two: I,
) -> Result<(ParseResult<O, E::Error>, ParseResult<(), E::Error>), Stop>
where
    I::Token: 'src,
    E::State: Default + Drop,
    E::Context: Default + Drop,
    requires { P.ready parser.now }
{
    let parsed = parser.parse(alloc, one)?;
    let checked = parser.check(alloc, two)?;
    Ok((parsed, checked))
}

/// Whether the input has just two tokens, of any input and under any extra.
pub fn check_two_tokens<'src, I: ValueInput<'src>, E: ParserExtra<I>>(
    alloc: Global,
    input: I,
) -> Result<ParseResult<(), E::Error>, Stop>
where
    I::Token: 'src,
    E::State: Default + Drop,
    E::Context: Default + Drop,
{
    any::<I, E>().then(any()).check(alloc, input)
}
