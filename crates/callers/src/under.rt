//! Callers of builders of contexts, states and items.
use chumsky::Stop;
use chumsky::combinator::RepeatedCfg;
use chumsky::extra::RichText;
use chumsky::inspector::SimpleState;
use chumsky::prelude::*;
use chumsky::primitive::map_ctx;
use std::alloc::Global;

type Answer<T> = Result<ParseResult<T, Rich<char>>, Stop>;

/// Errors of a text, under a context.
type Under<C> = extra::Full<Rich<char>, (), C>;

/// A digit and a letter, and then an `x` as often as the digit says.
pub fn by_the_first(alloc: Global, text: &str) -> Answer<usize> {
    let digit = one_of::<_, _, RichText>('0'..='9').map(|digit: char| digit as usize % 16);
    let all = just::<_, _, Under<usize>>('x')
        .repeated()
        .configure(|config, times: &usize| config.exactly(*times))
        .count();
    digit
        .then(any())
        .ignore_with_ctx(map_ctx(|pair: &(usize, char)| pair.0, all))
        .parse(alloc, text)
}

/// A digit, and then an `x` so often; a digit above 3 is refused before the first.
pub fn at_most_three(alloc: Global, text: &str) -> Answer<usize> {
    let digit = one_of::<_, _, RichText>('0'..='9').map(|digit: char| digit as usize % 16);
    let all = just('x').repeated().try_configure(
        move |config: RepeatedCfg, times: &usize, span: SimpleSpan| {
            if *times > 3 {
                Err(Rich::custom(span, String::new(alloc)))
            } else {
                Ok(config.exactly(*times))
            }
        },
    );
    digit.ignore_with_ctx(all.count()).parse(alloc, text)
}

type Counting = extra::Full<Rich<char>, SimpleState<u8>, ()>;

/// The state that a part sees: its own, and not that of the run.
pub fn counted_apart(alloc: Global, text: &str) -> Answer<u8> {
    let count = any::<&str, Counting>().map_with(|_, extra| extra.state().0);
    let apart = count.with_state(SimpleState(1));
    let mut state = SimpleState(0);
    empty::<_, Counting>()
        .ignore_then(apart)
        .parse_with_state(alloc, text, &mut state)
}

/// An answer without output, and the state that the run leaves to its caller.
pub fn checked(alloc: Global, text: &str) -> (Answer<()>, u8) {
    let mut state = SimpleState(7);
    let parser = any::<&str, Counting>().repeated();
    let answer = parser.check_with_state(alloc, text, &mut state);
    (answer, state.0)
}

/// Whether each digit is above 4.
pub fn above_four(alloc: Global, text: &str) -> Answer<Vec<bool>> {
    one_of::<_, _, RichText>('0'..='9')
        .repeated()
        .map_items(|digit| digit > '4')
        .collect::<Vec<_>>()
        .parse(alloc, text)
}
