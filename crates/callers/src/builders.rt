//! A caller of each builder that neither `guide` nor the other files here run.
use arrayvec::ArrayVec;
use chumsky::Stop;
use chumsky::combinator::Mapper;
use chumsky::extra::RichText;
use chumsky::prelude::*;
use std::alloc::Global;

type Answer<T> = Result<ParseResult<T, Rich<char>>, Stop>;

/// Makes a letter a capital, and says nothing of it.
#[derive(Clone, Copy)]
pub struct ToCapital;

impl Mapper<char, char> for ToCapital {
    fn apply(&self, letter: char) -> char {
        letter.to_ascii_uppercase()
    }
}

/// A character, as a capital where it is a letter.
pub fn capital(alloc: Global, text: &str) -> Answer<char> {
    any::<_, RichText>().map_by(ToCapital).parse(alloc, text)
}

/// A character, with an error beside it in any case.
pub fn doubted(alloc: Global, text: &str) -> Answer<char> {
    any::<_, RichText>()
        .validate(|c, extra, emitter| {
            emitter.emit(Rich::custom(extra.span(), String::new(extra.alloc())));
            c
        })
        .parse(alloc, text)
}

/// An `a`; any other character is refused, with its span.
pub fn only_a(alloc: Global, text: &str) -> Answer<char> {
    any::<_, RichText>()
        .try_map(move |c, span| {
            if c == 'a' {
                Ok(c)
            } else {
                Err(Rich::custom(span, String::new(alloc)))
            }
        })
        .parse(alloc, text)
}

/// The same by a closure that is shown the run.
pub fn only_a_shown(alloc: Global, text: &str) -> Answer<char> {
    any::<_, RichText>()
        .try_map_with(|c, extra| {
            if c == 'a' {
                Ok(c)
            } else {
                Err(Rich::custom(extra.span(), String::new(extra.alloc())))
            }
        })
        .parse(alloc, text)
}

/// An `a`, whose error is given back as it is.
pub fn with_its_error(alloc: Global, text: &str) -> Answer<char> {
    just::<_, _, RichText>('a')
        .map_err(|error: Rich<char>| error)
        .parse(alloc, text)
}

/// An `a`, with an error that says nothing in place of its own.
pub fn with_another_error(alloc: Global, text: &str) -> Answer<char> {
    just::<_, _, RichText>('a')
        .map_err_with(|_, extra| Rich::custom(extra.span(), String::new(extra.alloc())))
        .parse(alloc, text)
}

/// The same by a closure that is lent the state.
pub fn with_an_error_of_the_state(alloc: Global, text: &str) -> Answer<char> {
    just::<_, _, RichText>('a')
        .map_err_with_state(move |_, span, _| Rich::custom(span, String::new(alloc)))
        .parse(alloc, text)
}

/// The first character, which is no `x`, of a text.
pub fn first_but_x(alloc: Global, text: &str) -> Answer<char> {
    any::<_, RichText>()
        .and_is(just('x').not())
        .rewind()
        .then_ignore(any())
        .lazy()
        .parse(alloc, text)
}

/// An `a` that is always there where it is said to be.
pub fn surely_a(alloc: Global, text: &str) -> Answer<char> {
    just::<_, _, RichText>('a')
        .map(Some)
        .unwrapped()
        .parse(alloc, text)
}

/// Whether the digits are a `u64`.
pub fn is_u64(alloc: Global, text: &str) -> Answer<bool> {
    one_of::<_, _, RichText>('0'..='9')
        .repeated()
        .collect::<String>()
        .from_str::<u64>()
        .map(|read| read.is_ok())
        .parse(alloc, text)
}

/// Each `a` with its number.
pub fn numbered(alloc: Global, text: &str) -> Answer<Vec<(usize, char)>> {
    just::<_, _, RichText>('a')
        .repeated()
        .enumerate()
        .collect::<Vec<_>>()
        .parse(alloc, text)
}

/// How many characters there are. More than 255 are 255.
pub fn length(alloc: Global, text: &str) -> Answer<u8> {
    any::<_, RichText>()
        .repeated()
        .fold(0u8, |count, _| count.saturating_add(1))
        .parse(alloc, text)
}

/// How often an `a` stands before a `b`. More than 255 are 255.
pub fn count_before_b(alloc: Global, text: &str) -> Answer<u8> {
    just::<_, _, RichText>('a')
        .repeated()
        .foldr(just('b').to(0u8), |_, count| count.saturating_add(1))
        .parse(alloc, text)
}

/// Where the first of the `a`s before a `b` stands.
pub fn start_of_all(alloc: Global, text: &str) -> Answer<usize> {
    just::<_, _, RichText>('a')
        .repeated()
        .foldr_with(just('b').to(9usize), |_, _, extra| extra.span().start)
        .parse(alloc, text)
}

/// An `a` and then each `b`; any other character is refused.
pub fn a_and_bs(alloc: Global, text: &str) -> Answer<char> {
    just::<_, _, RichText>('a')
        .try_foldl(any().repeated(), |first, item, extra| {
            if item == 'b' {
                Ok(first)
            } else {
                Err(Rich::custom(extra.span(), String::new(extra.alloc())))
            }
        })
        .parse(alloc, text)
}

/// Three characters.
pub fn three(alloc: Global, text: &str) -> Answer<ArrayVec<char, 3>> {
    any::<_, RichText>()
        .repeated()
        .collect_exactly::<ArrayVec<char, 3>>()
        .parse(alloc, text)
}

/// How many characters there are between commas, with one before the first or after the last too.
pub fn between_commas(alloc: Global, text: &str) -> Answer<usize> {
    any::<_, RichText>()
        .separated_by(just(','))
        .allow_leading()
        .allow_trailing()
        .count()
        .parse(alloc, text)
}

/// How many letters there are, of the first five at most, asked for one by one. After the fifth the text has to end.
pub fn up_to_five(alloc: Global, text: &str) -> Answer<usize> {
    let letters = one_of::<_, _, RichText>("ab").repeated();
    let mut run = letters.parse_iter(alloc, text);
    let mut count = 0usize;
    for _ in (&mut run).take(5) {
        count = count.saturating_add(1);
    }
    run.finish(count)
}

/// How many letters there are, asked for one by one.
pub fn each_letter(alloc: Global, text: &str) -> Answer<usize> {
    let letters = one_of::<_, _, RichText>("ab").repeated();
    let mut run = letters.parse_iter(alloc, text);
    let mut count = 0usize;
    for _ in &mut run {
        count = count.saturating_add(1);
    }
    run.finish(count)
}
