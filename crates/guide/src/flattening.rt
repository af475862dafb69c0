//! Items out of collections.
use chumsky::Stop;
use chumsky::extra::RichText;
use chumsky::prelude::*;
use std::alloc::Global;

/// The letters of words with commas between, as one text: of `ab,,c` it is `abc`.
pub fn all_letters(alloc: Global, text: &str) -> Result<ParseResult<String, Rich<char>>, Stop> {
    let word = one_of::<_, _, RichText>('a'..='z')
        .repeated()
        .collect::<Vec<char>>();
    let letters = word.separated_by(just(',')).flatten();
    letters.collect::<String>().parse(alloc, text)
}

/// A sign without its dash: of `AB-123` it is `AB123`.
pub fn number_plate(alloc: Global, text: &str) -> Result<ParseResult<String, Rich<char>>, Stop> {
    let letters = one_of::<_, _, RichText>('A'..='Z')
        .repeated()
        .collect::<Vec<char>>();
    let before_dash = letters.then_ignore(just('-')).into_iter();
    let digits = one_of('0'..='9').repeated().at_least(1);
    before_dash
        .then_items(digits)
        .collect::<String>()
        .parse(alloc, text)
}
