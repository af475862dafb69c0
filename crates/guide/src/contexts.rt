//! What was read says what follows: a context, a state that goes back, an input within an input.
use chumsky::extra::RichBytes;
use chumsky::input::TextRef;
use chumsky::inspector::TruncateState;
use chumsky::prelude::*;
use chumsky::primitive::Reader;
use chumsky::{Failure, Stop};
use std::alloc::{AllocError, Global};

/// A byte that says how many bytes follow, and these.
pub fn prefixed(alloc: Global, bytes: &[u8]) -> Result<ParseResult<&[u8], Rich<u8>>, Stop> {
    let length = any::<&[u8], RichBytes>().map(|length| length as usize);
    let content = any()
        .repeated()
        .configure(|config, length| config.exactly(*length));
    length
        .ignore_with_ctx(content.to_slice())
        .parse(alloc, bytes)
}

/// Errors of a text, and the names that it declares so far.
type Declaring = extra::Full<Rich<char>, TruncateState<char>, ()>;

/// Adds a name.
fn add(names: &mut Vec<char>, name: char) -> Result<(), AllocError> {
    names.push(name)?;
    Ok(())
}

/// Reads a name, and adds it to those that are declared. Where there is no memory for it, the run is refused.
#[derive(Clone, Copy)]
pub struct Name;

impl<'src> Reader<'src, &'src str, (), Declaring> for Name {
    fn read(&self, inp: &mut TextRef<'src, '_, Declaring>) -> Result<(), Failure<Rich<char>>> {
        let name = inp.parse(any())?;
        add(&mut inp.state().0, name)?;
        Ok(())
    }
}

/// The names that a text declares as far as it can be read, as `a` and `c` in `a;b!c;`. A name is added before what follows it
/// is read.
pub fn declared(alloc: Global, text: &str) -> Result<Vec<char>, Stop> {
    let declaration = custom_by(Name).then_ignore(just(';'));
    let call = any().then_ignore(just('!')).ignored();
    let all = declaration.or(call).repeated();
    let mut names = TruncateState(Vec::new(alloc));
    let _parsed = all.parse_with_state(alloc, text, &mut names)?;
    Ok(names.0)
}

/// The settings that lines hold, as `a=1`. Each line is one token, and a parser of characters runs over it.
pub fn settings<'src>(
    alloc: Global,
    lines: &'src [&'src str],
) -> Result<ParseResult<Vec<(char, char)>, Cheap>, Stop> {
    let setting = any::<&str, extra::Err<Cheap>>()
        .then_ignore(just('='))
        .then(any());
    let line = any::<&[&str], extra::Err<Cheap>>();
    setting
        .nested_in(line)
        .repeated()
        .collect::<Vec<_>>()
        .parse(alloc, lines)
}
