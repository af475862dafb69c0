//! An extra of one's own.
use chumsky::prelude::*;

pub struct Plain;

impl<'src> extra::ParserExtra<&'src str> for Plain {
    type Error = EmptyErr;

    type State = ();

    type Context = ();
}
