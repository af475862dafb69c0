//! A number in quotes, where a text in quotes is one token.
ghost use Rattle.std.specs.Prelude.{◌≡◌, refl};
ghost use Rattle.chumsky.specs.Accepted.{Exactly, NeverRefuses};
ghost use Rattle.exact.specs.Quoted.{IsQuotedNumber};

use chumsky::Stop;
use chumsky::combinator::{Picker, WordPicker};
use chumsky::extra::ParserExtra;
use chumsky::prelude::*;
use chumsky::primitive::Any;
use chumsky::util::SameClone;
use chumsky_exact::make::nested;
use std::alloc::Global;

/// A token of an attribute, as `width="42"`.
#[derive(Clone, Copy, Debug, PartialEq, Drop)]
pub enum Token<'a> {
    Name(&'a str),
    Equals,
    /// A text in quotes, without these.
    Quoted(&'a str),
}

/// All of a token counts.
impl<'a> SameClone for Token<'a> {
    ghost use Rattle.exact.specs.declared.quoted.Token.{Token};

    ghost Seen = { Token };

    ghost seen = { λ token. token };

    ghost same = { ⟦<Token<'a> as PartialEq>⟧.eq };

    ghost clone_same = { λ x y e. e };

    ghost eq_same = { λ x y. refl };
}

/// Picks the text of a token in quotes.
#[derive(Clone, Copy, Drop)]
pub struct ToQuoted;

impl<'a> Picker<Token<'a>, &'a str> for ToQuoted {
    ghost use Rattle.exact.specs.Quoted.{quoted_text};

    ghost gives = { λ _ token text. text ≡ quoted_text token };

    fn pick(&self, token: Token<'a>) -> Option<&'a str> {
        match token {
            Token::Quoted(text) => Some(text),
            _ => None,
        }
    }
}

impl<'src, E: ParserExtra<&'src [Token<'src>]>> WordPicker<
    'src,
    &'src [Token<'src>],
    Token<'src>,
    &'src str,
    E,
    Any<&'src [Token<'src>], E>,
> for ToQuoted {
    ghost use Rattle.exact.specs.Quoted.{quoted_word};
    ghost use Rattle.exact.specs.QuotedLaws.{quoted-by_word};

    ghost picks = { λ _. quoted_word };

    ghost by_word = { λ f p w v x s g. quoted-by_word w v x s g };
}

/// The number that stands in a token in quotes, as 42 in `"42"`, where that is the only token. Of any other tokens there is no
/// output; and a run over such a token is never refused.
pub fn parse_quoted_number<'a>(
    alloc: Global,
    tokens: &'a [Token<'a>],
) -> Result<ParseResult<u32, EmptyErr>, Stop>
    ensures exact { Exactly IsQuotedNumber tokens.now result }
    ensures answered { NeverRefuses IsQuotedNumber tokens.now result }
{
    let number = text::int::<&str, extra::Err<EmptyErr>>(10).pick_by(text::decimal::<u32>());
    let quoted = any::<&[Token], extra::Err<EmptyErr>>().pick_by(ToQuoted);
    nested(number, quoted).parse(alloc, tokens)
}
