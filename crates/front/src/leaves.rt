//! What the grammar takes of the tokens, one at a time.
use crate::syntax::Expression;
use crate::token::Token;
use chumsky::PResult;
use chumsky::combinator::{Part, run_part};
use chumsky::extra::RichTokens;
use chumsky::input::InputRef;
use chumsky::prelude::*;
use chumsky::primitive::Select;
use std::alloc::AllocError;

/// The tokens of a text, as an input.
pub type Tokens<'src> = SpannedTokens<'src, Token>;

/// Errors that say what was expected and found among them.
pub type Extra = RichTokens<Token>;

/// A run over them.
pub type Run<'src, 'run> = InputRef<'src, 'run, Tokens<'src>, Extra>;

/// How deep the tree of an expression may be. A tree is dropped and printed by calls that go as deep as it does.
pub const DEEPEST: usize = 120;

/// An expression, and how deep its tree is: 1 where it has no parts, else one more than its deepest part. What would be deeper than
/// `DEEPEST` is not made: its parts are dropped, and in its place is what is wrong, which counts as one deeper than `DEEPEST`, and so
/// does all that has it as a part.
#[derive(Drop)]
pub struct Measured {
    pub expression: Expression,
    pub depth: usize,
}

/// An expression with its depth, unless the memory for it was refused.
pub type Tree = Result<Measured, AllocError>;

/// A number, a name or a quotation.
#[derive(Clone, Copy)]
pub struct Operand;

impl<'src> IsParser<Tokens<'src>, Tree, Extra> for Operand {}

impl<'src> Part<'src, Tokens<'src>, Tree, Extra> for Operand {
    fn run(&self, wanted: bool, inp: &mut Run<'src, '_>) -> PResult<Option<Tree>> {
        let operand: Select<_, Tokens<'src>, Tree, Extra> = select! {
            Token::Number(number) = extra => number_at(number, extra.span()),
            Token::Name = extra => name_at(extra.span()),
            Token::Text = extra => text_at(extra.span()),
        };
        run_part(&operand.labelled("an expression"), wanted, inp)
    }
}

/// A name that is bound: where it stands.
#[derive(Clone, Copy)]
pub struct Name;

impl<'src> IsParser<Tokens<'src>, SimpleSpan, Extra> for Name {}

impl<'src> Part<'src, Tokens<'src>, SimpleSpan, Extra> for Name {
    fn run(&self, wanted: bool, inp: &mut Run<'src, '_>) -> PResult<Option<SimpleSpan>> {
        let name: Select<_, Tokens<'src>, SimpleSpan, Extra> = select! {
            Token::Name = extra => extra.span(),
        };
        run_part(&name.labelled("a name"), wanted, inp)
    }
}

/// A sign, and where it stands.
#[derive(Clone, Copy)]
pub enum Sign {
    /// One that says no more than that it is there.
    Mark(char),
    /// One that an expression begins with.
    Opening(char),
    /// The bracket that arguments begin with.
    Arguments,
}

impl<'src> IsParser<Tokens<'src>, SimpleSpan, Extra> for Sign {}

impl<'src> Part<'src, Tokens<'src>, SimpleSpan, Extra> for Sign {
    fn run(&self, wanted: bool, inp: &mut Run<'src, '_>) -> PResult<Option<SimpleSpan>> {
        match *self {
            Sign::Mark(sign) => {
                let mark = just(Token::Sign(sign)).map_with(|_, extra| extra.span());
                run_part(&mark, wanted, inp)
            }
            Sign::Opening(sign) => {
                let mark = just(Token::Sign(sign)).map_with(|_, extra| extra.span());
                run_part(&mark.labelled("an expression"), wanted, inp)
            }
            Sign::Arguments => {
                let mark = just(Token::Sign('(')).map_with(|_, extra| extra.span());
                run_part(&mark.labelled("an operator"), wanted, inp)
            }
        }
    }
}

/// A sign between two operands.
#[derive(Clone, Copy)]
pub struct Between(pub char, pub char);

impl<'src> IsParser<Tokens<'src>, char, Extra> for Between {}

impl<'src> Part<'src, Tokens<'src>, char, Extra> for Between {
    fn run(&self, wanted: bool, inp: &mut Run<'src, '_>) -> PResult<Option<char>> {
        let signs = one_of([Token::Sign(self.0), Token::Sign(self.1)]);
        run_part(&signs.map(sign_of).labelled("an operator"), wanted, inp)
    }
}

/// What an item ends before: a `;`, a `}` or the end of input.
#[derive(Clone, Copy)]
pub struct ItemEnd;

impl<'src> IsParser<Tokens<'src>, (), Extra> for ItemEnd {}

impl<'src> Part<'src, Tokens<'src>, (), Extra> for ItemEnd {
    fn run(&self, wanted: bool, inp: &mut Run<'src, '_>) -> PResult<Option<()>> {
        let sign = one_of([Token::Sign(';'), Token::Sign('}')]).ignored();
        run_part(&sign.or(end()).rewind(), wanted, inp)
    }
}

/// An item that is wrong: one token or more, up to where an item ends.
#[derive(Clone, Copy)]
pub struct WrongItem;

impl<'src> IsParser<Tokens<'src>, Tree, Extra> for WrongItem {}

impl<'src> Part<'src, Tokens<'src>, Tree, Extra> for WrongItem {
    fn run(&self, wanted: bool, inp: &mut Run<'src, '_>) -> PResult<Option<Tree>> {
        let skipped = none_of([Token::Sign(';'), Token::Sign('}')])
            .repeated()
            .at_least(1)
            .map_with(|_, extra| wrong_at(extra.span()));
        run_part(&skipped, wanted, inp)
    }
}

/// The sign that a token is.
fn sign_of(token: Token) -> char {
    match token {
        Token::Sign(sign) => sign,
        _ => ' ',
    }
}

/// An expression without parts.
fn bare(expression: Expression) -> Tree {
    Ok(Measured {
        expression,
        depth: 1,
    })
}

fn number_at(number: u64, span: SimpleSpan) -> Tree {
    bare(Expression::Number(number, span))
}

fn name_at(span: SimpleSpan) -> Tree {
    bare(Expression::Name(span))
}

fn text_at(span: SimpleSpan) -> Tree {
    bare(Expression::Text(span))
}

/// An item that is wrong.
pub fn wrong_at(span: SimpleSpan) -> Tree {
    bare(Expression::Wrong(span))
}
