//! Functions that make operators.
ghost use Rattle.std.specs.Prelude.{◌≡◌};

use crate::fixity::Associativity;
use crate::folder_with::InfixFolderWith;
use crate::folders::{InfixFolder, PostfixFolder, PrefixFolder};
use crate::operator::{Infix, Postfix, Prefix};
use crate::operator_with::{InfixWith, PostfixWith, PrefixWith};
use chumsky_folds::folder_with::{FolderWith, RightFolderWith};
use chumsky_input::extra::ParserExtra;
use chumsky_input::input::Input;
use chumsky_input::map_extra::MapExtra;
use chumsky_parser::parser::IsParser;
use std::marker::PhantomData;

/// An operator before its operand, which is an expression of this power: `prefix(3, just('-'), |_, n| -n)` for `-1`. It is
/// tried wherever an expression begins, whatever its power. Where its operand fails it is gone back from.
#[inline]
pub fn prefix<P, F: Fn(W, O) -> O, O, W>(power: u16, parser: P, folder: F) -> Prefix<P, F, O, W>
    ensures power { result.power ≡ power }
    ensures parser { result.parser ≡ parser }
    ensures folder { result.folder ≡ folder }
{
    prefix_by(power, parser, folder)
}

/// An operator after its operand, of this power: `postfix(4, just('!'), |n, _| factorial(n))` for `3!`. After a value in an operand
/// of a stronger operator it is not tried.
#[inline]
pub fn postfix<P, F: Fn(O, W) -> O, O, W>(power: u16, parser: P, folder: F) -> Postfix<P, F, O, W>
    ensures power { result.power ≡ power }
    ensures parser { result.parser ≡ parser }
    ensures folder { result.folder ≡ folder }
{
    postfix_by(power, parser, folder)
}

/// An operator between its operands, of this associativity and its power: `infix(left(1), just('+'), |a, _, b| a + b)` for
/// `1+2`. Where its right operand fails it is gone back from.
#[inline]
pub fn infix<P, F: Fn(O, W, O) -> O, O, W>(
    associativity: Associativity,
    parser: P,
    folder: F,
) -> Infix<P, F, O, W>
    ensures associativity { result.associativity ≡ associativity }
    ensures parser { result.parser ≡ parser }
    ensures folder { result.folder ≡ folder }
{
    infix_by(associativity, parser, folder)
}

/// As `prefix`, by a value of a type with an impl of `PrefixFolder`: the parser's type can then be written down, and what the
/// folder gives is known where the parser is run.
#[inline]
pub fn prefix_by<P, F: PrefixFolder<O, W>, O, W>(
    power: u16,
    parser: P,
    folder: F,
) -> Prefix<P, F, O, W>
    ensures power { result.power ≡ power }
    ensures parser { result.parser ≡ parser }
    ensures folder { result.folder ≡ folder }
{
    Prefix {
        power,
        parser,
        folder,
        of: PhantomData,
    }
}

/// As `postfix`, by a value of a type with an impl of `PostfixFolder`, likewise: `postfix_by(3, just('!'), Hundreds)`.
#[inline]
pub fn postfix_by<P, F: PostfixFolder<O, W>, O, W>(
    power: u16,
    parser: P,
    folder: F,
) -> Postfix<P, F, O, W>
    ensures power { result.power ≡ power }
    ensures parser { result.parser ≡ parser }
    ensures folder { result.folder ≡ folder }
{
    Postfix {
        power,
        parser,
        folder,
        of: PhantomData,
    }
}

/// As `infix`, by a value of a type with an impl of `InfixFolder`, likewise: `infix_by(left(1), just('+'), Saturating)`.
#[inline]
pub fn infix_by<P, F: InfixFolder<O, W>, O, W>(
    associativity: Associativity,
    parser: P,
    folder: F,
) -> Infix<P, F, O, W>
    ensures associativity { result.associativity ≡ associativity }
    ensures parser { result.parser ≡ parser }
    ensures folder { result.folder ≡ folder }
{
    Infix {
        associativity,
        parser,
        folder,
        of: PhantomData,
    }
}

/// As `prefix`, by a closure that is shown the run too: the span and the slice of the operator and its operand, the state and
/// the context. `prefix_with(3, just('-'), |_, n, extra| Negative(n, extra.span()))`. What it writes to the state stands,
/// unless the run goes back past it; where no output is wanted it is not called.
#[inline]
pub fn prefix_with<'src, I, P, F, O, W, E>(
    power: u16,
    parser: P,
    folder: F,
) -> PrefixWith<P, F, O, W>
where
    I: Input<'src>,
    E: ParserExtra<I>,
    P: IsParser<I, W, E>,
    F: Fn(W, O, &mut MapExtra<'src, '_, I, E>) -> O,
    ensures power { result.power ≡ power }
    ensures parser { result.parser ≡ parser }
    ensures folder { result.folder ≡ folder }
{
    PrefixWith {
        power,
        parser,
        folder,
        of: PhantomData,
    }
}

/// As `postfix`, by a closure that is shown the run too, as that of `prefix_with`, from where the operand began.
#[inline]
pub fn postfix_with<'src, I, P, F, O, W, E>(
    power: u16,
    parser: P,
    folder: F,
) -> PostfixWith<P, F, O, W>
where
    I: Input<'src>,
    E: ParserExtra<I>,
    P: IsParser<I, W, E>,
    F: Fn(O, W, &mut MapExtra<'src, '_, I, E>) -> O,
    ensures power { result.power ≡ power }
    ensures parser { result.parser ≡ parser }
    ensures folder { result.folder ≡ folder }
{
    PostfixWith {
        power,
        parser,
        folder,
        of: PhantomData,
    }
}

/// As `infix`, by a closure that is shown the run too, as that of `prefix_with`, from where the first operand began to where the
/// second ended: `infix_with(left(1), just('+'), |a, _, b, extra| Sum(a, b, extra.span()))`.
#[inline]
pub fn infix_with<'src, I, P, F, O, W, E>(
    associativity: Associativity,
    parser: P,
    folder: F,
) -> InfixWith<P, F, O, W>
where
    I: Input<'src>,
    E: ParserExtra<I>,
    P: IsParser<I, W, E>,
    F: Fn(O, W, O, &mut MapExtra<'src, '_, I, E>) -> O,
    ensures associativity { result.associativity ≡ associativity }
    ensures parser { result.parser ≡ parser }
    ensures folder { result.folder ≡ folder }
{
    InfixWith {
        associativity,
        parser,
        folder,
        of: PhantomData,
    }
}
