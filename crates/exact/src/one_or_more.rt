//! Items with a separator between each two, of which each may be empty.
ghost use Rattle.std.specs.Prelude.{◌≡◌, ◌∷◌, None, IfOk};

use chumsky::combinator::{Collect, IgnoreThen, Repeated, Then};
use chumsky::extra::EmptyText;
use chumsky::input::TextRef;
use chumsky::{IsParser, PResult};
use chumsky_parser::parser::Parser;
use std::alloc::AllocError;
use std::marker::PhantomData;

/// One item, and then any number of them, each after a separator. `separated_by` wants items that take a token wherever they
/// succeed; here it is enough that each separator does.
#[derive(Drop)]
pub struct OneOrMore<P, S, O, U> {
    pub item: P,
    pub separator: S,
    pub of: PhantomData<(O, U)>,
}

/// The parser of an item and of those behind it.
pub type FirstAndRest<'src, P, S, O, U> = Then<
    P,
    Collect<Repeated<IgnoreThen<S, P, U>, O, &'src str, EmptyText>, O, Vec<O>>,
    O,
    Vec<O>,
>;

/// The parser of an item and of those behind it.
fn first_and_rest<'src, P: Copy, S, O, U>(item: P, separator: S) -> FirstAndRest<'src, P, S, O, U>
    ensures first { result.first ≡ item }
    ensures separator { result.second.parser.parser.first ≡ separator }
    ensures item { result.second.parser.parser.second ≡ item }
    ensures at_least { result.second.parser.at_least ≡ 0 }
    ensures at_most { result.second.parser.at_most ≡ None }
{
    let led = IgnoreThen {
        first: separator,
        second: item,
        of: PhantomData,
    };
    let rest = Repeated {
        parser: led,
        at_least: 0,
        at_most: None,
        of: PhantomData,
    };
    Then {
        first: item,
        second: Collect {
            parser: rest,
            of: PhantomData,
        },
        of: PhantomData,
    }
}

/// A list with one more item at its front.
fn with_first<O: Drop>(first: O, mut rest: Vec<O>) -> Result<Vec<O>, AllocError>
    ensures { IfOk result (λ list. list.items ≡ first ∷ rest.items) }
{
    match rest.insert(0, first) {
        Ok(()) => Ok(rest),
        Err(_) => Err(AllocError),
    }
}

impl<'src, P, S, O, U> IsParser<&'src str, Vec<O>, EmptyText> for OneOrMore<P, S, O, U> {}

impl<
    'src,
    O: Drop,
    U,
    P: Parser<'src, &'src str, O, EmptyText>,
    S: Parser<'src, &'src str, U, EmptyText>,
> Parser<'src, &'src str, Vec<O>, EmptyText> for OneOrMore<P, S, O, U> {
    ghost use Rattle.std.specs.Prelude.{◌≡◌, ◌∷◌, None, ⊤};
    ghost use Rattle.chumsky_parser.specs.IgnoringLaws.{ignoring_first-ends};
    ghost use Rattle.chumsky_parser.specs.Laws.{sequence-ends};
    ghost use Rattle.chumsky_parser.specs.SequenceLanguage.{then-accepts, ignore_then-accepts};
    ghost use Rattle.chumsky_items.specs.ConsumersLaws.{collects-ends};
    ghost use Rattle.chumsky_items.specs.ListLanguage.{collects-accepts};
    ghost use Rattle.chumsky_items.specs.RepeatingLaws.{repeats-end};
    ghost use Rattle.chumsky_items.specs.RepeatedLanguage.{repeated-accepts};
    ghost use Rattle.exact.specs.Owned.{Owns, owned_language, owns-ends, owned-accepts};

    ghost ready = { λ p. P.ready p.item × S.ready p.separator };

    ghost meaning = { λ p errors states. Owns (λ parts list. list.items ≡ parts.0 ∷ parts.1.items) (⟦<FirstAndRest<'src, P, S, O, U> as Parser<'src, &'src str, (O, Vec<O>), EmptyText>>⟧.meaning (record {
      first = p.item;
      second = record { parser = record { parser = record { first = p.separator; second = p.item; of = record {} }; at_least = 0; at_most = None; of = record {} }; of = record {} };
      of = record {};
    }) errors states) };

    ghost steady = { λ _. ⊥ };

    ghost same = { λ _ _ _. ⊤ };

    ghost language = { λ p. owned_language (λ parts list. list.items ≡ parts.0 ∷ parts.1.items) (⟦<FirstAndRest<'src, P, S, O, U> as Parser<'src, &'src str, (O, Vec<O>), EmptyText>>⟧.language (record {
      first = p.item;
      second = record { parser = record { parser = record { first = p.separator; second = p.item; of = record {} }; at_least = 0; at_most = None; of = record {} }; of = record {} };
      of = record {};
    })) };

    ghost ends_after_start = { λ p. owns-ends _ _ (sequence-ends _ _ (P.ends_after_start p.item)
        (collects-ends _ _ _ _ (repeats-end _ _ _ _ _ _ _ (ignoring_first-ends _ _ (S.ends_after_start p.separator) (P.ends_after_start p.item))))) };

    ghost agrees = { λ _ never. absurd never };

    ghost accepts = { λ p. owned-accepts _ _ (then-accepts _ _ (P.ends_after_start p.item)
        (collects-ends _ _ _ _ (repeats-end _ _ _ _ _ _ _ (ignoring_first-ends _ _ (S.ends_after_start p.separator) (P.ends_after_start p.item))))
        (P.accepts p.item)
        (collects-accepts _ _ _ _ _ (repeated-accepts _ _ _ _ _ _ _ _ (ignoring_first-ends _ _ (S.ends_after_start p.separator) (P.ends_after_start p.item))
        (ignore_then-accepts _ _ (S.ends_after_start p.separator) (P.ends_after_start p.item) (S.accepts p.separator) (P.accepts p.item))))) };

    fn go_emit(&self, inp: &mut TextRef<'src, '_, EmptyText>) -> PResult<Vec<O>> {
        let parts = first_and_rest(&self.item, &self.separator).go_emit(inp)?;
        let list = with_first(parts.0, parts.1)?;
        Ok(list)
    }

    fn go_check(&self, inp: &mut TextRef<'src, '_, EmptyText>) -> PResult<()> {
        first_and_rest(&self.item, &self.separator).go_check(inp)
    }
}
