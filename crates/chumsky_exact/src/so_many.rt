//! `SoMany`: a parser that is run as often as the context asks for.
ghost use Rattle.std.specs.Prelude.{◌≡◌, Some};

use crate::context::ParserUnder;
use chumsky_input::extra::ParserExtra;
use chumsky_input::input::Input;
use chumsky_input::input_ref::InputRef;
use chumsky_input::stop::PResult;
use chumsky_items::collect::Collect;
use chumsky_items::container::Container;
use chumsky_items::repeated::Repeated;
use chumsky_parser::parser::{IsParser, Parser};
use std::marker::PhantomData;

/// A context that asks for a number of items: a number itself, or what has one in it, as the head of a packet.
pub trait HowMany {
    ghost use Rattle.std.specs.Prelude.{ℕ};

    /// The number that it asks for.
    ghost number: { Self → ℕ };

    /// How many items it asks for.
    fn how_many(&self) -> usize
        ensures { result ≡ number self.now };
}

impl HowMany for usize {
    ghost number = { λ n. n };

    fn how_many(&self) -> usize {
        *self
    }
}

impl HowMany for u8 {
    ghost number = { λ n. n };

    fn how_many(&self) -> usize {
        *self as usize
    }
}

impl HowMany for u16 {
    ghost number = { λ n. n };

    fn how_many(&self) -> usize {
        *self as usize
    }
}

/// A parser that is run as often as the context asks for, its outputs collected. See `so_many`.
#[derive(Drop)]
#[derive_where(Clone, Copy; P)]
pub struct SoMany<P, O, C> {
    pub item: P,
    pub of: PhantomData<(O, C)>,
}

/// The list of just so many items, collected.
fn just_so_many<P, O, I, E, C>(item: P, count: usize) -> Collect<Repeated<P, O, I, E>, O, C>
    ensures item { result.parser.parser ≡ item }
    ensures at_least { result.parser.at_least ≡ count }
    ensures at_most { result.parser.at_most ≡ Some count }
{
    Collect {
        parser: Repeated {
            parser: item,
            at_least: count,
            at_most: Some(count),
            of: PhantomData,
        },
        of: PhantomData,
    }
}

impl<I, O, E, P: IsParser<I, O, E>, C> IsParser<I, C, E> for SoMany<P, O, C> {}

impl<'src, I, O, E, P, C> Parser<'src, I, C, E> for SoMany<P, O, C>
where
    I: Input<'src>,
    O: Drop,
    E: ParserExtra<I>,
    E::Context: HowMany,
    P: Parser<'src, I, O, E>,
    C: Container<O> + Drop,
{
    ghost use Rattle.std.specs.Prelude.{false, Some};
    ghost use Rattle.chumsky_parser.specs.FailureLaws.{SameCount};
    ghost use Rattle.chumsky_parser.specs.Language.{of_unsaid};
    ghost use Rattle.chumsky_items.specs.Consumers.{SameContents};
    ghost use Rattle.chumsky_items.specs.ConsumersLaws.{collects-ends, collects-agree};
    ghost use Rattle.chumsky_items.specs.RepeatingLaws.{repeats-end, repeats-agree};
    ghost use Rattle.chumsky_context.specs.Configured.{Configured};
    ghost use Rattle.chumsky_context.specs.ConfiguredLaws.{configured-ends};
    ghost use Rattle.chumsky_exact.specs.SoMany.{AsksFor, so_many-agrees};

    ghost ready = { λ p. P.ready p.item };

    ghost meaning = { λ p errors states. Configured (AsksFor E.Context.number) (λ n. ⟦<Collect<Repeated<P, O, I, E>, O, C> as Parser<'src, I, C, E>>⟧.meaning (record {
      parser = record { parser = p.item; at_least = n; at_most = Some n; of = record {} };
      of = record {};
    }) errors states) };

    ghost steady = { λ p. P.steady p.item };

    ghost same = { λ p. SameContents (P.same p.item) C.holds };

    ghost ends_after_start = { λ p. configured-ends _ _ (λ n. collects-ends _ _ C.holds C.takes_no_memory (repeats-end _ _ _ _ false n (Some n) (P.ends_after_start p.item))) };

    ghost agrees = { λ p s. so_many-agrees _ _ _ (λ n. collects-agree _ _ C.holds C.takes_no_memory (P.same p.item) SameCount (repeats-agree _ _ _ _ false n (Some n) (P.same p.item) (P.agrees p.item s))) };

    ghost accepts = { λ _. of_unsaid };

    fn go_emit(&self, inp: &mut InputRef<'src, '_, I, E>) -> PResult<C> {
        let count = inp.ctx().how_many();
        let items: Collect<Repeated<&P, O, I, E>, O, C> = just_so_many(&self.item, count);
        items.go_emit(inp)
    }

    fn go_check(&self, inp: &mut InputRef<'src, '_, I, E>) -> PResult<()> {
        let count = inp.ctx().how_many();
        let items: Collect<Repeated<&P, O, I, E>, O, C> = just_so_many(&self.item, count);
        items.go_check(inp)
    }
}

impl<'src, I, O, E, P, C> ParserUnder<'src, I, C, E> for SoMany<P, O, C>
where
    I: Input<'src>,
    O: Drop,
    E: ParserExtra<I>,
    E::Context: HowMany,
    P: Parser<'src, I, O, E>,
    C: Container<O> + Drop,
{
    ghost use Rattle.std.specs.Prelude.{false, Some};
    ghost use Rattle.chumsky_items.specs.ListLanguage.{collects-accepts};
    ghost use Rattle.chumsky_items.specs.RepeatedLanguage.{repeated_language, repeated-accepts};
    ghost use Rattle.chumsky_exact.specs.SoMany.{so_many_language, so_many-accepts};

    ghost language_under = { λ p. so_many_language E.Context.number (P.language p.item) C.holds C.takes_no_memory };

    ghost accepts_under = { λ p. so_many-accepts E.Context.number _ (P.language p.item) C.holds C.takes_no_memory
        (λ n. collects-accepts _ _ (repeated_language (P.language p.item) n (Some n)) C.holds C.takes_no_memory (repeated-accepts _ _ _ _ false n (Some n) (P.language p.item) (P.ends_after_start p.item) (P.accepts p.item))) };
}
