//! Sets of a list of parsers.
use crate::each::{Each, no_slots};
use crate::mode::{ForValue, WithoutValue};
use crate::rounds::in_any_order;
use crate::set::Set;
use chumsky_input::extra::ParserExtra;
use chumsky_input::input::Input;
use chumsky_input::input_ref::InputRef;
use chumsky_input::stop::PResult;
use chumsky_parser::parser::{IsParser, Parser};

impl<I, O, E, P: IsParser<I, O, E>> IsParser<I, Vec<O>, E> for Set<Vec<P>> {}

impl<'src, I: Input<'src>, O: Drop, E: ParserExtra<I>, P: Parser<'src, I, O, E>> Parser<
    'src,
    I,
    Vec<O>,
    E,
> for Set<Vec<P>> {
    ghost use Rattle.std.specs.List.{All};
    ghost use Rattle.chumsky_set.specs.Doing.{DoesSetEach};
    ghost use Rattle.chumsky_set.specs.Lists.{Each};
    ghost use Rattle.chumsky_set.specs.ListsLaws.{set_each-ends, set_each-agrees};
    ghost use Rattle.chumsky_set.specs.SetLanguage.{set_language};
    ghost use Rattle.chumsky_set.specs.SetEach.{asking_memory, each_language, set_each-accepts};

    ghost ready = { λ p. All P.ready p.parsers.items };

    ghost meaning = { λ p. DoesSetEach P.meaning (λ v. v.items) p.parsers.items };

    ghost steady = { λ p. All P.steady p.parsers.items };

    ghost same = { λ p v w. Each P.same p.parsers.items v.items w.items };

    ghost language = { λ p. asking_memory (set_language (λ v. v.items) (each_language P.language p.parsers.items)) };

    ghost ends_after_start = { λ p. set_each-ends _ _ _ _ _ p.parsers.items (λ x. P.ends_after_start x) };

    ghost agrees = { λ p s. set_each-agrees _ _ _ _ _ p.parsers.items P.steady P.same (λ x k. P.agrees x k) s };

    ghost accepts = { λ p. set_each-accepts _ _ (λ v. v.items) (λ q. q.1) (λ x. P.accepts x) p.parsers.items };

    #[inline]
    fn go_emit(&self, inp: &mut InputRef<'src, '_, I, E>) -> PResult<Vec<O>> {
        let parts = self.parsers.as_slice();
        let slots = no_slots(inp.alloc(), parts.len())?;
        let row = Each {
            mode: ForValue,
            parts,
        };
        in_any_order(&row, slots, inp)
    }

    #[inline]
    fn go_check(&self, inp: &mut InputRef<'src, '_, I, E>) -> PResult<()> {
        let parts = self.parsers.as_slice();
        let slots = no_slots(inp.alloc(), parts.len())?;
        let row = Each {
            mode: WithoutValue,
            parts,
        };
        in_any_order(&row, slots, inp)
    }
}
