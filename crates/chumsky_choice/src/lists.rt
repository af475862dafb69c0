//! Choice among the parsers of a slice, a `Vec` or an array.
ghost use Rattle.chumsky_parser.specs.ByParts.{OutOnlyByEach};
ghost use Rattle.std.specs.Prelude.{map};
ghost use Rattle.std.specs.List.{All};
ghost use Rattle.chumsky_choice.specs.Among.{SameByAny};

use crate::among::{check_among, emit_among};
use crate::choice::Choice;
use chumsky_input::extra::ParserExtra;
use chumsky_input::input::Input;
use chumsky_input::input_ref::InputRef;
use chumsky_input::stop::PResult;
use chumsky_parser::parser::{IsParser, Parser};

impl<I, O, E, A: IsParser<I, O, E>> IsParser<I, O, E> for Choice<&[A]> {}

impl<'src, I: Input<'src>, O, E: ParserExtra<I>, A: Parser<'src, I, O, E>> Parser<'src, I, O, E>
    for Choice<&[A]> {
    ghost use Rattle.std.specs.Prelude.{map, All};
    ghost use Rattle.chumsky_choice.specs.Among.{SameByAny};
    ghost use Rattle.chumsky_choice.specs.Alternatives.{DoesAmong};
    ghost use Rattle.chumsky_choice.specs.ChoiceLanguages.{among_language, among-accepts};
    ghost use Rattle.chumsky_choice.specs.AmongLaws.{first_among-ends, first_among-agrees};

    ghost ready = { λ p. All A.ready p.parsers.now };

    ghost meaning = { λ p. DoesAmong I.Input A.meaning p.parsers.now };

    ghost steady = { λ p. All A.steady p.parsers.now };

    ghost same = { λ p. SameByAny (map A.same p.parsers.now) };

    ghost language = { λ p. among_language A.language p.parsers.now };

    ghost ends_after_start = { λ p. first_among-ends _ _ _ _ A.ends_after_start p.parsers.now };

    ghost agrees = { λ p s. first_among-agrees _ _ _ _ A.steady A.same A.agrees p.parsers.now s };

    ghost accepts = { λ p. among-accepts _ _ _ _ A.language A.accepts p.parsers.now };

    #[inline]
    fn go_emit(&self, inp: &mut InputRef<'src, '_, I, E>) -> PResult<O> {
        emit_among(self.parsers, inp)
    }

    #[inline]
    fn go_check(&self, inp: &mut InputRef<'src, '_, I, E>) -> PResult<()> {
        check_among(self.parsers, inp)
    }
}

impl<I, O, E, A: IsParser<I, O, E>> IsParser<I, O, E> for Choice<Vec<A>> {}

impl<'src, I: Input<'src>, O, E: ParserExtra<I>, A: Parser<'src, I, O, E>> Parser<'src, I, O, E>
    for Choice<Vec<A>> {
    ghost use Rattle.std.specs.Prelude.{map, All};
    ghost use Rattle.chumsky_choice.specs.Among.{SameByAny};
    ghost use Rattle.chumsky_choice.specs.Alternatives.{DoesAmong};
    ghost use Rattle.chumsky_choice.specs.ChoiceLanguages.{among_language, among-accepts};
    ghost use Rattle.chumsky_choice.specs.AmongLaws.{first_among-ends, first_among-agrees};

    ghost ready = { λ p. All A.ready p.parsers.items };

    ghost meaning = { λ p. DoesAmong I.Input A.meaning p.parsers.items };

    ghost steady = { λ p. All A.steady p.parsers.items };

    ghost same = { λ p. SameByAny (map A.same p.parsers.items) };

    ghost language = { λ p. among_language A.language p.parsers.items };

    ghost ends_after_start = { λ p. first_among-ends _ _ _ _ A.ends_after_start p.parsers.items };

    ghost agrees = { λ p s. first_among-agrees _ _ _ _ A.steady A.same A.agrees p.parsers.items s };

    ghost accepts = { λ p. among-accepts _ _ _ _ A.language A.accepts p.parsers.items };

    #[inline]
    fn go_emit(&self, inp: &mut InputRef<'src, '_, I, E>) -> PResult<O> {
        emit_among(self.parsers.as_slice(), inp)
    }

    #[inline]
    fn go_check(&self, inp: &mut InputRef<'src, '_, I, E>) -> PResult<()> {
        check_among(self.parsers.as_slice(), inp)
    }
}

impl<I, O, E, A: IsParser<I, O, E>, const N: usize> IsParser<I, O, E> for Choice<[A; N]> {}

impl<'src, I: Input<'src>, O, E: ParserExtra<I>, A: Parser<'src, I, O, E>, const N: usize> Parser<
    'src,
    I,
    O,
    E,
> for Choice<[A; N]> {
    ghost use Rattle.std.specs.Prelude.{map, All};
    ghost use Rattle.chumsky_choice.specs.Among.{SameByAny};
    ghost use Rattle.chumsky_choice.specs.Alternatives.{DoesAmong};
    ghost use Rattle.chumsky_choice.specs.ChoiceLanguages.{among_language, among-accepts};
    ghost use Rattle.chumsky_choice.specs.AmongLaws.{first_among-ends, first_among-agrees};

    ghost ready = { λ p. All A.ready p.parsers };

    ghost meaning = { λ p. DoesAmong I.Input A.meaning p.parsers };

    ghost steady = { λ p. All A.steady p.parsers };

    ghost same = { λ p. SameByAny (map A.same p.parsers) };

    ghost language = { λ p. among_language A.language p.parsers };

    ghost ends_after_start = { λ p. first_among-ends _ _ _ _ A.ends_after_start p.parsers };

    ghost agrees = { λ p s. first_among-agrees _ _ _ _ A.steady A.same A.agrees p.parsers s };

    ghost accepts = { λ p. among-accepts _ _ _ _ A.language A.accepts p.parsers };

    #[inline]
    fn go_emit(&self, inp: &mut InputRef<'src, '_, I, E>) -> PResult<O> {
        emit_among(&self.parsers, inp)
    }

    #[inline]
    fn go_check(&self, inp: &mut InputRef<'src, '_, I, E>) -> PResult<()> {
        check_among(&self.parsers, inp)
    }
}

/// Never refused for memory where no part is: `choice` of the parsers of a slice, a `Vec` and an array, under a state whose
/// mark and whose going back take no memory, and errors that take none: a choice of no parsers builds one.
pub fn choice_of_a_list_is_never_out_of_memory<
    'src,
    'p,
    I: Input<'src>,
    O,
    E: ParserExtra<I>,
    A: Parser<'src, I, O, E>,
    const N: usize,
>(slice: &Choice<&'p [A]>, vec: &Choice<Vec<A>>, array: &Choice<[A; N]>)
    ensures slice { E.Error.takes_no_memory → E.State.takes_no_memory → OutOnlyByEach E.Error.Error E.State.Inspector
        A.meaning slice.now.parsers.now
        (⟦<Choice<&'p [A]> as Parser<'src, I, O, E>>⟧.meaning slice.now) }
    ensures vec { E.Error.takes_no_memory → E.State.takes_no_memory → OutOnlyByEach E.Error.Error E.State.Inspector
        A.meaning vec.now.parsers.items
        (⟦<Choice<Vec<A>> as Parser<'src, I, O, E>>⟧.meaning vec.now) }
    ensures array { E.Error.takes_no_memory → E.State.takes_no_memory → OutOnlyByEach E.Error.Error E.State.Inspector
        A.meaning array.now.parsers
        (⟦<Choice<[A; N]> as Parser<'src, I, O, E>>⟧.meaning array.now) }
{}

/// When it is ready and steady, and which outputs are the same: a choice among the parsers of a slice, a `Vec` or an array.
pub fn choice_of_a_list_is_steady<
    'src,
    'p,
    I: Input<'src>,
    O,
    E: ParserExtra<I>,
    A: Parser<'src, I, O, E>,
    const N: usize,
>(slice: &Choice<&'p [A]>, vec: &Choice<Vec<A>>, array: &Choice<[A; N]>)
    ensures ready_slice { All A.ready slice.now.parsers.now → ⟦<Choice<&'p [A]> as Parser<'src, I, O, E>>⟧.ready slice.now }
    ensures ready_vec { All A.ready vec.now.parsers.items → ⟦<Choice<Vec<A>> as Parser<'src, I, O, E>>⟧.ready vec.now }
    ensures ready_array { All A.ready array.now.parsers → ⟦<Choice<[A; N]> as Parser<'src, I, O, E>>⟧.ready array.now }
    ensures slice { All A.steady slice.now.parsers.now → ⟦<Choice<&'p [A]> as Parser<'src, I, O, E>>⟧.steady slice.now }
    ensures vec { All A.steady vec.now.parsers.items → ⟦<Choice<Vec<A>> as Parser<'src, I, O, E>>⟧.steady vec.now }
    ensures array { All A.steady array.now.parsers → ⟦<Choice<[A; N]> as Parser<'src, I, O, E>>⟧.steady array.now }
    ensures same_slice { (x y : O) → ⟦<Choice<&'p [A]> as Parser<'src, I, O, E>>⟧.same slice.now x y → SameByAny (map A.same slice.now.parsers.now) x y }
    ensures same_vec { (x y : O) → ⟦<Choice<Vec<A>> as Parser<'src, I, O, E>>⟧.same vec.now x y → SameByAny (map A.same vec.now.parsers.items) x y }
    ensures same_array { (x y : O) → ⟦<Choice<[A; N]> as Parser<'src, I, O, E>>⟧.same array.now x y → SameByAny (map A.same array.now.parsers) x y }
{}
