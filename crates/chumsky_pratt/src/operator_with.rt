//! Operators whose folders are shown the run.
ghost use Rattle.std.specs.Prelude.{◌≡◌, true, false, ◌<◌};
ghost use Rattle.chumsky_input.specs.Run.{Runs, with_value, without_value};
ghost use Rattle.chumsky_folds.specs.Running.{InTokens, NotPast, OnlyState, AnswersSince};
ghost use Rattle.chumsky_parser.specs.Showing.{OnlyAnswers};
ghost use Rattle.chumsky_pratt.specs.Operators.{GivesPrefixWith, GivesPostfixWith, GivesInfixWith};

use crate::fixity::{Associativity, Fixity};
use crate::folder_with::InfixFolderWith;
use crate::operands::Operands;
use crate::operator::{HasOutput, Operator};
use chumsky_folds::folder_with::{FolderWith, RightFolderWith};
use chumsky_input::extra::ParserExtra;
use chumsky_input::input::Input;
use chumsky_input::input_ref::InputRef;
use chumsky_input::stop::PResult;
use chumsky_parser::parser::Parser;
use std::marker::PhantomData;

/// An operator before its operand, whose folder is shown the run. See `prefix_with`.
#[derive(Drop)]
#[derive_where(Clone, Copy; P, F)]
pub struct PrefixWith<P, F, O, W> {
    pub power: u16,
    pub parser: P,
    pub folder: F,
    pub of: PhantomData<(O, W)>,
}

/// An operator after its operand, whose folder is shown the run. See `postfix_with`.
#[derive(Drop)]
#[derive_where(Clone, Copy; P, F)]
pub struct PostfixWith<P, F, O, W> {
    pub power: u16,
    pub parser: P,
    pub folder: F,
    pub of: PhantomData<(O, W)>,
}

/// An operator between its operands, whose folder is shown the run. See `infix_with`.
#[derive(Drop)]
#[derive_where(Clone, Copy; P, F)]
pub struct InfixWith<P, F, O, W> {
    pub associativity: Associativity,
    pub parser: P,
    pub folder: F,
    pub of: PhantomData<(O, W)>,
}

impl<P, F, O, W: Drop> HasOutput for PrefixWith<P, F, O, W> {
    type Output = W;
}

impl<P, F, O, W: Drop> HasOutput for PostfixWith<P, F, O, W> {
    type Output = W;
}

impl<P, F, O, W: Drop> HasOutput for InfixWith<P, F, O, W> {
    type Output = W;
}

impl<
    'src,
    I: Input<'src>,
    O: Drop,
    W: Drop,
    E: ParserExtra<I>,
    P: Parser<'src, I, W, E>,
    F: RightFolderWith<'src, I, W, O, E>,
> Operator<'src, I, O, E> for PrefixWith<P, F, O, W> {
    ghost use Rattle.chumsky_parser.specs.Showing.{OnlyAnswers};
    ghost use Rattle.chumsky_pratt.specs.Operators.{prefix_fixity, GivesPrefixWith};
    ghost use Rattle.chumsky_pratt.specs.Operating.{shown_language};
    ghost use Rattle.chumsky_pratt.specs.OperatingLaws.{shown-operates};

    ghost ready = { λ p. P.ready p.parser × F.callable p.folder };

    ghost stands = { λ p. prefix_fixity p.power };

    ghost reads = { λ p. P.meaning p.parser };

    ghost gives = { λ p states. GivesPrefixWith (F.gives p.folder states) };

    ghost steady = { λ p. P.steady p.parser × OnlyAnswers (GivesPrefixWith (F.gives p.folder E.State.Inspector)) };

    ghost same = { λ p. P.same p.parser };

    ghost language = { λ p. shown_language (P.language p.parser) (GivesPrefixWith (F.gives p.folder E.State.Inspector)) };

    ghost ends_after_start = { λ p. P.ends_after_start p.parser };

    ghost agrees = { λ p s. P.agrees p.parser s.0 };

    ghost gives_one = { λ p s. s.1 };

    ghost operates = { λ p. shown-operates _ (P.accepts p.parser) };

    #[inline]
    fn fixity(&self) -> Fixity {
        Fixity::Prefix(u32::from(self.power) * 2)
    }

    #[inline]
    fn read_emit(&self, inp: &mut InputRef<'src, '_, I, E>) -> PResult<W> {
        self.parser.go_emit(inp)
    }

    #[inline]
    fn read_check(&self, inp: &mut InputRef<'src, '_, I, E>) -> PResult<()> {
        self.parser.go_check(inp)
    }

    #[inline]
    fn fold(
        &self,
        found: W,
        operands: Operands<O>,
        since: &I::Cursor,
        inp: &mut InputRef<'src, '_, I, E>,
    ) -> O
        requires parser { P.ready self.now.parser }
        requires folder { F.callable self.now.folder }
        requires tokens { InTokens I.Input E.Error.Error E.State.Inspector since.now inp.old }
        requires order { NotPast I.Input E.Error.Error E.State.Inspector since.now inp.old }
        ensures gives { AnswersSince I.Input E.Error.Error E.State.Inspector (GivesPrefixWith (F.gives self.now.folder E.State.Inspector) (found, operands)) since.now inp.old inp.new result }
        ensures moves { OnlyState I.Input E.Error.Error E.State.Inspector inp.old inp.new }
        ensures lent { inp.new.state.ghost_name ≡ inp.old.state.ghost_name }
    {
        match operands {
            Operands::After(operand) => self.folder.step_with(found, operand, since, inp),
            Operands::Before(operand) => operand,
            Operands::Around(operand, _other) => operand,
        }
    }
}

impl<
    'src,
    I: Input<'src>,
    O: Drop,
    W: Drop,
    E: ParserExtra<I>,
    P: Parser<'src, I, W, E>,
    F: FolderWith<'src, I, O, W, E>,
> Operator<'src, I, O, E> for PostfixWith<P, F, O, W> {
    ghost use Rattle.chumsky_parser.specs.Showing.{OnlyAnswers};
    ghost use Rattle.chumsky_pratt.specs.Operators.{postfix_fixity, GivesPostfixWith};
    ghost use Rattle.chumsky_pratt.specs.Operating.{shown_language};
    ghost use Rattle.chumsky_pratt.specs.OperatingLaws.{shown-operates};

    ghost ready = { λ p. P.ready p.parser × F.callable p.folder };

    ghost stands = { λ p. postfix_fixity p.power };

    ghost reads = { λ p. P.meaning p.parser };

    ghost gives = { λ p states. GivesPostfixWith (F.gives p.folder states) };

    ghost steady = { λ p. P.steady p.parser × OnlyAnswers (GivesPostfixWith (F.gives p.folder E.State.Inspector)) };

    ghost same = { λ p. P.same p.parser };

    ghost language = { λ p. shown_language (P.language p.parser) (GivesPostfixWith (F.gives p.folder E.State.Inspector)) };

    ghost ends_after_start = { λ p. P.ends_after_start p.parser };

    ghost agrees = { λ p s. P.agrees p.parser s.0 };

    ghost gives_one = { λ p s. s.1 };

    ghost operates = { λ p. shown-operates _ (P.accepts p.parser) };

    #[inline]
    fn fixity(&self) -> Fixity {
        Fixity::Postfix(u32::from(self.power) * 2)
    }

    #[inline]
    fn read_emit(&self, inp: &mut InputRef<'src, '_, I, E>) -> PResult<W> {
        self.parser.go_emit(inp)
    }

    #[inline]
    fn read_check(&self, inp: &mut InputRef<'src, '_, I, E>) -> PResult<()> {
        self.parser.go_check(inp)
    }

    #[inline]
    fn fold(
        &self,
        found: W,
        operands: Operands<O>,
        since: &I::Cursor,
        inp: &mut InputRef<'src, '_, I, E>,
    ) -> O
        requires parser { P.ready self.now.parser }
        requires folder { F.callable self.now.folder }
        requires tokens { InTokens I.Input E.Error.Error E.State.Inspector since.now inp.old }
        requires order { NotPast I.Input E.Error.Error E.State.Inspector since.now inp.old }
        ensures gives { AnswersSince I.Input E.Error.Error E.State.Inspector (GivesPostfixWith (F.gives self.now.folder E.State.Inspector) (found, operands)) since.now inp.old inp.new result }
        ensures moves { OnlyState I.Input E.Error.Error E.State.Inspector inp.old inp.new }
        ensures lent { inp.new.state.ghost_name ≡ inp.old.state.ghost_name }
    {
        match operands {
            Operands::After(operand) => operand,
            Operands::Before(operand) => self.folder.step_with(operand, found, since, inp),
            Operands::Around(operand, _other) => operand,
        }
    }
}

impl<
    'src,
    I: Input<'src>,
    O: Drop,
    W: Drop,
    E: ParserExtra<I>,
    P: Parser<'src, I, W, E>,
    F: InfixFolderWith<'src, I, O, W, E>,
> Operator<'src, I, O, E> for InfixWith<P, F, O, W> {
    ghost use Rattle.chumsky_parser.specs.Showing.{OnlyAnswers};
    ghost use Rattle.chumsky_pratt.specs.Operators.{infix_fixity, GivesInfixWith};
    ghost use Rattle.chumsky_pratt.specs.Operating.{shown_language};
    ghost use Rattle.chumsky_pratt.specs.OperatingLaws.{shown-operates};

    ghost ready = { λ p. P.ready p.parser × F.callable p.folder };

    ghost stands = { λ p. infix_fixity p.associativity };

    ghost reads = { λ p. P.meaning p.parser };

    ghost gives = { λ p states. GivesInfixWith (F.gives p.folder states) };

    ghost steady = { λ p. P.steady p.parser × OnlyAnswers (GivesInfixWith (F.gives p.folder E.State.Inspector)) };

    ghost same = { λ p. P.same p.parser };

    ghost language = { λ p. shown_language (P.language p.parser) (GivesInfixWith (F.gives p.folder E.State.Inspector)) };

    ghost ends_after_start = { λ p. P.ends_after_start p.parser };

    ghost agrees = { λ p s. P.agrees p.parser s.0 };

    ghost gives_one = { λ p s. s.1 };

    ghost operates = { λ p. shown-operates _ (P.accepts p.parser) };

    #[inline]
    fn fixity(&self) -> Fixity {
        self.associativity.fixity()
    }

    #[inline]
    fn read_emit(&self, inp: &mut InputRef<'src, '_, I, E>) -> PResult<W> {
        self.parser.go_emit(inp)
    }

    #[inline]
    fn read_check(&self, inp: &mut InputRef<'src, '_, I, E>) -> PResult<()> {
        self.parser.go_check(inp)
    }

    #[inline]
    fn fold(
        &self,
        found: W,
        operands: Operands<O>,
        since: &I::Cursor,
        inp: &mut InputRef<'src, '_, I, E>,
    ) -> O
        requires parser { P.ready self.now.parser }
        requires folder { F.callable self.now.folder }
        requires tokens { InTokens I.Input E.Error.Error E.State.Inspector since.now inp.old }
        requires order { NotPast I.Input E.Error.Error E.State.Inspector since.now inp.old }
        ensures gives { AnswersSince I.Input E.Error.Error E.State.Inspector (GivesInfixWith (F.gives self.now.folder E.State.Inspector) (found, operands)) since.now inp.old inp.new result }
        ensures moves { OnlyState I.Input E.Error.Error E.State.Inspector inp.old inp.new }
        ensures lent { inp.new.state.ghost_name ≡ inp.old.state.ghost_name }
    {
        match operands {
            Operands::After(operand) => operand,
            Operands::Before(operand) => operand,
            Operands::Around(before, after) => {
                self.folder.fold_with(before, found, after, since, inp)
            }
        }
    }
}

/// When it is ready and steady, and which outputs are the same: `prefix_with(..)`, where `f` gives one output for each
/// operator and operand and each run that it is shown, and keeps the state.
pub fn prefix_with_is_steady<
    'src,
    I: Input<'src>,
    O: Drop,
    W: Drop,
    E: ParserExtra<I>,
    P: Parser<'src, I, W, E>,
    F: RightFolderWith<'src, I, W, O, E>,
>(prefix: &PrefixWith<P, F, O, W>)
    ensures ready { P.ready prefix.now.parser → F.callable prefix.now.folder → ⟦<PrefixWith<P, F, O, W> as Operator<'src, I, O, E>>⟧.ready prefix.now }
    ensures steady { P.steady prefix.now.parser → OnlyAnswers (GivesPrefixWith (F.gives prefix.now.folder E.State.Inspector)) → ⟦<PrefixWith<P, F, O, W> as Operator<'src, I, O, E>>⟧.steady prefix.now }
    ensures same { (x y : W) → ⟦<PrefixWith<P, F, O, W> as Operator<'src, I, O, E>>⟧.same prefix.now x y → P.same prefix.now.parser x y }
{}

/// `postfix_with(..)`, likewise.
pub fn postfix_with_is_steady<
    'src,
    I: Input<'src>,
    O: Drop,
    W: Drop,
    E: ParserExtra<I>,
    P: Parser<'src, I, W, E>,
    F: FolderWith<'src, I, O, W, E>,
>(postfix: &PostfixWith<P, F, O, W>)
    ensures ready { P.ready postfix.now.parser → F.callable postfix.now.folder → ⟦<PostfixWith<P, F, O, W> as Operator<'src, I, O, E>>⟧.ready postfix.now }
    ensures steady { P.steady postfix.now.parser → OnlyAnswers (GivesPostfixWith (F.gives postfix.now.folder E.State.Inspector)) → ⟦<PostfixWith<P, F, O, W> as Operator<'src, I, O, E>>⟧.steady postfix.now }
    ensures same { (x y : W) → ⟦<PostfixWith<P, F, O, W> as Operator<'src, I, O, E>>⟧.same postfix.now x y → P.same postfix.now.parser x y }
{}

/// `infix_with(..)`, likewise.
pub fn infix_with_is_steady<
    'src,
    I: Input<'src>,
    O: Drop,
    W: Drop,
    E: ParserExtra<I>,
    P: Parser<'src, I, W, E>,
    F: InfixFolderWith<'src, I, O, W, E>,
>(operator: &InfixWith<P, F, O, W>)
    ensures ready { P.ready operator.now.parser → F.callable operator.now.folder → ⟦<InfixWith<P, F, O, W> as Operator<'src, I, O, E>>⟧.ready operator.now }
    ensures steady { P.steady operator.now.parser → OnlyAnswers (GivesInfixWith (F.gives operator.now.folder E.State.Inspector)) → ⟦<InfixWith<P, F, O, W> as Operator<'src, I, O, E>>⟧.steady operator.now }
    ensures same { (x y : W) → ⟦<InfixWith<P, F, O, W> as Operator<'src, I, O, E>>⟧.same operator.now x y → P.same operator.now.parser x y }
{}
