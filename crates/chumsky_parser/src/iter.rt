//! What a parser of items is.
ghost use Rattle.std.specs.Prelude.{◌≡◌, true, false, IfOk, OnSome};
ghost use Rattle.chumsky_input.specs.Run.{Runs, with_value};
ghost use Rattle.chumsky_parser.specs.Items.{with_item, without_item};

use chumsky_input::extra::ParserExtra;
use chumsky_input::input::Input;
use chumsky_input::input_ref::InputRef;
use chumsky_input::stop::PResult;

/// How a run over items asks for one.
#[derive(Clone, Copy)]
pub struct IterParserDebug {
    /// That an item may end where it began, also where nothing caps their number.
    pub nonconsumption_is_ok: bool,
}

/// Says of a type that it gives items `O` out of inputs `I` with the extra `E`, and no more: what builders ask for.
pub trait IsIterParser<I, O, E> {}

/// What a parser of items keeps from item to item.
///
/// It stands by itself, and not in `IterParser`, since it rests on the parser's type alone.
pub trait Iterates {
    type IterState: Drop;
}

/// A parser of items `O` over inputs `I`: an iteration is made, and then asked for one item after another.
///
/// Both functions for a step mean one relation, `gives`: from an iteration, and where the step begins, to the outcomes
/// that it may have. `next_emit` makes the item, `next_check` only says whether there is one.
pub trait IterParser<'src, I: Input<'src>, O, E: ParserExtra<I>>: Iterates {
    ghost use Rattle.chumsky_input.specs.Words.{Does};
    ghost use Rattle.chumsky_parser.specs.Items.{Next, ItemsEnd, ItemsAgree};
    ghost use Rattle.chumsky_parser.specs.ItemsLanguage.{ItemsLanguage, AcceptsItems, unsaid_items};
    ghost use Rattle.chumsky_parser.specs.declared.iter.IterParserDebug.{IterParserDebug};

    /// That the parser may be run: its closures may be called.
    ghost ready: { Self → Type 0 };
    /// That this iteration may be asked for an item.
    ghost may_step: { Self → Self.IterState → Type 0 };
    /// How an iteration is made.
    ghost begins: { Self → Does I I.Token I.Span E.Error E.State E.State.Mark E.Context Self.IterState };
    /// What a step may do.
    ghost gives: { Self → IterParserDebug → Self.IterState → Does I I.Token I.Span E.Error E.State E.State.Mark E.Context (Next Self.IterState O) };
    /// That the parser's closures answer alike each time.
    ghost steady: { Self → Type 0 };
    /// Which items count as the same, and which iterations are alike.
    ghost same: { Self → O → O → Type 0 };

    ghost alike: { Self → Self.IterState → Self.IterState → Type 0 };
    /// Which lists it accepts, and with which items. Nothing is said where this is left out.
    ghost language: { Self → ItemsLanguage I.Token Self.IterState O } = { λ _. unsaid_items };

    /// Makes an iteration, for a run of either kind.
    fn make_iter(&self, inp: &mut InputRef<'src, '_, I, E>) -> PResult<Self::IterState>
        requires { ready self.now }
        ensures ran { Runs I.Input E.Error.Error E.State.Inspector (begins self.now E.Error.Error E.State.Inspector) true inp.old inp.new (with_value result) }
        ensures may { IfOk result (may_step self.now) }
        ensures lent { inp.new.state.ghost_name ≡ inp.old.state.ghost_name };

    /// The next item, or none at the end.
    fn next_emit(
        &self,
        inp: &mut InputRef<'src, '_, I, E>,
        state: &mut Self::IterState,
        debug: IterParserDebug,
    ) -> PResult<Option<O>>
        requires { may_step self.now state.old }
        ensures ran { Runs I.Input E.Error.Error E.State.Inspector (gives self.now debug state.old E.Error.Error E.State.Inspector) true inp.old inp.new (with_item state.new result) }
        ensures may { IfOk result (λ o. OnSome o (may_step self.now state.new)) }
        ensures lent { inp.new.state.ghost_name ≡ inp.old.state.ghost_name };

    /// Whether there is a next item: nothing is made for it.
    fn next_check(
        &self,
        inp: &mut InputRef<'src, '_, I, E>,
        state: &mut Self::IterState,
        debug: IterParserDebug,
    ) -> PResult<Option<()>>
        requires { may_step self.now state.old }
        ensures ran { Runs I.Input E.Error.Error E.State.Inspector (gives self.now debug state.old E.Error.Error E.State.Inspector) false inp.old inp.new (without_item state.new result) }
        ensures may { IfOk result (λ o. OnSome o (may_step self.now state.new)) }
        ensures lent { inp.new.state.ghost_name ≡ inp.old.state.ghost_name };

    /// No answer ends before its start.
    ghost ends_after_start: { (p : Self) → (d : IterParserDebug) → ItemsEnd (begins p E.Error.Error E.State.Inspector) (λ s. gives p d s E.Error.Error E.State.Inspector) };

    /// Two answers of a steady parser agree, with an item or without, and lead to iterations that are alike.
    ghost agrees: { (p : Self) → steady p → (d : IterParserDebug) → ItemsAgree (same p) (alike p) (begins p E.Error.Error E.State.Inspector) (λ s. gives p d s E.Error.Error E.State.Inspector) };

    /// What the language says is so, of runs of either kind.
    ghost accepts: { (p : Self) → (d : IterParserDebug) → AcceptsItems (begins p E.Error.Error E.State.Inspector) (λ s. gives p d s E.Error.Error E.State.Inspector) (language p) (E.Error.takes_no_memory × E.State.takes_no_memory) };
}
