//! What a parser is lent: where its run stands, and what it holds.
ghost use Rattle.std.specs.Prelude.{◌≡◌, ◌<◌, ◌^◌, length, ◌∷◌, [], option_map, option_to_list, MatchResult, None, ◌≤◌, IsTrue, is_some, IfOk, List, OnErr};
ghost use Rattle.chumsky_input.specs.declared.stop.Failure.TheVariants as failure;
ghost use Rattle.std.specs.Borrow.{sem};
ghost use Rattle.std.specs.Iterator.{YieldsFirstBy, item_count, IsFinite};
ghost use Rattle.chumsky_input.specs.Held.{held, begun_at, marks, with_stop};
ghost use Rattle.chumsky_input.specs.Lending.{LendsState};
ghost use Rattle.chumsky_input.specs.Maybe.{maybe_value, ref_value};
ghost use Rattle.chumsky_input.specs.Wanted.{maybe_wanted, plain_wanted, sole_wanted, Token, Wanted, Shows};
ghost use Rattle.chumsky_input.specs.Run.{took, next_token, marked_here, KeepsPast};
ghost use Rattle.chumsky_input.specs.OneCall.{Advances, TakesNext, PeeksNext, GoesBack, FailsExpecting, FailsWith, AddsEvent, EmitsError, EmitsLast, last_seen};

use crate::aside::Aside;
use crate::error::Error;
use crate::extra::ParserExtra;
use crate::input::{BorrowInput, Input, SliceInput, ValueInput};
use crate::inspector::Inspector;
use crate::stop::{Failure, Fault, Stop};
use crate::util::{Expectation, MaybeLabel, MaybeRef, Plain, Sole, found_token};
use std::alloc::{AllocError, Global};
use std::marker::PhantomData;

/// An error and the place of its failure: how many tokens stand before it.
#[derive(Drop)]
pub struct Located<E> {
    pub place: usize,
    pub error: E,
}

/// Where a run stood: what `InputRef::rewind` goes back to.
#[derive(Drop)]
pub struct Checkpoint<C, M> {
    pub cursor: C,
    pub emitted: usize,
    pub mark: M,
}

/// What a parser is lent by a run: a cursor into the input, the state, the context, the error of the furthest failure
/// so far and the errors that were emitted; and, for itself, the first stop of a parser that a closure ran on it.
pub struct InputRef<'src, 'p, I: Input<'src>, E: ParserExtra<I>> {
    pub(crate) cursor: I::Cursor,
    pub state: &'p mut E::State,
    pub(crate) context: &'p E::Context,
    pub(crate) kept: Option<Located<E::Error>>,
    pub(crate) emitted: Vec<E::Error>,
    pub(crate) alloc: Global,
    source: PhantomData<(&'src I::Token, I)>,
    stopped: Option<Stop>,
}

/// What a run leaves: where its cursor stands, the state, and the errors.
pub struct Finished<'p, C, S, E> {
    pub cursor: C,
    pub state: &'p mut S,
    pub errors: Aside<E>,
}

/// One expectation, or none.
#[derive(Drop)]
pub struct One<'s, T> {
    pub left: Option<MaybeLabel<'s, T>>,
}

impl<'s, T: Drop> Iterator for One<'s, T> {
    type Item = MaybeLabel<'s, T>;

    ghost next_gives = { YieldsFirstBy maybe_wanted (λ s. option_to_list (option_map maybe_wanted s.left)) };

    ghost remaining = { item_count (λ s. option_to_list (option_map maybe_wanted s.left)) };

    #[inline]
    fn next(&mut self) -> Option<MaybeLabel<'s, T>> {
        self.left.take()
    }
}

impl<'src, 'p, I: Input<'src>, E: ParserExtra<I>> InputRef<'src, 'p, I, E> {
    /// The next token where it lies, which is taken and told to the state; none at the end of input.
    #[inline(always)]
    pub fn next_maybe(&mut self) -> Option<MaybeRef<'src, I::Token>>
        ensures taken { option_map maybe_value result ≡ next_token (held I.Input E.Error.Error E.State.Inspector self.old) }
        ensures moves { held I.Input E.Error.Error E.State.Inspector self.new ≡ took E.State.after (held I.Input E.Error.Error E.State.Inspector self.old) (option_map maybe_value result) }
        ensures lent { self.new.state.ghost_name ≡ self.old.state.ghost_name }
    {
        match I::next_maybe(&mut self.cursor) {
            None => None,
            Some(token) => {
                self.state.on_token(token.get());
                Some(token)
            }
        }
    }

    /// Takes the next token, if there is one, and says whether there was.
    #[inline]
    pub fn advance(&mut self) -> bool
        ensures moves { Advances I.Input E.Error.Error E.State.Inspector self.old self.new }
        ensures tells { result ≡ is_some (next_token (held I.Input E.Error.Error E.State.Inspector self.old)) }
        ensures lent { self.new.state.ghost_name ≡ self.old.state.ghost_name }
    {
        let token = self.next_maybe();
        token.is_some()
    }

    /// Takes the next token, if there is one.
    #[inline]
    pub fn skip(&mut self)
        ensures moves { Advances I.Input E.Error.Error E.State.Inspector self.old self.new }
        ensures lent { self.new.state.ghost_name ≡ self.old.state.ghost_name }
    {
        let _there = self.advance();
    }

    /// A checkpoint to go back to. A refusal changes nothing.
    #[inline(always)]
    pub fn save(
        &self,
    ) -> Result<Checkpoint<I::Cursor, <E::State as Inspector<I>>::Mark>, AllocError>
        ensures { MatchResult result (λ c. marks I.Input E.State.Inspector c ≡ marked_here E.State.mark (held I.Input E.Error.Error E.State.Inspector self.now)) (λ _. ¬ E.State.takes_no_memory) }
    {
        let mark = self.state.on_save()?;
        Ok(Checkpoint {
            cursor: self.cursor,
            emitted: self.emitted.len(),
            mark,
        })
    }

    /// Goes back to a checkpoint of this input: the cursor stands where it stood, the errors emitted since are dropped,
    /// and the state gets its mark. Failures stay. A refusal changes nothing.
    #[inline(always)]
    pub fn rewind(
        &mut self,
        to: &Checkpoint<I::Cursor, <E::State as Inspector<I>>::Mark>,
    ) -> Result<(), AllocError>
        requires { (marks I.Input E.State.Inspector to.now).tokens ≡ (held I.Input E.Error.Error E.State.Inspector self.old).tokens }
        ensures back { GoesBack I.Input E.Error.Error E.State.Inspector to.now self.old self.new result }
        ensures lent { self.new.state.ghost_name ≡ self.old.state.ghost_name }
    {
        self.state.on_rewind(&to.mark)?;
        self.cursor = to.cursor;
        self.emitted.truncate(to.emitted);
        Ok(())
    }

    /// Where the run stands.
    #[inline]
    pub fn cursor(&self) -> I::Cursor
        ensures { result ≡ self.now.cursor }
    {
        self.cursor
    }

    /// Moves to a cursor of this input. Nothing else changes: the state isn't told.
    #[inline(always)]
    pub fn move_to(&mut self, to: I::Cursor)
        ensures { self.new ≡ record self.old { cursor = to } }
    {
        self.cursor = to;
    }

    /// Stands at a cursor, and under a context, that it had: a closure that is lent a run may have put another in its place.
    #[inline]
    pub fn restore(&mut self, cursor: I::Cursor, context: &'p E::Context)
        ensures { self.new ≡ record self.old { cursor = cursor; context = context.entry } }
    {
        self.cursor = cursor;
        self.context = context;
    }

    /// The span from a cursor of this input, not past the present one, to the present one.
    #[inline]
    pub fn span_since(&self, before: &I::Cursor) -> I::Span
        requires tokens { I.cursor_tokens before.now ≡ (held I.Input E.Error.Error E.State.Inspector self.now).tokens }
        requires order { I.place before.now ≤ (held I.Input E.Error.Error E.State.Inspector self.now).place }
        ensures { result ≡ I.span_between (I.cursor_tokens before.now) (I.place before.now) (held I.Input E.Error.Error E.State.Inspector self.now).place }
    {
        I::span(before, &self.cursor)
    }

    /// Emits an error, which stands whatever the parser answers, unless the run goes back past it.
    #[inline]
    pub fn emit(&mut self, error: E::Error) -> Result<(), AllocError>
        ensures emits { EmitsError I.Input E.Error.Error E.State.Inspector error self.old self.new result }
        ensures lent { self.new.state.ghost_name ≡ self.old.state.ghost_name }
    {
        self.emitted.push(error)?;
        Ok(())
    }

    /// A failure with an error at a place.
    pub fn add_event(&mut self, place: usize, error: E::Error) -> Fault
        ensures adds { AddsEvent I.Input E.Error.Error E.State.Inspector place error self.old self.new result }
        ensures lent { self.new.state.ghost_name ≡ self.old.state.ghost_name }
    {
        match self.kept.take() {
            None => {
                self.kept = Some(Located { place, error });
                Fault::Fail
            }
            Some(kept) => {
                if kept.place < place {
                    self.kept = Some(Located { place, error });
                    Fault::Fail
                } else if place < kept.place {
                    self.kept = Some(kept);
                    Fault::Fail
                } else {
                    match kept.error.merge(error) {
                        Ok(error) => {
                            self.kept = Some(Located { place, error });
                            Fault::Fail
                        }
                        Err(_) => Fault::Stop(Stop::Memory),
                    }
                }
            }
        }
    }

    /// A failure where something was expected, with the span between two cursors. Where the error that is kept lies
    /// further on, none is built. `inp.expected(&before, &here, Plain::Label("a month"), None)` fails with a label.
    #[inline]
    pub fn expected(
        &mut self,
        from: &I::Cursor,
        to: &I::Cursor,
        what: Plain<'_>,
        found: Option<MaybeRef<'src, I::Token>>,
    ) -> Fault
        requires { I.cursor_tokens to.now ≡ I.cursor_tokens from.now }
        ensures fails { FailsExpecting I.Input E.Error.Error E.State.Inspector (plain_wanted what.entry) found.entry from.now to.now self.old self.new result }
        ensures lent { self.new.state.ghost_name ≡ self.old.state.ghost_name }
    {
        let place = I::place(from);
        if self.keeps_past(place) {
            return Fault::Fail;
        }
        let span = I::span(from, to);
        self.keep_expected(place, Sole::Other(what), &found, span)
    }

    /// The same where one token was expected.
    #[inline]
    pub fn expected_token(
        &mut self,
        from: &I::Cursor,
        to: &I::Cursor,
        token: &I::Token,
        found: Option<MaybeRef<'src, I::Token>>,
    ) -> Fault
        requires { I.cursor_tokens to.now ≡ I.cursor_tokens from.now }
        ensures fails { FailsExpecting I.Input E.Error.Error E.State.Inspector (Token token.now ∷ []) found.entry from.now to.now self.old self.new result }
        ensures lent { self.new.state.ghost_name ≡ self.old.state.ghost_name }
    {
        let place = I::place(from);
        if self.keeps_past(place) {
            return Fault::Fail;
        }
        let span = I::span(from, to);
        self.keep_expected(place, Sole::Token(token), &found, span)
    }

    /// A failure at a place, not before that of the error that is kept, where at most one thing was expected.
    #[inline(always)]
    fn keep_expected(
        &mut self,
        place: usize,
        expected: Sole<'_, I::Token>,
        found: &Option<MaybeRef<'src, I::Token>>,
        span: I::Span,
    ) -> Fault
        requires near { ¬ KeepsPast place (held I.Input E.Error.Error E.State.Inspector self.old).kept }
        ensures fails { FailsWith I.Input E.Error.Error E.State.Inspector (sole_wanted expected.entry) found.now place span self.old self.new result }
        ensures lent { self.new.state.ghost_name ≡ self.old.state.ghost_name }
    {
        let found = found_token(found);
        match E::Error::keep_expected(&mut self.kept, place, self.alloc, &expected, found, span) {
            Ok(()) => Fault::Fail,
            Err(_) => Fault::Stop(Stop::Memory),
        }
    }

    /// The same where each item of an iterator was expected. Where the error that is kept lies further on, no item is
    /// asked for.
    #[inline]
    pub fn expected_each<X: Iterator + Drop>(
        &mut self,
        from: &I::Cursor,
        to: &I::Cursor,
        expected: X,
        found: Option<MaybeRef<'src, I::Token>>,
    ) -> Fault
    where
        X::Item: Expectation<I::Token> + Drop,
        requires can { X.can_next expected }
        requires ends { IsFinite (X.remaining expected) }
        requires tokens { I.cursor_tokens to.now ≡ I.cursor_tokens from.now }
        ensures fails { (es : List (Wanted I.Token)) → Shows X.next_gives X.Item.expectation expected es → FailsExpecting I.Input E.Error.Error E.State.Inspector es found.entry from.now to.now self.old self.new result }
        ensures lent { self.new.state.ghost_name ≡ self.old.state.ghost_name }
    {
        let place = I::place(from);
        if self.keeps_past(place) {
            return Fault::Fail;
        }
        let span = I::span(from, to);
        match E::Error::expected_found(self.alloc, expected, found, span) {
            Ok(error) => self.add_event(place, error),
            Err(_) => Fault::Stop(Stop::Memory),
        }
    }

    /// The last error of a failure: the one that is kept, or where there is none that of an empty expectation.
    #[inline]
    pub fn last_error(&mut self) -> Result<E::Error, AllocError>
        ensures error { IfOk result (λ e. E.Error.seen e ≡ last_seen I.Input E.Error.Error E.State.Inspector self.old) }
        ensures memory { OnErr result ((E.Error.takes_no_memory → ⊥) × ((held I.Input E.Error.Error E.State.Inspector self.old).kept ≡ None)) }
        ensures leaves { held I.Input E.Error.Error E.State.Inspector self.new ≡ record (held I.Input E.Error.Error E.State.Inspector self.old) { kept = None } }
        ensures lent { self.new.state.ghost_name ≡ self.old.state.ghost_name }
    {
        match self.kept.take() {
            Some(kept) => Ok(kept.error),
            None => {
                let span = I::span(&self.cursor, &self.cursor);
                E::Error::expected_found(self.alloc, One { left: None }, None, span)
            }
        }
    }

    /// Emits the last error of a failure. A refusal loses the error that is kept, and changes nothing else.
    #[inline]
    pub fn add_last(&mut self) -> Result<(), AllocError>
        ensures last { EmitsLast I.Input E.Error.Error E.State.Inspector self.old self.new result }
        ensures lent { self.new.state.ghost_name ≡ self.old.state.ghost_name }
    {
        let error = self.last_error()?;
        self.emitted.push(error)?;
        Ok(())
    }

    /// The state, to read and to write. Going back undoes what was written only where the state's marks hold it.
    #[inline]
    pub fn state(&mut self) -> &mut E::State
        ensures* writes_back { sem 𝓛 (LendsState I.row E.row I.Cursor.row I.Token.row I.Span.row E.Error.row E.State.row E.Context.row E.State.Mark.row self.entry result) }
        ensures value { result.now ≡ self.old.state.now }
    {
        &mut *self.state
    }

    /// The context.
    #[inline]
    pub fn ctx(&self) -> &'p E::Context
        ensures { result.now ≡ (held I.Input E.Error.Error E.State.Inspector self.now).context }
    {
        self.context
    }

    /// The allocator that the run was given.
    #[inline]
    pub fn alloc(&self) -> Global
        ensures { result ≡ self.now.alloc }
    {
        self.alloc
    }

    /// A run that goes on from a cursor, with nothing kept and nothing emitted.
    #[inline]
    pub fn resume(
        alloc: Global,
        from: I::Cursor,
        state: &'p mut E::State,
        context: &'p E::Context,
    ) -> InputRef<'src, 'p, I, E>
        ensures begins { held I.Input E.Error.Error E.State.Inspector result ≡ begun_at (I.cursor_tokens from) (I.place from) context.now (E.State.seen state.entry.now) }
        ensures lent { result.state.ghost_name ≡ state.entry.ghost_name }
    {
        InputRef {
            cursor: from,
            state,
            context,
            kept: None,
            emitted: Vec::new(alloc),
            alloc,
            source: PhantomData,
            stopped: None,
        }
    }

    /// A run at the start of an input.
    #[inline]
    pub fn new(
        alloc: Global,
        input: I,
        state: &'p mut E::State,
        context: &'p E::Context,
    ) -> InputRef<'src, 'p, I, E>
        ensures begins { held I.Input E.Error.Error E.State.Inspector result ≡ begun_at (I.tokens input) 0 context.now (E.State.seen state.entry.now) }
        ensures count { length (I.tokens input).list < 2 ^ 64 }
        ensures lent { result.state.ghost_name ≡ state.entry.ghost_name }
    {
        InputRef {
            cursor: input.begin(),
            state,
            context,
            kept: None,
            emitted: Vec::new(alloc),
            alloc,
            source: PhantomData,
            stopped: None,
        }
    }

    /// Ends a run, and hands out what it leaves.
    #[inline]
    pub fn finish(self) -> Finished<'p, I::Cursor, E::State, E::Error>
        ensures cursor { result.cursor ≡ self.entry.cursor }
        ensures state { result.state ≡ self.entry.state }
        ensures kept { result.errors.kept ≡ self.entry.kept }
        ensures emitted { result.errors.emitted ≡ self.entry.emitted }
    {
        let InputRef {
            cursor,
            state,
            context: _,
            kept,
            emitted,
            alloc: _,
            source: _,
            stopped: _,
        } = self;
        Finished {
            cursor,
            state,
            errors: Aside { kept, emitted },
        }
    }

    /// A stop of a parser that a closure ran, which the closure is to pass on. The run notes the first one.
    #[inline]
    pub fn stop(&mut self, stop: Stop) -> Failure<E::Error>
        ensures is { result ≡ failure.Stop stop }
        ensures stops { held I.Input E.Error.Error E.State.Inspector self.new ≡ with_stop stop (held I.Input E.Error.Error E.State.Inspector self.old) }
        ensures lent { self.new.state.ghost_name ≡ self.old.state.ghost_name }
    {
        if self.stopped.is_none() {
            self.stopped = Some(stop);
        }
        Failure::Stop(stop)
    }

    /// Whether the error that is kept lies past a place.
    #[inline]
    pub fn keeps_past(&self, place: usize) -> bool
        ensures past { IsTrue result → KeepsPast place (held I.Input E.Error.Error E.State.Inspector self.now).kept }
        ensures converse { KeepsPast place (held I.Input E.Error.Error E.State.Inspector self.now).kept → IsTrue result }
    {
        match &self.kept {
            None => false,
            Some(kept) => place < kept.place,
        }
    }
}

impl<'src, 'p, I: ValueInput<'src>, E: ParserExtra<I>> InputRef<'src, 'p, I, E> {
    /// The next token by value, which is taken and told to the state; none at the end of input. A refusal changes
    /// nothing.
    #[inline]
    pub fn next(&mut self) -> Result<Option<I::Token>, AllocError>
        ensures takes { TakesNext I.Input E.Error.Error E.State.Inspector I.seen I.takes_no_memory self.old self.new result }
        ensures lent { self.new.state.ghost_name ≡ self.old.state.ghost_name }
    {
        let mut ahead = self.cursor;
        match I::next_maybe(&mut ahead) {
            None => Ok(None),
            Some(token) => {
                let value = I::value_of(token.get())?;
                self.cursor = ahead;
                self.state.on_token(token.get());
                Ok(Some(value))
            }
        }
    }

    /// The next token by value, which is neither taken nor told to the state; none at the end of input.
    #[inline]
    pub fn peek(&self) -> Result<Option<I::Token>, AllocError>
        ensures { PeeksNext I.Input E.Error.Error E.State.Inspector I.seen I.takes_no_memory self.now result }
    {
        let mut cursor = self.cursor;
        match I::next_maybe(&mut cursor) {
            None => Ok(None),
            Some(token) => {
                let value = I::value_of(token.get())?;
                Ok(Some(value))
            }
        }
    }
}

impl<'src, 'p, I: BorrowInput<'src>, E: ParserExtra<I>> InputRef<'src, 'p, I, E> {
    /// The next token where it lies in the input, which is taken and told to the state; none at the end of input.
    #[inline]
    pub fn next_ref(&mut self) -> Option<&'src I::Token>
        ensures taken { option_map ref_value result ≡ next_token (held I.Input E.Error.Error E.State.Inspector self.old) }
        ensures moves { held I.Input E.Error.Error E.State.Inspector self.new ≡ took E.State.after (held I.Input E.Error.Error E.State.Inspector self.old) (option_map ref_value result) }
        ensures lent { self.new.state.ghost_name ≡ self.old.state.ghost_name }
    {
        match I::next_ref(&mut self.cursor) {
            None => None,
            Some(token) => {
                self.state.on_token(token);
                Some(token)
            }
        }
    }

    /// The next token where it lies in the input, which is neither taken nor told to the state; none at the end of
    /// input.
    #[inline]
    pub fn peek_ref(&self) -> Option<&'src I::Token>
        ensures { option_map ref_value result ≡ next_token (held I.Input E.Error.Error E.State.Inspector self.now) }
    {
        let mut cursor = self.cursor;
        I::next_ref(&mut cursor)
    }
}

impl<'src, 'p, I: SliceInput<'src>, E: ParserExtra<I>> InputRef<'src, 'p, I, E> {
    /// The part of the input from a cursor of it, not past the present one, to the present one.
    #[inline]
    pub fn slice_since(&self, before: &I::Cursor) -> I::Slice
        requires tokens { I.cursor_tokens before.now ≡ (held I.Input E.Error.Error E.State.Inspector self.now).tokens }
        requires order { I.place before.now ≤ (held I.Input E.Error.Error E.State.Inspector self.now).place }
        ensures { I.slice_seen result ≡ I.slice_of (I.cursor_tokens before.now) (I.place before.now) (held I.Input E.Error.Error E.State.Inspector self.now).place }
    {
        I::slice(before, &self.cursor)
    }
}
