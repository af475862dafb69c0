//! What a closure is shown of a run.
ghost use Rattle.std.specs.Prelude.{◌≡◌, ◌≤◌};
ghost use Rattle.std.specs.Borrow.{sem};
ghost use Rattle.chumsky_input.specs.Held.{held};
ghost use Rattle.chumsky_input.specs.Extra.{shown_from, KeepsState, MayAnswer, ExtraLendsState};

use crate::extra::ParserExtra;
use crate::input::{Input, SliceInput};
use crate::input_ref::InputRef;
use std::alloc::Global;
use std::marker::PhantomData;

/// What a mapper is shown of the run beside its argument: where the parser ran, the state and the context.
///
/// The state is the run's own: what a closure writes through `state` stands, unless the run goes back past it.
pub struct MapExtra<'src, 'b, I: Input<'src>, E: ParserExtra<I>> {
    pub from: I::Cursor,
    pub to: I::Cursor,
    pub state: &'b mut E::State,
    pub context: &'b E::Context,
    pub alloc: Global,
    pub source: PhantomData<(&'src (), I)>,
}

impl<'src, 'b, I: Input<'src>, E: ParserExtra<I>> MapExtra<'src, 'b, I, E> {
    /// The span of what the parser took.
    #[inline]
    pub fn span(&self) -> I::Span
        requires { I.cursor_tokens self.now.to ≡ I.cursor_tokens self.now.from }
        ensures { result ≡ I.span_between (I.cursor_tokens self.now.to) (I.place self.now.from) (I.place self.now.to) }
    {
        I::span(&self.from, &self.to)
    }

    /// The state of the run. What is written to it stands, unless the run goes back past it.
    #[inline]
    pub fn state(&mut self) -> &mut E::State
        ensures* writes_back { sem 𝓛 (ExtraLendsState I.row E.row I.Cursor.row I.Token.row I.Span.row E.Error.row E.State.row E.Context.row E.State.Mark.row self.entry result) }
        ensures value { result.now ≡ self.old.state.now }
    {
        &mut *self.state
    }

    /// The context of the run.
    #[inline]
    pub fn ctx(&self) -> &'b E::Context
        ensures { result.now ≡ self.now.context.now }
    {
        self.context
    }

    /// The allocator of the run.
    #[inline]
    pub fn alloc(&self) -> Global
        ensures { result ≡ self.now.alloc }
    {
        self.alloc
    }
}

impl<'src, 'b, I: SliceInput<'src>, E: ParserExtra<I>> MapExtra<'src, 'b, I, E> {
    /// The part of the input that the parser took.
    #[inline]
    pub fn slice(&self) -> I::Slice
        requires tokens { I.cursor_tokens self.now.to ≡ I.cursor_tokens self.now.from }
        requires order { I.place self.now.from ≤ I.place self.now.to }
        ensures { I.slice_seen result ≡ I.slice_of (I.cursor_tokens self.now.to) (I.place self.now.from) (I.place self.now.to) }
    {
        I::slice(&self.from, &self.to)
    }
}

/// Calls a closure with an argument and an extra over what the run took since a cursor of its input.
#[inline]
pub fn call_with_extra<'src, I, E, A, R, F>(
    closure: &F,
    argument: A,
    since: &I::Cursor,
    inp: &mut InputRef<'src, '_, I, E>,
) -> R
where
    I: Input<'src>,
    E: ParserExtra<I>,
    F: Fn(A, &mut MapExtra<'src, '_, I, E>) -> R,
    requires callable { KeepsState I.Input E.State.Inspector F.Fn closure.now }
    requires tokens { I.cursor_tokens since.now ≡ (held I.Input E.Error.Error E.State.Inspector inp.old).tokens }
    requires order { I.place since.now ≤ (held I.Input E.Error.Error E.State.Inspector inp.old).place }
    ensures answers { MayAnswer I.Input E.State.Inspector F.Fn closure.now argument (shown_from (I.place since.now) (held I.Input E.Error.Error E.State.Inspector inp.old)) result (held I.Input E.Error.Error E.State.Inspector inp.new).state }
    ensures moves { held I.Input E.Error.Error E.State.Inspector inp.new ≡ record (held I.Input E.Error.Error E.State.Inspector inp.old) { state = (held I.Input E.Error.Error E.State.Inspector inp.new).state } }
    ensures lent { inp.new.state.ghost_name ≡ inp.old.state.ghost_name }
{
    let mut extra: MapExtra<'src, '_, I, E> = MapExtra {
        from: *since,
        to: inp.cursor,
        state: &mut *inp.state,
        context: inp.context,
        alloc: inp.alloc,
        source: PhantomData,
    };
    let answer = closure(argument, &mut extra);
    let MapExtra {
        from: _,
        to: _,
        state: lent,
        context: _,
        alloc: _,
        source: _,
    } = extra;
    let _last = &*lent;
    answer
}
