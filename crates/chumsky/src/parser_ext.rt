//! The run forms of parsers and the builders that put them together, in the order of the Rust crate `chumsky`.
ghost use Rattle.std.specs.Prelude.{◌≡◌, true, false, Some, None};
ghost use Rattle.chumsky.specs.Answer.{FromDefault, ParseGives, CheckGives};

use crate::combinator::{
    AndIs, Contextual, DelimitedBy, Folder, Foldl, FoldlWith, IgnoreThen, IgnoreWithCtx, IntoIter,
    Lazy, NestedIn, Not, Or, OrNot, PaddedBy, Repeated, Rewind, SeparatedBy, Then, ThenIgnore,
    ThenWithCtx, TryFoldl, WithCtx, WithState,
};
use crate::extra::{Full, ParserExtra};
use crate::input::{Input, MapExtra, Tokens, ValueInput};
use crate::inspector::Inspector;
use crate::primitive::any;
use crate::recovery::{IsStrategy, RecoverWith};
use crate::run;
use crate::text::{Padded, Whitespace};
use chumsky_input::stop::Stop;
use chumsky_parser::iter::IsIterParser;
use chumsky_parser::parser::{IsParser, Parser};
use chumsky_parser::result::ParseResult;
use chumsky_pratt::pratt::Pratt;
use chumsky_pratt::rows::IntoRow;
use std::alloc::Global;
use std::marker::PhantomData;

/// The run forms of parsers, and the builders that put parsers together: sequences, choices, items, folds, what runs a parser under
/// something else. Every parser has them.
///
/// An example says what `parse` of it answers of a text: its output, or the place of its error with what was expected.
pub trait ParserExt<'src, I, O, E>: Sized {
    /// Runs the parser and then the end of input over `input`, in the default state and under the default context:
    /// `just('a').parse(alloc, "a")` gives `'a'`.
    ///
    /// The answer is a `ParseResult`, or a `Stop` where the run was refused. With no errors there is an output; on
    /// failure the last error is that of the failure furthest in the input, merged in order of arrival where several
    /// stand there.
    final fn parse(&self, alloc: Global, input: I) -> Result<ParseResult<O, E::Error>, Stop>
    where
        I: Input<'src>,
        I::Token: 'src,
        O: Drop,
        E: ParserExtra<I>,
        E::State: Default + Drop,
        E::Context: Default + Drop,
        Self: Parser<'src, I, O, E>,
        requires { Self.ready self.now }
        ensures { FromDefault E.State.is_default E.State.seen (λ old new. ParseGives I.Input E.Error.Error E.State.Inspector E.Context.is_default Self.Parser self.now (I.tokens input) old new result) }
    {
        let mut state = E::State::default();
        run::parse_with_state(self, alloc, input, &mut state)
    }

    /// Runs the parser as `parse` does, from a state of the caller's, which is left as the run left it.
    final fn parse_with_state(
        &self,
        alloc: Global,
        input: I,
        state: &mut E::State,
    ) -> Result<ParseResult<O, E::Error>, Stop>
    where
        I: Input<'src>,
        I::Token: 'src,
        O: Drop,
        E: ParserExtra<I>,
        E::Context: Default + Drop,
        Self: Parser<'src, I, O, E>,
        requires { Self.ready self.now }
        ensures { ParseGives I.Input E.Error.Error E.State.Inspector E.Context.is_default Self.Parser self.now (I.tokens input) (E.State.seen state.old) (E.State.seen state.new) result }
    {
        run::parse_with_state(self, alloc, input, state)
    }

    /// Runs the parser as `parse` does, without its output: the answer says only whether there is one, and has the
    /// errors that `parse` gives. Nothing is made for an output.
    final fn check(&self, alloc: Global, input: I) -> Result<ParseResult<(), E::Error>, Stop>
    where
        I: Input<'src>,
        I::Token: 'src,
        E: ParserExtra<I>,
        E::State: Default + Drop,
        E::Context: Default + Drop,
        Self: Parser<'src, I, O, E>,
        requires { Self.ready self.now }
        ensures { FromDefault E.State.is_default E.State.seen (λ old new. CheckGives I.Input E.Error.Error E.State.Inspector E.Context.is_default Self.Parser self.now (I.tokens input) old new result) }
    {
        let mut state = E::State::default();
        run::check_with_state(self, alloc, input, &mut state)
    }

    /// Runs the parser as `check` does, from a state of the caller's, which is left as the run left it.
    final fn check_with_state(
        &self,
        alloc: Global,
        input: I,
        state: &mut E::State,
    ) -> Result<ParseResult<(), E::Error>, Stop>
    where
        I: Input<'src>,
        I::Token: 'src,
        E: ParserExtra<I>,
        E::Context: Default + Drop,
        Self: Parser<'src, I, O, E>,
        requires { Self.ready self.now }
        ensures { CheckGives I.Input E.Error.Error E.State.Inspector E.Context.is_default Self.Parser self.now (I.tokens input) (E.State.seen state.old) (E.State.seen state.new) result }
    {
        run::check_with_state(self, alloc, input, state)
    }

    /// Reads an expression: outputs of this parser, the atoms, with operators before, after and between them, which bind by
    /// their powers (`chumsky::pratt`). `digit.pratt((prefix(3, just('-'), |_, n| -n), infix(left(1), just('+'), |a, _, b|
    /// a + b), infix(left(2), just('*'), |a, _, b| a * b)))` on `-1+2*3` gives `5`. Operators are tried in the order of the
    /// tuple, of one to eight, or of the array, `Vec` or slice of operators of one type, but for those too weak for where
    /// they stand. One whose operand fails is gone back from, and the expression ends before it; that failure stays. Where
    /// neither a prefix operator with its operand nor an atom stands it fails as the atom does. An operator that takes no
    /// token may be refused (`Stop::NoProgress`). Operands nest in memory, not on the machine's stack.
    #[inline]
    final fn pratt<T: IntoRow>(self, operators: T) -> Pratt<Self, T::Row>
        ensures atom { result.atom ≡ self }
        ensures operators { T.row_is operators result.operators }
    {
        Pratt {
            atom: self,
            operators: operators.into_row(),
        }
    }

    /// Folds as `foldl_with` does, by a closure that may refuse an item: its error is then the failure, at the place
    /// before the item's step.
    /// `number.try_foldl(others, |sum, next, e| sum.checked_add(next).ok_or_else(|| too_large(e.span())))` on `1+2`
    /// gives `3`, and of bytes on `200+100` fails with the error of 0..7. This parser, the items and the folder run
    /// where no output is wanted too, so that both paths fail alike.
    #[inline]
    final fn try_foldl<U, B: IsIterParser<I, U, E>, F>(
        self,
        items: B,
        folder: F,
    ) -> TryFoldl<F, Self, B, U>
    where
        I: Input<'src>,
        E: ParserExtra<I>,
        F: Fn(O, U, &mut MapExtra<'src, '_, I, E>) -> Result<O, E::Error>,
        ensures parser { result.parser ≡ self }
        ensures items { result.items ≡ items }
        ensures folder { result.folder ≡ folder }
    {
        TryFoldl {
            parser: self,
            items,
            folder,
            of: PhantomData,
        }
    }

    /// Runs this parser, and then `other` from where it ended, and gives both outputs: `just('a').then(just('b'))` on
    /// `ab` gives `('a', 'b')`. The first failure is the whole's: on `ac` `'b'` is expected at 1..2.
    #[inline]
    final fn then<U, B: IsParser<I, U, E>>(self, other: B) -> Then<Self, B, O, U>
        ensures first { result.first ≡ self }
        ensures second { result.second ≡ other }
    {
        Then {
            first: self,
            second: other,
            of: PhantomData,
        }
    }

    /// Runs this parser without its output, and then `other`, and gives the output of `other`:
    /// `just('a').ignore_then(just('b'))` on `ab` gives `'b'`. It fails as `then` does.
    #[inline]
    final fn ignore_then<U, B: IsParser<I, U, E>>(self, other: B) -> IgnoreThen<Self, B, O>
        ensures first { result.first ≡ self }
        ensures second { result.second ≡ other }
    {
        IgnoreThen {
            first: self,
            second: other,
            of: PhantomData,
        }
    }

    /// Runs this parser, and then `other` without its output, and gives the output of this one:
    /// `just('a').then_ignore(just('b'))` on `ab` gives `'a'`. It fails as `then` does.
    #[inline]
    final fn then_ignore<U, B: IsParser<I, U, E>>(self, other: B) -> ThenIgnore<Self, B, U>
        ensures first { result.first ≡ self }
        ensures second { result.second ≡ other }
    {
        ThenIgnore {
            first: self,
            second: other,
            of: PhantomData,
        }
    }

    /// Runs `outer` for its output, which is an input, and then this parser over the whole of that input, and gives the
    /// output of this one: `just('x').then(just('y')).nested_in(just('a').to("xy"))` on `a` gives `('x', 'y')`. Its
    /// errors count as one failure where `outer` began; their spans are those of the input within.
    #[inline]
    final fn nested_in<K, G, B>(
        self,
        outer: B,
    ) -> NestedIn<Self, B, I, I::Cursor, I::Token, I::Span, <G::State as Inspector<I>>::Mark>
    where
        I: Input<'src>,
        K: Tokens,
        G: ParserExtra<K>,
        G::State: Inspector<I>,
        B: IsParser<K, I, G>,
        ensures parser { result.parser ≡ self }
        ensures outer { result.outer ≡ outer }
    {
        NestedIn {
            parser: self,
            outer,
            of: PhantomData,
        }
    }

    /// Runs this parser, and then `then` with the output of this one as its context, and gives the output of `then`:
    /// `count.ignore_with_ctx(just('x').repeated().configure(|c, n| c.exactly(*n)))` takes as many `x` as `count` says,
    /// and on `3xx` `'x'` is expected at 3..3. This parser runs for its output where none is wanted of the whole, too.
    /// Where `then` gives items, so does the whole.
    #[inline]
    final fn ignore_with_ctx<U, B>(
        self,
        then: B,
    ) -> IgnoreWithCtx<Self, B, O, I, Full<E::Error, E::State, O>>
    where
        I: Tokens,
        E: ParserExtra<I>,
        B: IsParser<I, U, Full<E::Error, E::State, O>>,
        ensures parser { result.parser ≡ self }
        ensures then { result.then ≡ then }
    {
        IgnoreWithCtx {
            parser: self,
            then,
            of: PhantomData,
        }
    }

    /// Runs both as `ignore_with_ctx` does, and gives both outputs:
    /// `any().then_with_ctx(just('?').configure(|c, first| c.seq(*first)))` on `aa` gives `('a', 'a')`, and on `ab`
    /// `'a'` is expected at 1..2. Where `then` gives items, so does the whole: those of `then` alone.
    #[inline]
    final fn then_with_ctx<U, B>(
        self,
        then: B,
    ) -> ThenWithCtx<Self, B, O, I, Full<E::Error, E::State, O>>
    where
        I: Tokens,
        E: ParserExtra<I>,
        B: IsParser<I, U, Full<E::Error, E::State, O>>,
        ensures parser { result.parser ≡ self }
        ensures then { result.then ≡ then }
    {
        ThenWithCtx {
            parser: self,
            then,
            of: PhantomData,
        }
    }

    /// Runs this parser under `ctx` as its context, whatever that of the run is: `same.with_ctx('a')` on `a` gives
    /// `'a'`, where `same` takes the character that its context is. It fails as this parser does there.
    #[inline]
    final fn with_ctx(self, ctx: E::Context) -> WithCtx<Self, E::Context>
    where
        I: Tokens,
        E: ParserExtra<I>,
        ensures parser { result.parser ≡ self }
        ensures ctx { result.ctx ≡ ctx }
    {
        WithCtx { parser: self, ctx }
    }

    /// Runs this parser on a copy of `state`, one for each run. The state of the run around it is neither seen nor told
    /// of tokens, and stays as it was: `word.with_state(SimpleState(0))` counts from nought in each word. A copy that
    /// is out of memory refuses the run.
    #[inline]
    final fn with_state(self, state: E::State) -> WithState<Self, E::State, I>
    where
        I: Tokens,
        E: ParserExtra<I>,
        ensures parser { result.parser ≡ self }
        ensures state { result.state ≡ state }
    {
        WithState {
            parser: self,
            state,
            of: PhantomData,
        }
    }

    /// Gives this parser's output where `other`, which runs without its output, succeeds at the same place too; the run
    /// then stands where this parser ended: `any().and_is(just('x').not())` on `a` gives `'a'`, and on `x` something
    /// else is expected at 0..1. Where this one fails the run goes back to the start; where `other` fails it stands
    /// where that left it.
    #[inline]
    final fn and_is<U, B: IsParser<I, U, E>>(self, other: B) -> AndIs<Self, B, U>
        ensures parser { result.parser ≡ self }
        ensures other { result.other ≡ other }
    {
        AndIs {
            parser: self,
            other,
            of: PhantomData,
        }
    }

    /// Runs `opening`, this parser and `closing`, and gives the output of this one; the other two run without their
    /// outputs. `just('x').delimited_by(just('('), just(')'))` on `(x)` gives `'x'`, and on `(x` `')'` is expected at
    /// 2..2.
    #[inline]
    final fn delimited_by<U, V, B: IsParser<I, U, E>, C: IsParser<I, V, E>>(
        self,
        opening: B,
        closing: C,
    ) -> DelimitedBy<Self, B, C, U, V>
        ensures parser { result.parser ≡ self }
        ensures opening { result.opening ≡ opening }
        ensures closing { result.closing ≡ closing }
    {
        DelimitedBy {
            parser: self,
            opening,
            closing,
            of: PhantomData,
        }
    }

    /// Runs `padding`, this parser and `padding` once more, and gives the output of this one; `padding` runs without
    /// its output. `just('x').padded_by(just('_'))` on `_x_` gives `'x'`, and on `_x` `'_'` is expected at 2..2.
    #[inline]
    final fn padded_by<U, B: IsParser<I, U, E>>(self, padding: B) -> PaddedBy<Self, B, U>
        ensures parser { result.parser ≡ self }
        ensures padding { result.padding ≡ padding }
    {
        PaddedBy {
            parser: self,
            padding,
            of: PhantomData,
        }
    }

    /// Runs this parser, or where it fails `other`, from the same place. The first that succeeds stands, even if the
    /// other would have gone further: `just("let").or(just("if"))` on `if` gives `"if"`. Where both fail the error is
    /// that of the further failure, or of both where they stand at one place: on `fn` `'l'` or `'i'` is expected at
    /// 0..1.
    #[inline]
    final fn or<B: IsParser<I, O, E>>(self, other: B) -> Or<Self, B>
        ensures first { result.first ≡ self }
        ensures second { result.second ≡ other }
    {
        Or {
            first: self,
            second: other,
        }
    }

    /// Gives `Some` of this parser's output, or where it fails goes back to where it began and gives `None`, so it
    /// never fails: `just('a').or_not()` on `a` gives `Some('a')`, and on nothing `None`. The errors that a failed
    /// attempt emitted are dropped; its failure still counts among those that a later one is compared with.
    #[inline]
    final fn or_not(self) -> OrNot<Self>
        ensures parser { result.parser ≡ self }
    {
        OrNot { parser: self }
    }

    /// Succeeds where this parser, which runs without its output, fails, and takes nothing:
    /// `just('a').not().then(any())` on `b` gives `((), 'b')`. On `a` something else is expected at 0..1: the failure
    /// stands at the start, over what was taken. Whatever this parser answers, its own failures and the errors that it
    /// emitted are dropped.
    #[inline]
    final fn not(self) -> Not<Self, O>
        ensures parser { result.parser ≡ self }
    {
        Not {
            parser: self,
            of: PhantomData,
        }
    }

    /// Runs this parser again and again, each time from where it ended, until it fails, which is then gone back from.
    /// It is a parser of items, and by itself one of `()`: `just('a').repeated().count()` on `aaa` gives `3`, and on
    /// `ab` `'a'` or the end of input is expected at 1..2. Any number of items will do, until `at_least`, `at_most` or
    /// `exactly` say otherwise.
    ///
    /// An item that ends where it began refuses the run (`Stop::NoProgress`), unless `at_most` caps their number or
    /// `collect_exactly` takes them.
    #[inline]
    final fn repeated(self) -> Repeated<Self, O, I, E>
        ensures parser { result.parser ≡ self }
        ensures at_least { result.at_least ≡ 0 }
        ensures at_most { result.at_most ≡ None }
    {
        Repeated {
            parser: self,
            at_least: 0,
            at_most: None,
            of: PhantomData,
        }
    }

    /// Runs this parser again and again, with `separator` between its runs, which runs without its output. It is a
    /// parser of items, as `repeated` is: `just('a').separated_by(just(',')).count()` on `a,a` gives `2`, and on `a,`
    /// `'a'` is expected at 2..2. A separator that no item follows is gone back from, until `allow_trailing` says
    /// otherwise, and none stands before the first item until `allow_leading` does; that one may stand alone.
    ///
    /// An item after the first that ends where its separator began refuses the run, unless their number is capped.
    #[inline]
    final fn separated_by<U, B: IsParser<I, U, E>>(
        self,
        separator: B,
    ) -> SeparatedBy<Self, B, O, U, I, E>
        ensures parser { result.parser ≡ self }
        ensures separator { result.separator ≡ separator }
        ensures at_least { result.at_least ≡ 0 }
        ensures at_most { result.at_most ≡ None }
        ensures leading { result.allow_leading ≡ false }
        ensures trailing { result.allow_trailing ≡ false }
    {
        SeparatedBy {
            parser: self,
            separator,
            at_least: 0,
            at_most: None,
            allow_leading: false,
            allow_trailing: false,
            of: PhantomData,
        }
    }

    /// Runs this parser, and then `items` from where it ended: this one's output is the first accumulator, and `folder`
    /// takes each item into it, in order. `digit.foldl(digits, |number, n| number * 10 + n)` on `123` gives `123`. It
    /// fails where either does. Where no output is wanted `folder` is not called. Items are counted and asked for
    /// progress as by `collect`, but kept nowhere: the fold itself requests no memory.
    #[inline]
    final fn foldl<U, B: IsIterParser<I, U, E>, F: Fn(O, U) -> O>(
        self,
        items: B,
        folder: F,
    ) -> Foldl<F, Self, B, U>
        ensures parser { result.parser ≡ self }
        ensures items { result.items ≡ items }
        ensures folder { result.folder ≡ folder }
    {
        Foldl {
            parser: self,
            items,
            folder,
            of: PhantomData,
        }
    }

    /// Folds as `foldl` does, by a value of a type with an impl of `Folder`. The parser's type can then be written
    /// down, and what the folder gives is known where the parser is run.
    #[inline]
    final fn foldl_by<U, B: IsIterParser<I, U, E>, F: Folder<O, U>>(
        self,
        items: B,
        folder: F,
    ) -> Foldl<F, Self, B, U>
        ensures parser { result.parser ≡ self }
        ensures items { result.items ≡ items }
        ensures folder { result.folder ≡ folder }
    {
        Foldl {
            parser: self,
            items,
            folder,
            of: PhantomData,
        }
    }

    /// Folds as `foldl` does, by a closure that is shown the run too: the span from the start of this parser to the end
    /// of the item, the state and the context. `number.foldl_with(others, |sum, next, e| add(sum, next, e.span()))` is
    /// shown 0..3 and then 0..5 on `1+2+3`. What it writes to the state stands; where no output is wanted it is not
    /// called.
    #[inline]
    final fn foldl_with<U, B: IsIterParser<I, U, E>, F>(
        self,
        items: B,
        folder: F,
    ) -> FoldlWith<F, Self, B, U>
    where
        I: Input<'src>,
        E: ParserExtra<I>,
        F: Fn(O, U, &mut MapExtra<'src, '_, I, E>) -> O,
        ensures parser { result.parser ≡ self }
        ensures items { result.items ≡ items }
        ensures folder { result.folder ≡ folder }
    {
        FoldlWith {
            parser: self,
            items,
            folder,
            of: PhantomData,
        }
    }

    /// Gives this parser's output, and stands at its start again: `just('a').rewind().then(any())` on `a` gives
    /// `('a', 'a')`. It fails as this parser does. After a success the state and the errors that it emitted stay, and
    /// of its failures those that lie past the start are forgotten.
    #[inline]
    final fn rewind(self) -> Rewind<Self>
        ensures parser { result.parser ≡ self }
    {
        Rewind { parser: self }
    }

    /// Runs this parser, and then takes all that is left of the input, and gives the output of this one:
    /// `just('a').lazy()` on `abc` gives `'a'`. It fails as this parser does. Each token that is left is told to the
    /// state.
    #[inline]
    final fn lazy(self) -> Lazy<Self, I, E>
    where
        I: ValueInput<'src>,
        E: ParserExtra<I>,
        ensures first { result.first ≡ self }
        ensures at_least { result.second.at_least ≡ 0 }
        ensures at_most { result.second.at_most ≡ None }
    {
        self.then_ignore(any().repeated())
    }

    /// Runs this parser with white space before it and after it, as much as there is: `text::int(10).padded()` on
    /// ` 7\n` gives `"7"`. It fails as this parser does.
    #[inline]
    final fn padded(self) -> Padded<Self, Whitespace>
        ensures { result.parser ≡ self }
    {
        self.padded_with(Whitespace)
    }

    /// Runs this parser as `padded` does, with the longest run of tokens of a kind:
    /// `just('a').padded_with(InlineWhitespace)` on ` a ` gives `'a'`, and on `a\n` the end of input is expected at
    /// 1..2.
    #[inline]
    final fn padded_with<K>(self, kind: K) -> Padded<Self, K>
        ensures parser { result.parser ≡ self }
        ensures kind { result.kind ≡ kind }
    {
        Padded { parser: self, kind }
    }

    /// Where this parser fails, runs `strategy`, one of `chumsky::recovery`, from where it began. Where that succeeds, its
    /// output stands, and the error that this parser would have reported is emitted, after what the strategy emitted:
    /// `just('a').recover_with(via_parser(any()))` on `b` gives `'b'`, and an error at 0..1. Where that fails too, so does
    /// the whole, by this parser's failure, and nothing is emitted. What this parser emitted before it failed is dropped.
    #[inline]
    final fn recover_with<S: IsStrategy<I, O, E>>(self, strategy: S) -> RecoverWith<Self, S>
        ensures parser { result.parser ≡ self }
        ensures strategy { result.strategy ≡ strategy }
    {
        RecoverWith {
            parser: self,
            strategy,
        }
    }

    /// Gives the items of this parser's output, in order: `word.into_iter().count()` on `abc` gives `3`, where `word`
    /// gives a `Vec` of characters. The parser runs once, for its output, when the items begin, and fails there; each
    /// item is then taken from the output's iterator, without a step in the input.
    #[inline]
    final fn into_iter(self) -> IntoIter<Self, O>
    where
        O: IntoIterator,
        ensures parser { result.parser ≡ self }
    {
        IntoIter {
            parser: self,
            of: PhantomData,
        }
    }

    /// Makes this parser one that `configure` can turn off: `just("foo").contextual().configure(|_, on| *on)` on `foo`
    /// gives `"foo"` where the context is `true`, and elsewhere fails at 0..0, expecting nothing else. Without
    /// `configure` it is on.
    #[inline]
    final fn contextual(self) -> Contextual<Self>
        ensures inner { result.inner ≡ self }
    {
        Contextual { inner: self }
    }
}

impl<'src, I, O, E, P: IsParser<I, O, E>> ParserExt<'src, I, O, E> for P {}
