//! The builders that map and judge what a parser answers, in the order of the Rust crate `chumsky`.
ghost use Rattle.std.specs.Prelude.{◌≡◌};

use crate::combinator::{
    AtSpan, Filter, FilterMap, FromStr, HandsOn, Ignored, Map, MapErr, MapErrWith, MapErrWithState,
    MapIn, MapWith, Mapper, MapperIn, PickBy, Picker, ReadStr, Spanned, TestBy, Tester, To,
    ToSlice, ToSpan, TryMap, TryMapIn, TryMapWith, TryMapper, Unwrapped, Validate,
};
use crate::extra::ParserExtra;
use crate::input::{Emitter, Input, MapExtra, SliceInput, Tokens};
use crate::label::Labelled;
use chumsky_parser::parser::IsParser;
use std::alloc::{AllocError, Global};
use std::convert::AsStr;
use std::marker::PhantomData;
use std::str;

/// The builders that map what one parser answers, its output or its error, or judge its output. Every parser has them.
///
/// An example says what `parse` of it answers of a text: its output, or the place of its error with what was expected.
pub trait MapParserExt<'src, I, O, E>: Sized {
    /// Gives the slice of the input that this parser took, in place of its output, which isn't made:
    /// `just('a').repeated().to_slice()` on `aa` gives `"aa"`. It fails as this parser does.
    #[inline]
    final fn to_slice(self) -> ToSlice<Self, O>
    where
        I: SliceInput<'src>,
        ensures parser { result.parser ≡ self }
    {
        ToSlice {
            parser: self,
            of: PhantomData,
        }
    }

    /// Gives this parser's output where `tester` says true of it, where no output is wanted too:
    /// `any().filter(|c| *c < 'm')` on `a` gives `'a'`. On `z` something else is expected at 0..1: a refused output
    /// fails at the start, over what this parser took, and this parser's own failures are dropped.
    #[inline]
    final fn filter<F: Fn(&O) -> bool>(self, tester: F) -> Filter<Self, F>
        ensures parser { result.parser ≡ self }
        ensures tester { result.tester ≡ tester }
    {
        Filter {
            parser: self,
            tester,
        }
    }

    /// Filters as `filter` does, by a value of a type with an impl of `Tester`. The parser's type can then be written
    /// down, and what the test says is known where the parser is run.
    #[inline]
    final fn filter_by<F: Tester<O>>(self, tester: F) -> Filter<Self, F>
        ensures parser { result.parser ≡ self }
        ensures tester { result.tester ≡ tester }
    {
        Filter {
            parser: self,
            tester,
        }
    }

    /// Filters as `filter_by` does, by a tester that decides by the word that was taken, so that it is known which words are
    /// accepted.
    #[inline]
    final fn test_by<F: Tester<O>>(self, tester: F) -> TestBy<Self, F>
        ensures parser { result.tested.parser ≡ self }
        ensures tester { result.tested.tester ≡ tester }
    {
        TestBy {
            tested: Filter {
                parser: self,
                tester,
            },
        }
    }

    /// Gives what is in the `Some` that `picker` makes of this parser's output: `any().filter_map(|c| c.to_digit(10))`
    /// on `3` gives `3`. Where it makes `None`, this fails as `filter` does.
    #[inline]
    final fn filter_map<U, F: Fn(O) -> Option<U>>(self, picker: F) -> FilterMap<Self, O, F, U>
        ensures parser { result.parser ≡ self }
        ensures picker { result.picker ≡ picker }
    {
        FilterMap {
            parser: self,
            picker,
            of: PhantomData,
        }
    }

    /// Picks as `filter_map` does, by a value of a type with an impl of `Picker`. The parser's type can then be written
    /// down, and what is picked is known where the parser is run.
    #[inline]
    final fn filter_map_by<U, F: Picker<O, U>>(self, picker: F) -> FilterMap<Self, O, F, U>
        ensures parser { result.parser ≡ self }
        ensures picker { result.picker ≡ picker }
    {
        FilterMap {
            parser: self,
            picker,
            of: PhantomData,
        }
    }

    /// Picks as `filter_map_by` does, by a picker that decides by the word that was taken, so that it is known which words
    /// are accepted: `text::int(10).pick_by(text::decimal::<u8>())` on `42` gives `42`, and on `256` it fails at 0.
    #[inline]
    final fn pick_by<U, F: Picker<O, U>>(self, picker: F) -> PickBy<Self, O, F, U>
        ensures parser { result.picked.parser ≡ self }
        ensures picker { result.picked.picker ≡ picker }
    {
        PickBy {
            picked: FilterMap {
                parser: self,
                picker,
                of: PhantomData,
            },
        }
    }

    /// Gives what `mapper` makes of this parser's output: `any().map(|c| (c, 1))` on `a` gives `('a', 1)`. The mapper
    /// is not called where no output is wanted. It fails as this parser does.
    #[inline]
    final fn map<U, F: Fn(O) -> U>(self, mapper: F) -> Map<Self, O, F, U>
        ensures parser { result.parser ≡ self }
        ensures mapper { result.mapper ≡ mapper }
    {
        Map {
            parser: self,
            mapper,
            of: PhantomData,
        }
    }

    /// Maps as `map` does, by a value of a type with an impl of `Mapper`. The parser's type can then be written down,
    /// and what the mapper gives is known where the parser is run.
    #[inline]
    final fn map_by<U, F: Mapper<O, U>>(self, mapper: F) -> Map<Self, O, F, U>
        ensures parser { result.parser ≡ self }
        ensures mapper { result.mapper ≡ mapper }
    {
        Map {
            parser: self,
            mapper,
            of: PhantomData,
        }
    }

    /// Maps as `map` does, by a closure that is shown the run too: the span of what was taken, the state and the
    /// context. `any().map_with(|c, extra| (c, extra.span()))` on `é` gives `('é', 0..2)`. What the closure writes to
    /// the state stands; where no output is wanted it is not called, and so writes nothing.
    #[inline]
    final fn map_with<U, F>(self, mapper: F) -> MapWith<Self, O, F, U>
    where
        I: Input<'src>,
        E: ParserExtra<I>,
        F: Fn(O, &mut MapExtra<'src, '_, I, E>) -> U,
        ensures parser { result.parser ≡ self }
        ensures mapper { result.mapper ≡ mapper }
    {
        MapWith {
            parser: self,
            mapper,
            of: PhantomData,
        }
    }

    /// Maps as `map` does, by a closure that is given the run's allocator too, and answers an `Err` where it has no memory
    /// for its output: `text::int(10).map_in(|digits, alloc| String::from_str(alloc, digits))` on `12` gives the `String`
    /// `12`. An `Err` refuses the run by `Stop::Memory`. So `a.map_in(|tree, _| tree)` gives the tree in each output of a
    /// parser of `Result<Tree, AllocError>`. The closure is not called where no output is wanted.
    #[inline]
    final fn map_in<U, F>(self, mapper: F) -> MapIn<Self, O, F, U>
    where
        F: Fn(O, Global) -> Result<U, AllocError>,
        ensures parser { result.parser ≡ self }
        ensures mapper { result.mapper ≡ mapper }
    {
        MapIn {
            parser: self,
            mapper,
            of: PhantomData,
        }
    }

    /// Maps as `map_in` does, by a value of a type with an impl of `MapperIn`. The parser's type can then be written down,
    /// and what the mapper gives is known where the parser is run.
    #[inline]
    final fn map_in_by<U, F: MapperIn<O, U>>(self, mapper: F) -> MapIn<Self, O, F, U>
        ensures parser { result.parser ≡ self }
        ensures mapper { result.mapper ≡ mapper }
    {
        MapIn {
            parser: self,
            mapper,
            of: PhantomData,
        }
    }

    /// Gives the span of what this parser took, in place of its output, which isn't made: `just("ab").to_span()` on
    /// `ab` gives `0..2`. It fails as this parser does.
    #[inline]
    final fn to_span(self) -> ToSpan<Self, O>
        ensures parser { result.parser ≡ self }
    {
        ToSpan {
            parser: self,
            of: PhantomData,
        }
    }

    /// Gives this parser's output with the span of what it took: `any().spanned()` on `é` gives
    /// `Spanned { inner: 'é', span: 0..2 }`. It fails as this parser does.
    #[inline]
    final fn spanned(self) -> Spanned<Self, O>
        ensures parser { result.parser ≡ self }
    {
        Spanned {
            parser: self,
            of: PhantomData,
        }
    }

    /// Gives what `mapper` makes of this parser's output and its span, where no output is wanted too:
    /// `digit.try_map(|n, span| if n < 5 { Ok(n) } else { Err(too_large(span)) })` on `3` gives `3`, and fails on `7`
    /// with that error at 0..1. An error of the mapper is the failure, at the start, and this parser's own failures are
    /// dropped.
    #[inline]
    final fn try_map<U, F>(self, mapper: F) -> TryMap<Self, O, F, U>
    where
        I: Tokens,
        E: ParserExtra<I>,
        F: Fn(O, I::Span) -> Result<U, E::Error>,
        ensures parser { result.parser ≡ self }
        ensures mapper { result.mapper ≡ mapper }
    {
        TryMap {
            parser: self,
            mapper,
            of: PhantomData,
        }
    }

    /// Maps as `try_map` does, by a value of a type with an impl of `TryMapper`. The parser's type can then be written
    /// down, and what the mapper answers is known where the parser is run.
    #[inline]
    final fn try_map_by<U, F>(self, mapper: F) -> TryMap<Self, O, F, U>
    where
        I: Tokens,
        E: ParserExtra<I>,
        F: TryMapper<O, I::Span, U, E::Error>,
        ensures parser { result.parser ≡ self }
        ensures mapper { result.mapper ≡ mapper }
    {
        TryMap {
            parser: self,
            mapper,
            of: PhantomData,
        }
    }

    /// Maps as `try_map` does, by a closure that is given the run's allocator too, so that its error may have a message:
    /// `digit.try_map_in(|n, span, alloc| if n < 5 { Ok(Ok(n)) } else { Ok(Err(Rich::custom_in(alloc, span, "no")?)) })`
    /// on `3` gives `3`, and fails on `7` with that error at 0..1. An `Ok(Err(error))` is the failure, as an `Err` of
    /// `try_map` is, and an `Err` refuses the run by `Stop::Memory`; both where no output is wanted too.
    #[inline]
    final fn try_map_in<U, F>(self, mapper: F) -> TryMapIn<Self, O, F, U, I, E>
    where
        I: Tokens,
        E: ParserExtra<I>,
        F: Fn(O, I::Span, Global) -> Result<Result<U, E::Error>, AllocError>,
        ensures parser { result.parser.parser.parser ≡ self }
        ensures mapper { result.parser.mapper.mapper ≡ mapper }
    {
        TryMap {
            parser: MapIn {
                parser: self.spanned(),
                mapper: AtSpan { mapper },
                of: PhantomData,
            },
            mapper: HandsOn,
            of: PhantomData,
        }
    }

    /// Maps as `try_map` does, by a closure that is shown the run in place of the span alone, as that of `map_with` is:
    /// `digit.try_map_with(|n, extra| if n < 5 { Ok(n) } else { Err(too_large(extra.span())) })` on `3` gives `3`, and
    /// fails on `7` with that error at 0..1.
    #[inline]
    final fn try_map_with<U, F>(self, mapper: F) -> TryMapWith<Self, O, F, U>
    where
        I: Input<'src>,
        E: ParserExtra<I>,
        F: Fn(O, &mut MapExtra<'src, '_, I, E>) -> Result<U, E::Error>,
        ensures parser { result.parser ≡ self }
        ensures mapper { result.mapper ≡ mapper }
    {
        TryMapWith {
            parser: self,
            mapper,
            of: PhantomData,
        }
    }

    /// Runs this parser without its output, and gives `()`: `just('a').ignored()` on `a`. It fails as this parser does.
    #[inline]
    final fn ignored(self) -> Ignored<Self, O>
        ensures parser { result.parser ≡ self }
    {
        Ignored {
            parser: self,
            of: PhantomData,
        }
    }

    /// Runs this parser without its output, and gives a clone of `value`: `just('a').to(1)` on `a` gives `1`. Nothing
    /// is cloned where no output is wanted; a clone that is out of memory refuses the run.
    #[inline]
    final fn to<U: Clone>(self, value: U) -> To<Self, O, U>
        ensures parser { result.parser ≡ self }
        ensures value { result.value ≡ value }
    {
        To {
            parser: self,
            value,
            of: PhantomData,
        }
    }

    /// Names this parser: where it fails at its start, its error says that the label was expected.
    /// `just('a').labelled("an a")` on `b` expected an a at 0..1. A failure further on stays as it is.
    #[inline]
    final fn labelled<L>(self, label: L) -> Labelled<Self, L>
        ensures parser { result.parser ≡ self }
        ensures label { result.label ≡ label }
    {
        Labelled {
            parser: self,
            label,
        }
    }

    /// Puts the error of this parser's failure through `mapper`: `just('a').map_err(|e| Rich::custom(*e.span(), no_a))`
    /// on `b` fails with that message at 0..1. It is the one error that would be reported, and it stands at the place
    /// of that failure. An error that was there before is not mapped, and without one the mapper isn't called.
    #[inline]
    final fn map_err<F>(self, mapper: F) -> MapErr<Self, F>
    where
        I: Tokens,
        E: ParserExtra<I>,
        F: Fn(E::Error) -> E::Error,
        ensures parser { result.parser ≡ self }
        ensures mapper { result.mapper ≡ mapper }
    {
        MapErr {
            parser: self,
            mapper,
        }
    }

    /// Maps the error as `map_err` does, by a closure that is handed the span from the start to where the failed part
    /// left the cursor, and the state: `just('a').map_err_with_state(|_, span, state| ..)` on `b` is handed 0..0.
    #[inline]
    final fn map_err_with_state<F>(self, mapper: F) -> MapErrWithState<Self, F>
    where
        I: Tokens,
        E: ParserExtra<I>,
        F: Fn(E::Error, I::Span, &mut E::State) -> E::Error,
        ensures parser { result.parser ≡ self }
        ensures mapper { result.mapper ≡ mapper }
    {
        MapErrWithState {
            parser: self,
            mapper,
        }
    }

    /// Maps the error as `map_err` does, by a closure that is shown the run too: that span, the state and the context.
    /// `just('a').map_err_with(|_, extra| no_a(extra.span()))` on `b` fails with that error at 0..0.
    #[inline]
    final fn map_err_with<F>(self, mapper: F) -> MapErrWith<Self, F>
    where
        I: Input<'src>,
        E: ParserExtra<I>,
        F: Fn(E::Error, &mut MapExtra<'src, '_, I, E>) -> E::Error,
        ensures parser { result.parser ≡ self }
        ensures mapper { result.mapper ≡ mapper }
    {
        MapErrWith {
            parser: self,
            mapper,
        }
    }

    /// Gives what `validator` makes of this parser's output, where no output is wanted too. It is shown the run as that
    /// of `map_with` is, and may emit errors, which stand after those that this parser emitted, beside the output:
    /// where `digit.validate(|n, extra, emitter| ..)` emits one on `7`, the answer has `7` and that error. It fails as
    /// this parser does. Where the emitter was out of memory, the run is refused once the validator has returned.
    #[inline]
    final fn validate<U, F>(self, validator: F) -> Validate<Self, O, F, U>
    where
        I: Input<'src>,
        E: ParserExtra<I>,
        F: Fn(O, &mut MapExtra<'src, '_, I, E>, &mut Emitter<E::Error>) -> U,
        ensures parser { result.parser ≡ self }
        ensures validator { result.validator ≡ validator }
    {
        Validate {
            parser: self,
            validator,
            of: PhantomData,
        }
    }

    /// Reads this parser's text as a `U` by that type's `FromStr`, and gives what that answers, a value or an error of
    /// its own: `text::int(10).from_str::<u8>()` on `12` gives `Ok(12)`, and on `300` an `Err`. It fails as this parser
    /// does. Nothing is read where no output is wanted.
    #[inline]
    final fn from_str<U: str::FromStr>(self) -> FromStr<Self, O, U>
    where
        O: AsStr + Drop,
        ensures parser { result.parser ≡ self }
    {
        self.map_by(ReadStr { of: PhantomData })
    }

    /// Gives what is in this parser's output, which is always `Some`, or always `Ok`: `just('a').map(Some).unwrapped()`
    /// on `a` gives `'a'`. It fails as this parser does. That the output is so is the caller's to show, where the
    /// parser is run; where it can't be shown, `filter_map` and `try_map` ask at run time.
    #[inline]
    final fn unwrapped(self) -> Unwrapped<Self, O>
        ensures parser { result.parser ≡ self }
    {
        Unwrapped {
            parser: self,
            of: PhantomData,
        }
    }
}

impl<'src, I, O, E, P: IsParser<I, O, E>> MapParserExt<'src, I, O, E> for P {}
