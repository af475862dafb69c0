//! The builders and run forms of parsers of items, in the order of the Rust crate `chumsky`.
ghost use Rattle.std.specs.Prelude.{◌≡◌};
ghost use Rattle.chumsky_parse_iter.specs.Walk.{BeginsWhole};

use crate::combinator::{
    Collect, CollectExactly, Count, Enumerate, Flatten, Fold, Folder, Foldr, FoldrWith, Map,
    MapWith, Mapper, RightFolder, Then,
};
use crate::extra::ParserExtra;
use crate::input::{Input, MapExtra};
use chumsky_parse_iter::parse_iter::{ParseIter, Phase, begin};
use chumsky_parser::iter::{IsIterParser, Iterates};
use chumsky_parser::parser::IsParser;
use std::alloc::Global;
use std::marker::PhantomData;

/// The builders and run forms of parsers of items. Every parser of items has them.
///
/// An example says what `parse` of it answers of a text: its output, or the place of its error with what was expected.
pub trait IterParserExt<I, O, E>: Sized {
    /// Gives all items in a collection of the type that the caller names: `any().repeated().collect::<String>()` on
    /// `abc` gives `"abc"`. It fails as the items do. Where no output is wanted nothing is collected; a collection that
    /// is out of memory refuses the run.
    #[inline]
    final fn collect<C>(self) -> Collect<Self, O, C>
        ensures parser { result.parser ≡ self }
    {
        Collect {
            parser: self,
            of: PhantomData,
        }
    }

    /// Gives exactly as many items as the collection takes: `just('a').repeated().collect_exactly::<ArrayVec<_, 2>>()`
    /// on `aa` gives `['a', 'a']`. It asks for no more, and with fewer it fails: on `a` `'a'` is expected at 1..1.
    #[inline]
    final fn collect_exactly<C>(self) -> CollectExactly<Self, O, C>
        ensures parser { result.parser ≡ self }
    {
        CollectExactly {
            parser: self,
            of: PhantomData,
        }
    }

    /// Gives the number of items, which run without their outputs: `just('a').repeated().count()` on `aaa` gives `3`.
    /// It fails as the items do.
    #[inline]
    final fn count(self) -> Count<Self, O>
        ensures parser { result.parser ≡ self }
    {
        Count {
            parser: self,
            of: PhantomData,
        }
    }

    /// Gives each item with the number of items before it, as items again:
    /// `any().repeated().enumerate().collect::<Vec<_>>()` on `ab` gives `[(0, 'a'), (1, 'b')]`. It fails as the items
    /// do.
    #[inline]
    final fn enumerate(self) -> Enumerate<Self, O>
        ensures parser { result.parser ≡ self }
    {
        Enumerate {
            parser: self,
            of: PhantomData,
        }
    }

    /// Gives one value of all items: a clone of `init` is the first accumulator, and `folder` takes each item into it,
    /// in order. `digits.fold(0, |sum, n| sum + n)` on `123` gives `6`. It fails as the items do. Where no output is
    /// wanted nothing is cloned and `folder` is not called; a clone that is out of memory refuses the run.
    #[inline]
    final fn fold<B: Clone, F: Fn(B, O) -> B>(self, init: B, folder: F) -> Fold<F, Self, B, O>
        ensures parser { result.parser ≡ self }
        ensures init { result.init ≡ init }
        ensures folder { result.folder ≡ folder }
    {
        Fold {
            parser: self,
            init,
            folder,
            of: PhantomData,
        }
    }

    /// Folds as `fold` does, by a value of a type with an impl of `Folder`. The parser's type can then be written down,
    /// and what the folder gives is known where the parser is run.
    #[inline]
    final fn fold_by<B: Clone, F: Folder<B, O>>(self, init: B, folder: F) -> Fold<F, Self, B, O>
        ensures parser { result.parser ≡ self }
        ensures init { result.init ≡ init }
        ensures folder { result.folder ≡ folder }
    {
        Fold {
            parser: self,
            init,
            folder,
            of: PhantomData,
        }
    }

    /// Runs all items, and then `other` from where they ended: `other`'s output is the first accumulator, and `folder`
    /// takes each item into it, from the last one back. `just('-').repeated().foldr(digit, |_, n| -n)` on `--7` gives
    /// `7`. It fails where either does. The items are kept until then, and where memory for them is refused so is the
    /// run. Where no output is wanted nothing is kept and `folder` is not called.
    #[inline]
    final fn foldr<U, B: IsParser<I, U, E>, F: Fn(O, U) -> U>(
        self,
        other: B,
        folder: F,
    ) -> Foldr<F, Self, B, O>
        ensures items { result.items.parser ≡ self }
        ensures parser { result.parser ≡ other }
        ensures folder { result.folder ≡ folder }
    {
        Foldr {
            items: Collect {
                parser: self,
                of: PhantomData,
            },
            parser: other,
            folder,
        }
    }

    /// Folds as `foldr` does, by a value of a type with an impl of `RightFolder`. The parser's type can then be written
    /// down, and what the folder gives is known where the parser is run.
    #[inline]
    final fn foldr_by<U, B: IsParser<I, U, E>, F: RightFolder<O, U>>(
        self,
        other: B,
        folder: F,
    ) -> Foldr<F, Self, B, O>
        ensures items { result.items.parser ≡ self }
        ensures parser { result.parser ≡ other }
        ensures folder { result.folder ≡ folder }
    {
        Foldr {
            items: Collect {
                parser: self,
                of: PhantomData,
            },
            parser: other,
            folder,
        }
    }

    /// Folds as `foldr` does, by a closure that is shown the run too: the span from before the item's step to the end
    /// of `other`, which in a list with separators begins before the separator, the state and the context. What it
    /// writes to the state stands; where no output is wanted it is not called.
    ///
    /// ```text
    /// // Of `--7` the spans are 1..3, of the inner minus, and then 0..3.
    /// just('-').repeated().foldr_with(digit, |_, operand, e| negated(operand, e.span()))
    /// ```
    #[inline]
    final fn foldr_with<'src, U, B: IsParser<I, U, E>, F>(
        self,
        other: B,
        folder: F,
    ) -> FoldrWith<F, Self, B, O>
    where
        I: Input<'src>,
        E: ParserExtra<I>,
        F: Fn(O, U, &mut MapExtra<'src, '_, I, E>) -> U,
        ensures items { result.items ≡ self }
        ensures parser { result.parser ≡ other }
        ensures folder { result.folder ≡ folder }
    {
        FoldrWith {
            items: self,
            parser: other,
            folder,
            of: PhantomData,
        }
    }

    /// Gives the items of each item, in order: `words.separated_by(just(',')).flatten().collect::<String>()` on `ab,,c`
    /// gives `"abc"`, where `words` gives a `Vec` of characters. The items run for their outputs where none is wanted
    /// too, since how many items there are rests on them, and they are asked for progress, also below
    /// `collect_exactly`. Where one fails, the run goes back to before it, and fails.
    #[inline]
    final fn flatten(self) -> Flatten<Self, O>
    where
        O: IntoIterator,
        ensures parser { result.parser ≡ self }
    {
        Flatten {
            parser: self,
            of: PhantomData,
        }
    }

    /// Gives the items, each put through `mapper`, as items again:
    /// `any().repeated().map_items(|c| (c, 1)).collect::<Vec<_>>()` on `a` gives `[('a', 1)]`. It fails as the items
    /// do. The mapper is not called where no output is wanted. It has a name of its own since a list is a parser of
    /// `()` too, whose `map` takes that output.
    #[inline]
    final fn map_items<U, F: Fn(O) -> U>(self, mapper: F) -> Map<Self, O, F, U>
        ensures parser { result.parser ≡ self }
        ensures mapper { result.mapper ≡ mapper }
    {
        Map {
            parser: self,
            mapper,
            of: PhantomData,
        }
    }

    /// Maps items as `map_items` does, by a value of a type with an impl of `Mapper`. The parser's type can then be
    /// written down, and what the mapper gives is known where the parser is run.
    #[inline]
    final fn map_items_by<U, F: Mapper<O, U>>(self, mapper: F) -> Map<Self, O, F, U>
        ensures parser { result.parser ≡ self }
        ensures mapper { result.mapper ≡ mapper }
    {
        Map {
            parser: self,
            mapper,
            of: PhantomData,
        }
    }

    /// Maps items as `map_items` does, by a closure that is shown the run too: the span of what the item's step took,
    /// which in a list with separators begins before the separator, the state and the context.
    /// `any().repeated().map_items_with(|c, extra| (c, extra.span()))` on `ab` gives `('a', 0..1)` and `('b', 1..2)`.
    /// What it writes to the state stands; where no output is wanted it is not called.
    #[inline]
    final fn map_items_with<'src, U, F>(self, mapper: F) -> MapWith<Self, O, F, U>
    where
        I: Input<'src>,
        E: ParserExtra<I>,
        F: Fn(O, &mut MapExtra<'src, '_, I, E>) -> U,
        ensures parser { result.parser ≡ self }
        ensures mapper { result.mapper ≡ mapper }
    {
        MapWith {
            parser: self,
            mapper,
            of: PhantomData,
        }
    }

    /// Gives these items, and then those of `other`, which begins where these have ended:
    /// `just('a').repeated().then_items(just('b').repeated()).collect::<String>()` on `aabb` gives `"aabb"`, and on
    /// `aba` `'b'` or the end of input is expected at 2..3. A failure of either is the whole's. Of two lists,
    /// `a.then(b)` has the same items.
    #[inline]
    final fn then_items<B: IsIterParser<I, O, E>>(self, other: B) -> Then<Self, B, O, O>
        ensures first { result.first ≡ self }
        ensures second { result.second ≡ other }
    {
        Then {
            first: self,
            second: other,
            of: PhantomData,
        }
    }

    /// Makes an iterator over the items, run over `input` from its start, in the default state and under the default
    /// context: that of `any().repeated().parse_iter(alloc, "ab")` gives `'a'` and then `'b'`. Nothing is run yet: each
    /// call of `next` runs as far as the next item, and `finish` gives the answer at the end, whatever number of items
    /// was taken.
    ///
    /// There are no more items after the end, after a failure and after a refusal, and which of these it was `finish`
    /// says. An item of `repeated` or `separated_by` that consumes nothing where nothing caps their number is refused
    /// (`Stop::NoProgress`).
    #[inline]
    final fn parse_iter<'p, 'src>(
        &'p self,
        alloc: Global,
        input: I,
    ) -> ParseIter<'p, 'src, Self, I, O, E, I::Cursor>
    where
        I: Input<'src>,
        E: ParserExtra<I>,
        E::State: Default,
        E::Context: Default,
        Self: Iterates,
        ensures parser { result.parser ≡ self.entry }
        ensures starts { (state : E.State) × E.State.is_default state × BeginsWhole I.Input E.Error.Error E.State.Inspector E.Context.is_default input state result.parts }
        ensures phase { result.phase ≡ Phase.Unbegun }
        ensures given { result.given ≡ 0 }
    {
        begin(self, alloc, input, E::State::default())
    }

    /// Makes such an iterator as `parse_iter` does, in a state of the caller's, which `finish_with_state` hands back.
    #[inline]
    final fn parse_iter_with_state<'p, 'src>(
        &'p self,
        alloc: Global,
        input: I,
        state: E::State,
    ) -> ParseIter<'p, 'src, Self, I, O, E, I::Cursor>
    where
        I: Input<'src>,
        E: ParserExtra<I>,
        E::Context: Default,
        Self: Iterates,
        ensures parser { result.parser ≡ self.entry }
        ensures starts { BeginsWhole I.Input E.Error.Error E.State.Inspector E.Context.is_default input state result.parts }
        ensures phase { result.phase ≡ Phase.Unbegun }
        ensures given { result.given ≡ 0 }
    {
        begin(self, alloc, input, state)
    }
}

impl<I, O, E, A: IsIterParser<I, O, E>> IterParserExt<I, O, E> for A {}
