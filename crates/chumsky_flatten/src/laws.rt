//! Laws of items out of collections, each the contract of a function that does nothing.
ghost use Rattle.chumsky_flatten.specs.Running.{IntoIterGives, FlattenGives};

use crate::flatten::Flatten;
use crate::into_iter::IntoIter;
use chumsky_input::extra::ParserExtra;
use chumsky_input::input::Input;
use chumsky_items::collect::Collect;
use chumsky_parser::iter::IterParser;
use chumsky_parser::parser::Parser;

/// What `into_iter` gives, collected into a `Vec`, are the items of its parser's output, in order; and where the one says
/// yes, so does the parser, with the same end, state, events and emitted errors.
pub fn into_iter_gives_the_items_of_the_output<'src, I, O, E, A>(
    collect: &Collect<IntoIter<A, O>, O::Item, Vec<O::Item>>,
)
where
    I: Input<'src>,
    O: IntoIterator,
    O::Item: Drop,
    E: ParserExtra<I>,
    A: Parser<'src, I, O, E>,
    ensures { IntoIterGives E.Error.Error E.State.Inspector O.into_iter_gives O.IntoIter.next_gives A.meaning
        ⟦<Collect<IntoIter<A, O>, O::Item, Vec<O::Item>> as Parser<'src, I, Vec<O::Item>, E>>⟧.meaning collect.now }
{}

/// What `flatten` gives, collected into a `Vec`, are the items of each collection that its parser gives, in order. Where the
/// one says yes, so does `collect` of these collections, with the same end, state, events and emitted errors, unless they
/// are more than can be counted: `flatten` counts the empty ones anew at each of its items, and the items themselves. And the
/// other way round, the items of whatever collections `collect` gives are a yes of the one, unless there are more of them
/// than can be counted.
pub fn flatten_gives_the_items_of_each_collection<'src, I, O, E, A>(
    collect: &Collect<Flatten<A, O>, O::Item, Vec<O::Item>>,
)
where
    I: Input<'src>,
    O: IntoIterator + Drop,
    O::Item: Drop,
    E: ParserExtra<I>,
    A: IterParser<'src, I, O, E>,
    ensures { FlattenGives E.Error.Error E.State.Inspector O.into_iter_gives O.IntoIter.next_gives A.begins A.gives
        ⟦<Collect<Flatten<A, O>, O::Item, Vec<O::Item>> as Parser<'src, I, Vec<O::Item>, E>>⟧.meaning collect.now }
{}
