//! What comes next, as steps hand it on.
ghost use Rattle.std.specs.Prelude.{◌≡◌};
ghost use Rattle.chumsky_recursive.specs.NextStep.{todo_of};

use chumsky_input::stop::PResult;
use chumsky_rules::kinds::Node;
use std::marker::Model;

/// A node begins, for its value or without it, under calls that may open so many more rules; or the node that ran last answers.
///
/// An answer begins with its tags: whether it is a success, whether it has a value, and often that of the value. Where a node's
/// number lay over them, each step would take it apart into bytes, and put it together again. So three words are left out before it.
#[derive(Drop)]
pub(crate) enum Coming<V> {
    Begin(bool, [u64; 3], Node, usize),
    Answer(PResult<Option<V>>),
}

/// What comes next. Contracts see a `Todo`.
#[derive(Drop)]
pub(crate) struct Next<V> {
    pub(crate) coming: Coming<V>,
}

impl<V> Model for Next<V> {
    ghost use Rattle.chumsky_recursive.specs.declared.frames.Todo.{Todo};
    ghost use Rattle.chumsky_recursive.specs.NextStep.{todo_of};

    ghost Value = { Todo V };

    ghost view = { λ n. todo_of n.coming };
}

/// Whether a node begins, or one has answered.
#[inline(always)]
pub(crate) fn opened<V: Drop>(next: Next<V>) -> Coming<V>
    ensures { todo_of result ≡ next }
{
    let Next { coming } = next;
    coming
}

/// A node begins, under calls that may open so many more rules, for its value or without it.
#[macro_export]
macro_rules! begins {
    ($node:expr, $more:expr, $wanted:expr) => {
        $crate::next::Next { coming: $crate::next::Coming::Begin($wanted, [0; 3], $node, $more) }
    };
}

/// The node that ran last answers.
#[macro_export]
macro_rules! answers {
    ($answer:expr) => {
        $crate::next::Next { coming: $crate::next::Coming::Answer($answer) }
    };
}
