//! Parser combinators: parsers are values, made of smaller ones and run over a text or a slice of tokens.
//!
//! The modules are those of the Rust crate `chumsky`. Most programs need `use chumsky::prelude::*;` alone.
#![tactic(auto)]

mod config_parser_ext;
mod iter_parser_ext;
mod macros;
mod made;
mod map_parser_ext;
mod memory;
mod moving_part;
mod parser_ext;
pub mod prelude;
mod refusals;
mod run;
mod simple_values;
mod steady;

/// Inputs, and what a parser is lent.
pub mod input {
    pub use chumsky_input::emitter::Emitter;
    pub use chumsky_input::input::{BorrowInput, Input, SliceInput, Tokens, ValueInput};
    pub use chumsky_input::input_ref::{Checkpoint, Finished, InputRef, Located};
    pub use chumsky_input::map_extra::MapExtra;
    pub use chumsky_input::mapped_input::{MappedInput, Pairs, TakesApart, map_input};
    pub use chumsky_input::offset_text::{OffsetText, text_at};
    pub use chumsky_input::spanned_tokens::{SpannedTokens, split_spanned};
    pub use chumsky_input::stop::Failure;
    pub use chumsky_parser::input_ref_ext::InputRefExt;

    /// Where a run over a text stands, as the body of a part gets it: `inp: &mut TextRef<'src, '_, RichText>`.
    pub type TextRef<'src, 'parse, E> = InputRef<'src, 'parse, &'src str, E>;
}

/// Ranges of the input.
pub mod span {
    pub use chumsky_input::span::{SimpleSpan, Spanned};
}

/// Small helpers that parsers and errors share.
pub mod util {
    pub use chumsky_input::same::SameClone;
    pub use chumsky_input::util::{Expectation, MaybeLabel, MaybeRef, Plain, Sole};
}

/// What errors say.
pub mod error {
    pub use chumsky_input::error::{EmptyErr, Error};
    pub use chumsky_input::rich::{Rich, RichPattern};
    pub use chumsky_input::simple::{Cheap, Simple};
    pub use chumsky_input::util::DefaultExpected;
}

/// Errors as they are shown to people.
pub mod report {
    pub use chumsky_report::in_text::in_text;
    pub use chumsky_report::index::{LineIndex, Source};
    pub use chumsky_report::line::{Place, place_of};
    pub use chumsky_report::report::{ByteReport, Report, TokenReport};
}

/// Sequences of tokens, and what items are collected into.
pub mod container {
    pub use chumsky_items::container::{Container, ContainerExactly};
    pub use chumsky_parser::char_set::{CharSet, chars_of};
    pub use chumsky_parser::container::{OrderedSeq, Seq};
}

/// The types of a parser beside its input and its output.
pub mod extra {
    pub use chumsky_input::extra::{
        Context, Default, EmptyText, Err, Full, ParserExtra, RichBytes, RichText, RichTokens,
        SimpleText, State,
    };
}

/// What is parsed where a parser fails, while its error is emitted.
pub mod recovery {
    pub use chumsky_recovery::moves::MovingStrategy;
    pub use chumsky_recovery::nested_delimiters::{Closes, NestedDelimiters, nested_delimiters};
    pub use chumsky_recovery::recover_with::RecoverWith;
    pub use chumsky_recovery::skip_then_retry_until::{SkipThenRetryUntil, skip_then_retry_until};
    pub use chumsky_recovery::skip_until::{Fallback, SkipUntil, skip_until};
    pub use chumsky_recovery::strategy::{IsStrategy, Strategy};
    pub use chumsky_recovery::via_parser::{ViaParser, via_parser};
}

/// States of a parser.
pub mod inspector {
    pub use chumsky_context::states::{RollbackState, SimpleState, TruncateState};
    pub use chumsky_input::inspector::Inspector;
}

/// Parsers of single tokens and of fixed sequences, parsers given by closures, and choices, groups and sets of parsers.
pub mod primitive {
    pub use chumsky_choice::choice::Choice;
    pub use chumsky_choice::make::choice;
    pub use chumsky_context::just_cfg::JustCfg;
    pub use chumsky_context::map_ctx::{ContextMapper, MapCtx, map_ctx, map_ctx_by};
    pub use chumsky_context::one_of_cfg::OneOfCfg;
    pub use chumsky_group::group::Group;
    pub use chumsky_group::make::group;
    pub use chumsky_group::parts::Parts;
    pub use chumsky_primitive::any::Any;
    pub use chumsky_primitive::any_ref::AnyRef;
    pub use chumsky_primitive::custom::{Custom, Reader};
    pub use chumsky_primitive::empty::Empty;
    pub use chumsky_primitive::end::End;
    pub use chumsky_primitive::just::Just;
    pub use chumsky_primitive::make::{
        any, any_ref, custom, custom_by, empty, end, just, none_of, one_of, select, select_ref,
    };
    pub use chumsky_primitive::none_of::NoneOf;
    pub use chumsky_primitive::one_of::OneOf;
    pub use chumsky_primitive::select::Select;
    pub use chumsky_primitive::select_ref::SelectRef;
    pub use chumsky_set::array::Slots;
    pub use chumsky_set::make::set;
    pub use chumsky_set::set::Set;
}

/// Operators by precedence: see `ParserExt::pratt`.
pub mod pratt {
    pub use chumsky_pratt::fixity::{Associativity, Fixity, left, none, right};
    pub use chumsky_pratt::folder_with::InfixFolderWith;
    pub use chumsky_pratt::folders::{InfixFolder, PostfixFolder, PrefixFolder};
    pub use chumsky_pratt::list::{FoundAt, OperatorList};
    pub use chumsky_pratt::make::{
        infix, infix_by, infix_with, postfix, postfix_by, postfix_with, prefix, prefix_by,
        prefix_with,
    };
    pub use chumsky_pratt::operands::Operands;
    pub use chumsky_pratt::operator::{HasOutput, Infix, Operator, Postfix, Prefix};
    pub use chumsky_pratt::operator_with::{InfixWith, PostfixWith, PrefixWith};
    pub use chumsky_pratt::pratt::Pratt;
    pub use chumsky_pratt::row::{Found, HasFound, LastOperator, OperatorAnd, Operators};
    pub use chumsky_pratt::rows::IntoRow;

    /// What holds of operators, as those of `chumsky::laws`.
    pub mod laws {
        pub use chumsky_pratt::laws::{
            a_round_is_read_by_choice, a_value_is_read_by_choice, a_weak_operator_is_passed_over,
            an_operator_past_the_bound_is_passed_over, associativity_decides, none_does_not_chain,
            the_stronger_binds_first, without_operators_an_expression_is_its_atom,
        };
    }
}

/// Parsers made of parsers.
pub mod combinator {
    pub use crate::made::{AtSpan, FromStr, HandsOn, Lazy, ReadStr, TryMapIn};
    pub use chumsky_combinator::delimited_by::DelimitedBy;
    pub use chumsky_combinator::ignore_then::IgnoreThen;
    pub use chumsky_combinator::ignored::Ignored;
    pub use chumsky_combinator::map::{Map, Mapper};
    pub use chumsky_combinator::map_in::{MapIn, MapperIn};
    pub use chumsky_combinator::map_with::{MapWith, MapperWith};
    pub use chumsky_combinator::or::Or;
    pub use chumsky_combinator::or_not::OrNot;
    pub use chumsky_combinator::padded_by::PaddedBy;
    pub use chumsky_combinator::part::{OfPart, Part, part_of, run_part};
    pub use chumsky_combinator::then::Then;
    pub use chumsky_combinator::then_ignore::ThenIgnore;
    pub use chumsky_combinator::to::To;
    pub use chumsky_context::configure::Configure;
    pub use chumsky_context::configurer::{Configurer, TryConfigurer};
    pub use chumsky_context::contextual::Contextual;
    pub use chumsky_context::ignore_with_ctx::IgnoreWithCtx;
    pub use chumsky_context::iter_configure::IterConfigure;
    pub use chumsky_context::nested_in::NestedIn;
    pub use chumsky_context::repeated_cfg::RepeatedCfg;
    pub use chumsky_context::spanned::Spanned;
    pub use chumsky_context::then_with_ctx::ThenWithCtx;
    pub use chumsky_context::to_slice::ToSlice;
    pub use chumsky_context::to_span::ToSpan;
    pub use chumsky_context::try_iter_configure::TryIterConfigure;
    pub use chumsky_context::with_ctx::WithCtx;
    pub use chumsky_context::with_state::WithState;
    pub use chumsky_descent::exact_part::{ExactPart, OfExactPart, exact_part};
    pub use chumsky_flatten::flatten::Flatten;
    pub use chumsky_flatten::into_iter::IntoIter;
    pub use chumsky_folds::enumerate::Enumerate;
    pub use chumsky_folds::fold::Fold;
    pub use chumsky_folds::folder::{Folder, RightFolder};
    pub use chumsky_folds::folder_with::{FolderWith, RightFolderWith, TryFolder};
    pub use chumsky_folds::foldl::Foldl;
    pub use chumsky_folds::foldl_with::FoldlWith;
    pub use chumsky_folds::foldr::Foldr;
    pub use chumsky_folds::foldr_with::FoldrWith;
    pub use chumsky_folds::try_foldl::TryFoldl;
    pub use chumsky_items::collect::Collect;
    pub use chumsky_items::collect_exactly::CollectExactly;
    pub use chumsky_items::count::Count;
    pub use chumsky_items::repeated::Repeated;
    pub use chumsky_items::separated_by::SeparatedBy;
    pub use chumsky_judge::and_is::AndIs;
    pub use chumsky_judge::filter::{Filter, Tester};
    pub use chumsky_judge::filter_map::{FilterMap, Picker};
    pub use chumsky_judge::map_err::MapErr;
    pub use chumsky_judge::map_err_with::MapErrWith;
    pub use chumsky_judge::map_err_with_state::MapErrWithState;
    pub use chumsky_judge::not::Not;
    pub use chumsky_judge::pick_by::{PickBy, WordPicker};
    pub use chumsky_judge::rewind::Rewind;
    pub use chumsky_judge::test_by::{TestBy, WordTester};
    pub use chumsky_judge::try_map::{TryMap, TryMapper};
    pub use chumsky_judge::try_map_with::TryMapWith;
    pub use chumsky_judge::unwrapped::Unwrapped;
    pub use chumsky_judge::validate::Validate;
}

/// Labels: names for what parsers expect.
pub mod label {
    pub use chumsky_label::label_error::LabelError;
    pub use chumsky_label::labelled::Labelled;

    /// What holds of labelled parsers, as those of `chumsky::laws`.
    pub mod laws {
        pub use chumsky_label::label_error::rich_takes_one_label;
        pub use chumsky_label::laws::labelled_answers_as_its_part;
    }
}

/// Parsers of text: white space, ends of lines, numbers, identifiers and keywords, over texts and bytes; and the kinds of
/// tokens that they are made of.
pub mod text {
    pub use chumsky_text::chars::{Char, TextInput};
    pub use chumsky_text::decimal::{DecimalOf, Fixed, decimal};
    pub use chumsky_text::ident::{AsciiIdent, AsciiIdentRest, UnicodeIdent, UnicodeIdentRest};
    pub use chumsky_text::keyword::Keyword;
    pub use chumsky_text::kind::{Kind, Lexeme};
    pub use chumsky_text::make::{
        digits, inline_whitespace, int, newline, run_of, whitespace, word_of,
    };
    pub use chumsky_text::newline::Newline;
    pub use chumsky_text::number::{Digits, Int, IntRest};
    pub use chumsky_text::padded::Padded;
    pub use chumsky_text::run::Run;
    pub use chumsky_text::sliced::Sliced;
    pub use chumsky_text::space::{InlineWhitespace, LineEnd, LineEndRest, Whitespace};
    pub use chumsky_text::unicode::{ident, keyword};
    pub use chumsky_text::word::Word;
    pub use chumsky_text::{ascii, unicode};
}

/// Recursion: calls of functions that call themselves; and rules as data, the parser that runs them, whether they are well-founded,
/// which leaves move, and why a call on them is refused.
pub mod recursive {
    pub use crate::moving_part::run_moving;
    pub use crate::simple_values::{SimpleValues, Simply};
    pub use chumsky_combinator::part::MovingPart;
    pub use chumsky_descent::hole::Body;
    pub use chumsky_descent::moving::MovingRecursion;
    pub use chumsky_descent::recursive::{
        Called, Recursion, RunsUnder, Unsaid, recursive, recursive_as,
    };
    pub use chumsky_parser::moving::{MayStay, Moving, MovingItems};
    pub use chumsky_recursive::actions::Actions;
    pub use chumsky_recursive::closing::CloseRules;
    pub use chumsky_recursive::evaluator::step;
    pub use chumsky_recursive::founded::{FoundedError, close_founded};
    pub use chumsky_recursive::frames::Todo;
    pub use chumsky_recursive::grammar::{Grammar, close};
    pub use chumsky_recursive::leaves::{Leaves, Values};
    pub use chumsky_recursive::stack::Stack;
    pub use chumsky_rules::closed::Closed;
    pub use chumsky_rules::errors::{BuildError, CloseError, DefineError, RecursiveError};
    pub use chumsky_rules::founded::WellFounded;
    pub use chumsky_rules::kinds::{Node, Recursive, SepCfg};
    pub use chumsky_rules::rules::Rules;
}

/// Rules that can be looked at: as EBNF, and as a railroad diagram.
pub mod debug {
    pub use chumsky_debug::debug::DebugInfo;
    pub use chumsky_debug::ebnf::Ebnf;
    pub use chumsky_debug::railroad::RailroadSvg;
}

/// Laws of grammars, each the contract of a function that does nothing, or looks at the nodes alone: how answers under limits
/// agree, and for what well-founded rules are refused.
pub mod grammar_laws {
    pub use crate::refusals::founded_runs_are_refused_as_leaves;
    pub use chumsky_recursive::laws::{
        a_run_begins_with_room, an_answer_is_derived, answers_agree_under_any_limit,
        answers_stand_under_a_greater_limit, founded_grammars_are_refused_as_leaves,
        founded_rules_make_progress, founded_rules_stay_within_depth, lists_count_their_items,
        open_calls_never_go_back, rules_that_never_wait_ask_for_no_memory, two_derivations_agree,
    };
    pub use chumsky_rules::caps::caps_fit;
}

/// Laws of parsers that recover, as those of `laws`: what each answer of one is.
pub mod recovery_laws {
    pub use chumsky_recovery::laws::{
        a_quiet_success_is_the_parsers, it_fails_only_where_its_parser_does,
        recover_with_tells_each_failure, without_a_failure_it_does_as_its_parser,
    };
}

/// Laws of parsers, each the contract of a function that does nothing: what they mean beside one another. Those of operators, of
/// labels, of parsers that recover and of grammars are `pratt::laws`, `label::laws`, `recovery_laws` and `grammar_laws`.
pub mod laws {
    pub use chumsky_choice::alternatives::Alternatives;
    pub use chumsky_choice::laws::{
        choice_agrees_by_one_alternative, choice_is_repeated_or,
        choice_of_a_list_agrees_by_one_alternative, one_alternative_of_a_list_stands,
        one_alternative_stands,
    };
    pub use chumsky_combinator::laws::{
        ignore_then_agrees_with_then, map_with_by_a_blind_mapper_is_map,
        or_agrees_by_one_alternative, or_not_never_says_no, then_is_associative,
    };
    pub use chumsky_flatten::laws::{
        flatten_gives_the_items_of_each_collection, into_iter_gives_the_items_of_the_output,
    };
    pub use chumsky_folds::laws::{
        enumerate_numbers_from_zero, fold_is_the_fold_of_what_collect_gives,
        foldl_is_the_fold_of_what_collect_gives, foldl_with_by_a_blind_folder_is_foldl,
        foldr_is_the_fold_of_the_reverse, foldr_with_by_a_blind_folder_is_foldr,
        try_foldl_that_never_refuses_is_foldl_with,
    };
    pub use chumsky_group::laws::{group_of_three_is_then_twice, group_of_two_is_then};
    pub use chumsky_items::laws::{
        collect_exactly_adds_no_event, count_is_the_length_of_collect,
        repeated_is_one_more_or_no_more, repeated_never_gives_more_than_its_cap,
        separated_by_never_ends_with_a_separator,
    };
    pub use chumsky_judge::laws::{
        and_is_ends_where_its_first_part_ends, filter_gives_what_passed,
        filter_map_gives_what_was_picked, filter_map_of_all_answers_as_its_part,
        filter_of_all_answers_as_its_part, map_err_succeeds_as_its_part,
        map_err_with_state_succeeds_as_its_part, map_err_with_succeeds_as_its_part,
        not_ends_where_it_began, rewind_ends_where_it_began, try_map_of_all_answers_as_its_part,
        try_map_with_by_a_blind_closure_is_try_map,
        validate_that_emits_nothing_answers_as_its_part,
    };
    pub use chumsky_parse_iter::laws::{
        finish_answers_the_whole, items_are_the_first_of_those_that_collect_gives,
        once_none_is_given_none_is_any_more, run_may_be_asked,
    };
    pub use chumsky_set::laws::{
        a_list_takes_at_most_one_round_more, a_set_takes_at_most_one_round_more,
    };

    /// Which parsers are ready, and which are steady, and what is known of outputs that count as the same.
    pub mod steady {
        pub use crate::steady::from_str_is_steady;
        pub use crate::steady::lazy_is_steady;
        pub use crate::steady::try_map_in_is_steady;
        pub use chumsky_choice::alternatives::choice_is_steady;
        pub use chumsky_choice::lists::choice_of_a_list_is_steady;
        pub use chumsky_combinator::delimited_by::delimited_by_is_steady;
        pub use chumsky_combinator::ignore_then::ignore_then_is_steady;
        pub use chumsky_combinator::map::map_is_steady;
        pub use chumsky_combinator::map_in::map_in_is_steady;
        pub use chumsky_combinator::map_items::map_items_is_steady;
        pub use chumsky_combinator::map_items_with::map_items_with_is_steady;
        pub use chumsky_combinator::map_with::map_with_is_steady;
        pub use chumsky_combinator::or::or_is_steady;
        pub use chumsky_combinator::part::part_is_steady;
        pub use chumsky_combinator::then::then_is_steady;
        pub use chumsky_combinator::then_items::then_items_is_steady;
        pub use chumsky_combinator::to::to_is_steady;
        pub use chumsky_context::configure::configure_is_steady;
        pub use chumsky_context::contextual::contextual_is_steady;
        pub use chumsky_context::ignore_with_ctx::any_under_any_is_steady;
        pub use chumsky_context::ignore_with_ctx::ignore_with_ctx_is_steady;
        pub use chumsky_context::ignore_with_ctx_items::ignored_items_with_ctx_are_steady;
        pub use chumsky_context::iter_configure::configured_items_are_steady;
        pub use chumsky_context::iter_configure::configured_list_is_steady;
        pub use chumsky_context::just_cfg::configured_just_is_steady;
        pub use chumsky_context::map_ctx::map_ctx_is_steady;
        pub use chumsky_context::nested_in::any_nested_in_any_is_steady;
        pub use chumsky_context::nested_in::nested_in_is_steady;
        pub use chumsky_context::one_of_cfg::configured_one_of_is_steady;
        pub use chumsky_context::spanned::spanned_is_steady;
        pub use chumsky_context::then_with_ctx::then_with_ctx_is_steady;
        pub use chumsky_context::then_with_ctx_items::items_with_ctx_are_steady;
        pub use chumsky_context::to_slice::to_slice_is_steady;
        pub use chumsky_context::to_span::to_span_is_steady;
        pub use chumsky_context::try_iter_configure::tried_list_is_steady;
        pub use chumsky_context::try_iter_configure::try_configure_is_steady;
        pub use chumsky_context::with_ctx::with_ctx_is_steady;
        pub use chumsky_context::with_state::with_state_is_steady;
        pub use chumsky_descent::laws::exact_part_is_steady;
        pub use chumsky_descent::laws::recursive_is_steady;
        pub use chumsky_flatten::flatten::flatten_is_steady;
        pub use chumsky_flatten::into_iter::into_iter_is_steady;
        pub use chumsky_folds::enumerate::enumerate_is_steady;
        pub use chumsky_folds::fold::fold_is_steady;
        pub use chumsky_folds::foldl::foldl_is_steady;
        pub use chumsky_folds::foldl_with::foldl_with_is_steady;
        pub use chumsky_folds::foldr::foldr_is_steady;
        pub use chumsky_folds::foldr_with::foldr_with_is_steady;
        pub use chumsky_folds::try_foldl::try_foldl_is_steady;
        pub use chumsky_group::arrays::group_of_an_array_is_steady;
        pub use chumsky_group::parts::group_is_steady;
        pub use chumsky_items::collect::collect_is_steady;
        pub use chumsky_items::collect_exactly::collect_exactly_is_steady;
        pub use chumsky_items::repeated::repeated_is_steady;
        pub use chumsky_items::separated_by::separated_by_is_steady;
        pub use chumsky_judge::and_is::and_is_is_steady;
        pub use chumsky_judge::filter::filter_is_steady;
        pub use chumsky_judge::filter_map::filter_map_is_steady;
        pub use chumsky_judge::map_err::map_err_is_steady;
        pub use chumsky_judge::map_err_with::map_err_with_is_steady;
        pub use chumsky_judge::map_err_with_state::map_err_with_state_is_steady;
        pub use chumsky_judge::not::not_is_steady;
        pub use chumsky_judge::pick_by::pick_by_is_steady;
        pub use chumsky_judge::test_by::test_by_is_steady;
        pub use chumsky_judge::try_map::try_map_is_steady;
        pub use chumsky_judge::try_map_with::try_map_with_is_steady;
        pub use chumsky_judge::unwrapped::unwrapped_is_steady;
        pub use chumsky_judge::validate::validate_is_steady;
        pub use chumsky_label::labelled::labelled_is_steady;
        pub use chumsky_parser::blanket::by_reference_is_steady;
        pub use chumsky_parser::either_parser::either_is_steady;
        pub use chumsky_pratt::list::operators_of_a_list_are_steady;
        pub use chumsky_pratt::operator::infix_is_steady;
        pub use chumsky_pratt::operator::postfix_is_steady;
        pub use chumsky_pratt::operator::prefix_is_steady;
        pub use chumsky_pratt::operator_with::infix_with_is_steady;
        pub use chumsky_pratt::operator_with::postfix_with_is_steady;
        pub use chumsky_pratt::operator_with::prefix_with_is_steady;
        pub use chumsky_pratt::pratt::pratt_is_steady;
        pub use chumsky_pratt::row::operators_are_steady;
        pub use chumsky_primitive::any::any_is_steady;
        pub use chumsky_primitive::any_ref::any_ref_is_steady;
        pub use chumsky_primitive::custom::closures_may_read;
        pub use chumsky_primitive::custom::custom_is_steady;
        pub use chumsky_primitive::end::end_is_steady;
        pub use chumsky_primitive::just::just_is_steady;
        pub use chumsky_primitive::one_of::one_of_is_steady;
        pub use chumsky_primitive::select::select_is_steady;
        pub use chumsky_primitive::select_ref::select_ref_is_steady;
        pub use chumsky_recovery::nested_delimiters::closes_is_steady;
        pub use chumsky_recovery::recover_with::recover_with_is_steady;
        pub use chumsky_recovery::skip_then_retry_until::skip_then_retry_until_is_steady;
        pub use chumsky_recovery::skip_until::skip_until_is_steady;
        pub use chumsky_recovery::via_parser::via_parser_is_steady;
        pub use chumsky_recursive::grammar::grammar_is_steady;
        pub use chumsky_recursive::laws::leaves_are_steady;
        pub use chumsky_set::set::set_is_steady;
        pub use chumsky_set::set::set_of_a_list_is_steady;
        pub use chumsky_text::keyword::keyword_is_steady;
        pub use chumsky_text::kind::tokens_may_be_tested;
        pub use chumsky_text::newline::newline_is_steady;
        pub use chumsky_text::padded::padded_is_steady;
        pub use chumsky_text::run::run_is_steady;
        pub use chumsky_text::word::word_is_steady;
    }

    /// Which parsers are never refused for memory: primitives, where tokens, errors and states take none, and what is made of parts
    /// that never are. A run of one wants memory for nothing but the errors of a failure.
    pub mod memory {
        pub use crate::memory::{memory_is_wanted_only_for_errors, these_take_no_memory};
        pub use chumsky_choice::alternatives::choice_is_never_out_of_memory;
        pub use chumsky_choice::lists::choice_of_a_list_is_never_out_of_memory;
        pub use chumsky_combinator::delimited_by::delimited_by_is_never_out_of_memory;
        pub use chumsky_combinator::ignore_then::ignore_then_is_never_out_of_memory;
        pub use chumsky_combinator::map::map_is_never_out_of_memory;
        pub use chumsky_combinator::or::or_is_never_out_of_memory;
        pub use chumsky_combinator::then::then_is_never_out_of_memory;
        pub use chumsky_combinator::to::to_is_never_out_of_memory;
        pub use chumsky_context::to_slice::to_slice_is_never_out_of_memory;
        pub use chumsky_context::to_span::to_span_is_never_out_of_memory;
        pub use chumsky_descent::laws::recursive_is_never_out_of_memory;
        pub use chumsky_group::arrays::group_of_an_array_is_never_out_of_memory;
        pub use chumsky_group::parts::group_is_never_out_of_memory;
        pub use chumsky_items::count::count_is_never_out_of_memory;
        pub use chumsky_items::repeated::repeated_is_never_out_of_memory;
        pub use chumsky_items::separated_by::separated_by_is_never_out_of_memory;
        pub use chumsky_judge::filter::filter_is_never_out_of_memory;
        pub use chumsky_judge::filter_map::filter_map_is_never_out_of_memory;
        pub use chumsky_judge::try_map::try_map_is_never_out_of_memory;
        pub use chumsky_parser::parser::a_run_is_never_out_of_memory;
        pub use chumsky_primitive::any::any_is_never_out_of_memory;
        pub use chumsky_primitive::end::end_is_never_out_of_memory;
        pub use chumsky_primitive::just::just_is_never_out_of_memory;
        pub use chumsky_primitive::one_of::one_of_is_never_out_of_memory;
        pub use chumsky_recovery::laws::{
            closes_is_out_of_memory_only_to_nest, recover_with_is_out_of_memory_only_to_tell,
            skip_then_retry_until_is_never_out_of_memory, skip_until_is_never_out_of_memory,
            via_parser_is_never_out_of_memory,
        };
    }
}

pub use chumsky_context::config::{ConfigParser, Configurable, IsConfigParser};
pub use chumsky_context::config_iter::{ConfigIterParser, IsConfigIterParser};
pub use chumsky_input::same::SameClone;
pub use chumsky_input::stop::{Failure, Fault, PResult, Stop};
pub use chumsky_input::util::DefaultExpected;
pub use chumsky_parse_iter::parse_iter::ParseIter;
pub use chumsky_parser::input_ref_ext::InputRefExt;
pub use chumsky_parser::iter::{IsIterParser, IterParser, IterParserDebug, Iterates};
pub use chumsky_parser::parser::{IsParser, Parser};
pub use chumsky_parser::result::ParseResult;
pub use config_parser_ext::{ConfigIterParserExt, ConfigParserExt};
pub use iter_parser_ext::IterParserExt;
pub use map_parser_ext::MapParserExt;
pub use parser_ext::ParserExt;
