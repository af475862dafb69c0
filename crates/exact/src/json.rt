//! JSON, by a function that calls itself.
ghost use Rattle.std.specs.Prelude.{◌≡◌, [], ◌∷◌, true, false, None, IfOk, is_some};
ghost use Rattle.std.specs.Str.{chars};
ghost use Rattle.chumsky_input.specs.Run.{Runs};
ghost use Rattle.chumsky_combinator.specs.Part.{Onward};
ghost use Rattle.chumsky.specs.Accepted.{ExactlyUnless};
ghost use Rattle.chumsky_exact.specs.Deep.{IsDeep};
ghost use Rattle.exact.specs.JsonForms.{HoldsJson, IsJson};
ghost use Rattle.exact.specs.JsonLevels.{levels};

use crate::json_number::Number;
use crate::json_string::{Piece, StringOf};
use crate::json_value::Json;
use chumsky::combinator::{
    Collect, DelimitedBy, IgnoreThen, Map, Mapper, Or, SeparatedBy, Then, ThenIgnore, run_part,
};
use chumsky::error::Error;
use chumsky::extra::EmptyText;
use chumsky::input::{Input, TextRef};
use chumsky::inspector::Inspector;
use chumsky::prelude::*;
use chumsky::primitive::{End, Just};
use chumsky::recursive::{Body, Called, Recursion, RunsUnder, recursive_as};
use chumsky::text::{Kind, Run, run_of};
use chumsky::util::Plain;
use chumsky::{PResult, Stop};
use chumsky_parser::parser::Parser;
use std::alloc::Global;
use std::marker::PhantomData;

/// Spaces, tabs and ends of lines.
#[derive(Clone, Copy, Drop)]
pub struct Blank;

impl Kind<char> for Blank {
    ghost use Rattle.std.specs.Prelude.{[], ⊤};
    ghost use Rattle.exact.specs.JsonForms.{is_blank};

    ghost fits = { λ _. ⊤ };

    ghost holds = { λ _. is_blank };

    ghost wants = { λ _. [] };

    fn test(&self, token: &char) -> bool {
        *token == ' ' || *token == '\t' || *token == '\n' || *token == '\r'
    }

    fn expected(&self) -> Plain<'_> {
        Plain::Nothing
    }
}

/// Makes a value of the word `null`.
#[derive(Clone, Copy, Drop)]
pub struct ToNull;

impl Mapper<[char; 4], Json> for ToNull {
    ghost use Rattle.exact.specs.declared.json_value.Json.{Null};

    ghost gives = { λ _ _ json. json ≡ Null };

    fn apply(&self, _word: [char; 4]) -> Json {
        Json::Null
    }
}

/// Makes a truth value of its word.
#[derive(Clone, Copy, Drop)]
pub struct ToBool {
    pub value: bool,
}

impl<const N: usize> Mapper<[char; N], Json> for ToBool {
    ghost use Rattle.exact.specs.declared.json_value.Json.{Bool};

    ghost gives = { λ mapper _ json. json ≡ Bool mapper.value };

    fn apply(&self, _word: [char; N]) -> Json {
        Json::Bool(self.value)
    }
}

/// Makes a value of a number, as it is written.
#[derive(Clone, Copy, Drop)]
pub struct ToNumber;

impl Mapper<String, Json> for ToNumber {
    ghost use Rattle.exact.specs.declared.json_value.Json.{Number};

    ghost gives = { λ _ text json. json ≡ Number text };

    fn apply(&self, text: String) -> Json {
        Json::Number(text)
    }
}

/// Makes a value of a string.
#[derive(Clone, Copy, Drop)]
pub struct ToString;

impl Mapper<String, Json> for ToString {
    ghost use Rattle.exact.specs.declared.json_value.Json as json;

    ghost gives = { λ _ text value. value ≡ json.String text };

    fn apply(&self, text: String) -> Json {
        Json::String(text)
    }
}

/// Makes a value of a list of values.
#[derive(Clone, Copy, Drop)]
pub struct ToArray;

impl Mapper<Vec<Json>, Json> for ToArray {
    ghost use Rattle.exact.specs.declared.json_value.Json.{Array};

    ghost gives = { λ _ values json. json ≡ Array values };

    fn apply(&self, values: Vec<Json>) -> Json {
        Json::Array(values)
    }
}

/// Makes a value of a list of members.
#[derive(Clone, Copy, Drop)]
pub struct ToObject;

impl Mapper<Vec<(String, Json)>, Json> for ToObject {
    ghost use Rattle.exact.specs.declared.json_value.Json.{Object};

    ghost gives = { λ _ members json. json ≡ Object members };

    fn apply(&self, members: Vec<(String, Json)>) -> Json {
        Json::Object(members)
    }
}

/// The parser of blanks, be it none.
pub type Blanks<'src> = Run<Blank, &'src str, EmptyText>;

/// The parser of a character after blanks.
pub type Mark<'src> = IgnoreThen<Blanks<'src>, Just<char, &'src str, EmptyText>, &'src str>;

/// The parser of a word of `N` characters.
pub type WordParser<'src, F, const N: usize> = Map<
    Just<[char; N], &'src str, EmptyText>,
    [char; N],
    F,
    Json,
>;

/// The parser of a word, be it `null`, `true` or `false`.
pub type WordsParser<'src> = Or<
    WordParser<'src, ToNull, 4>,
    Or<WordParser<'src, ToBool, 4>, WordParser<'src, ToBool, 5>>,
>;

/// The parser of a value that has no others in it, where `N` takes numbers and `S` strings.
pub type ScalarParser<'src, N, S> = Or<
    Map<N, String, ToNumber, Json>,
    Or<Map<S, String, ToString, Json>, WordsParser<'src>>,
>;

/// A value that has no others in it: a parser with a name, as those below, so that the function that calls itself has few types
/// in it. Each is of any parsers in the place of its parts, and its laws are of theirs.
#[derive(Drop)]
pub struct ScalarOf<N, S> {
    pub number: N,
    pub string: S,
}

impl<
    'src,
    N: Parser<'src, &'src str, String, EmptyText>,
    S: Parser<'src, &'src str, String, EmptyText>,
> Parser<'src, &'src str, Json, EmptyText> for ScalarOf<N, S> {
    ghost use Rattle.std.specs.Prelude.{[], ◌∷◌, true, false, ⊤};
    ghost use Rattle.chumsky_parser.specs.ChoiceLaws.{or_else-ends};
    ghost use Rattle.chumsky_parser.specs.ChoiceLanguage.{or-accepts};
    ghost use Rattle.chumsky_combinator.specs.MappedLaws.{mapped-ends};
    ghost use Rattle.chumsky_combinator.specs.MappedLanguage.{map-accepts};
    ghost use Rattle.exact.specs.JsonLawful.{words-lawful};

    ghost ready = { λ p. N.ready p.number × S.ready p.string };

    ghost meaning = { λ p. ⟦<ScalarParser<'src, N, S> as Parser<'src, &'src str, Json, EmptyText>>⟧.meaning (record {
      first = record { parser = p.number; mapper = record {}; of = record {} };
      second = record {
        first = record { parser = p.string; mapper = record {}; of = record {} };
        second = record {
          first = record { parser = record { seq = 110 ∷ 117 ∷ 108 ∷ 108 ∷ []; of = record {} }; mapper = record {}; of = record {} };
          second = record {
            first = record { parser = record { seq = 116 ∷ 114 ∷ 117 ∷ 101 ∷ []; of = record {} }; mapper = record { value = true }; of = record {} };
            second = record { parser = record { seq = 102 ∷ 97 ∷ 108 ∷ 115 ∷ 101 ∷ []; of = record {} }; mapper = record { value = false }; of = record {} };
          };
        };
      };
    }) };

    ghost steady = { λ _. ⊥ };

    ghost same = { λ _ _ _. ⊤ };

    ghost language = { λ p. ⟦<ScalarParser<'src, N, S> as Parser<'src, &'src str, Json, EmptyText>>⟧.language (record {
      first = record { parser = p.number; mapper = record {}; of = record {} };
      second = record {
        first = record { parser = p.string; mapper = record {}; of = record {} };
        second = record {
          first = record { parser = record { seq = 110 ∷ 117 ∷ 108 ∷ 108 ∷ []; of = record {} }; mapper = record {}; of = record {} };
          second = record {
            first = record { parser = record { seq = 116 ∷ 114 ∷ 117 ∷ 101 ∷ []; of = record {} }; mapper = record { value = true }; of = record {} };
            second = record { parser = record { seq = 102 ∷ 97 ∷ 108 ∷ 115 ∷ 101 ∷ []; of = record {} }; mapper = record { value = false }; of = record {} };
          };
        };
      };
    }) };

    ghost ends_after_start = { λ p. or_else-ends _ _ _ _ _ (mapped-ends _ _ (N.ends_after_start p.number)) (or_else-ends _ _ _ _ _ (mapped-ends _ _ (S.ends_after_start p.string)) words-lawful.ends) };

    ghost agrees = { λ _ never. absurd never };

    ghost accepts = { λ p. or-accepts _ _ (λ q. q.1) _ _ (map-accepts _ _ (N.accepts p.number)) (or-accepts _ _ (λ q. q.1) _ _ (map-accepts _ _ (S.accepts p.string)) words-lawful.accepts) };

    fn go_emit(&self, inp: &mut TextRef<'src, '_, EmptyText>) -> PResult<Json> {
        scalar_of(&self.number, &self.string).go_emit(inp)
    }

    fn go_check(&self, inp: &mut TextRef<'src, '_, EmptyText>) -> PResult<()> {
        scalar_of(&self.number, &self.string).go_check(inp)
    }
}

/// The parser of what `P` takes, in brackets, with a comma between each two.
pub type ListParser<'src, P, V> = DelimitedBy<
    Collect<SeparatedBy<P, Mark<'src>, V, char, &'src str, EmptyText>, V, Vec<V>>,
    Just<char, &'src str, EmptyText>,
    Mark<'src>,
    char,
    char,
>;

/// An array of what a parser takes.
#[derive(Drop)]
pub struct ArrayOf<P> {
    pub value: P,
}

impl<'src, P: Parser<'src, &'src str, Json, EmptyText>> Parser<
    'src,
    &'src str,
    Vec<Json>,
    EmptyText,
> for ArrayOf<P> {
    ghost use Rattle.std.specs.Prelude.{false, None, ⊤};
    ghost use Rattle.chumsky_parser.specs.IgnoringLaws.{between-ends};
    ghost use Rattle.chumsky_parser.specs.SequenceLanguage.{between-accepts};
    ghost use Rattle.chumsky_items.specs.ConsumersLaws.{collects-ends};
    ghost use Rattle.chumsky_items.specs.ListLanguage.{collects-accepts};
    ghost use Rattle.chumsky_items.specs.SeparatingLaws.{separates-end};
    ghost use Rattle.chumsky_items.specs.SeparatedLanguage.{separated-accepts};
    ghost use Rattle.exact.specs.JsonLawful.{letter-lawful, mark-lawful};

    ghost ready = { λ p. P.ready p.value };

    ghost meaning = { λ p. ⟦<ListParser<'src, P, Json> as Parser<'src, &'src str, Vec<Json>, EmptyText>>⟧.meaning (record {
      parser = record {
        parser = record {
          parser = p.value;
          separator = record { first = record { kind = record {}; of = record {} }; second = record { seq = 44; of = record {} }; of = record {} };
          at_least = 0;
          at_most = None;
          allow_leading = false;
          allow_trailing = false;
          of = record {};
        };
        of = record {};
      };
      opening = record { seq = 91; of = record {} };
      closing = record { first = record { kind = record {}; of = record {} }; second = record { seq = 93; of = record {} }; of = record {} };
      of = record {};
    }) };

    ghost steady = { λ _. ⊥ };

    ghost same = { λ _ _ _. ⊤ };

    ghost language = { λ p. ⟦<ListParser<'src, P, Json> as Parser<'src, &'src str, Vec<Json>, EmptyText>>⟧.language (record {
      parser = record {
        parser = record {
          parser = p.value;
          separator = record { first = record { kind = record {}; of = record {} }; second = record { seq = 44; of = record {} }; of = record {} };
          at_least = 0;
          at_most = None;
          allow_leading = false;
          allow_trailing = false;
          of = record {};
        };
        of = record {};
      };
      opening = record { seq = 91; of = record {} };
      closing = record { first = record { kind = record {}; of = record {} }; second = record { seq = 93; of = record {} }; of = record {} };
      of = record {};
    }) };

    ghost ends_after_start = { λ p. between-ends _ _ _ (letter-lawful 91).ends
        (collects-ends _ _ _ _ (separates-end _ _ _ _ _ _ (mark-lawful 44).ends (P.ends_after_start p.value)))
        (mark-lawful 93).ends };

    ghost agrees = { λ _ never. absurd never };

    ghost accepts = { λ p. between-accepts _ _ _ (letter-lawful 91).ends
        (collects-ends _ _ _ _ (separates-end _ _ _ _ _ _ (mark-lawful 44).ends (P.ends_after_start p.value)))
        (mark-lawful 93).ends
        (letter-lawful 91).accepts
        (collects-accepts _ _ _ _ _ (separated-accepts _ _ _ _ _ _ _ _ (mark-lawful 44).ends (P.ends_after_start p.value) (mark-lawful 44).accepts (P.accepts p.value)))
        (mark-lawful 93).accepts };

    fn go_emit(&self, inp: &mut TextRef<'src, '_, EmptyText>) -> PResult<Vec<Json>> {
        list_of(&self.value, '[', ']').go_emit(inp)
    }

    fn go_check(&self, inp: &mut TextRef<'src, '_, EmptyText>) -> PResult<()> {
        list_of(&self.value, '[', ']').go_check(inp)
    }
}

/// An object of members that a parser takes.
#[derive(Drop)]
pub struct ObjectOf<P> {
    pub member: P,
}

impl<'src, P: Parser<'src, &'src str, (String, Json), EmptyText>> Parser<
    'src,
    &'src str,
    Vec<(String, Json)>,
    EmptyText,
> for ObjectOf<P> {
    ghost use Rattle.std.specs.Prelude.{false, None, ⊤};
    ghost use Rattle.chumsky_parser.specs.IgnoringLaws.{between-ends};
    ghost use Rattle.chumsky_parser.specs.SequenceLanguage.{between-accepts};
    ghost use Rattle.chumsky_items.specs.ConsumersLaws.{collects-ends};
    ghost use Rattle.chumsky_items.specs.ListLanguage.{collects-accepts};
    ghost use Rattle.chumsky_items.specs.SeparatingLaws.{separates-end};
    ghost use Rattle.chumsky_items.specs.SeparatedLanguage.{separated-accepts};
    ghost use Rattle.exact.specs.JsonLawful.{letter-lawful, mark-lawful};

    ghost ready = { λ p. P.ready p.member };

    ghost meaning = { λ p. ⟦<ListParser<'src, P, (String, Json)> as Parser<'src, &'src str, Vec<(String, Json)>, EmptyText>>⟧.meaning (record {
      parser = record {
        parser = record {
          parser = p.member;
          separator = record { first = record { kind = record {}; of = record {} }; second = record { seq = 44; of = record {} }; of = record {} };
          at_least = 0;
          at_most = None;
          allow_leading = false;
          allow_trailing = false;
          of = record {};
        };
        of = record {};
      };
      opening = record { seq = 123; of = record {} };
      closing = record { first = record { kind = record {}; of = record {} }; second = record { seq = 125; of = record {} }; of = record {} };
      of = record {};
    }) };

    ghost steady = { λ _. ⊥ };

    ghost same = { λ _ _ _. ⊤ };

    ghost language = { λ p. ⟦<ListParser<'src, P, (String, Json)> as Parser<'src, &'src str, Vec<(String, Json)>, EmptyText>>⟧.language (record {
      parser = record {
        parser = record {
          parser = p.member;
          separator = record { first = record { kind = record {}; of = record {} }; second = record { seq = 44; of = record {} }; of = record {} };
          at_least = 0;
          at_most = None;
          allow_leading = false;
          allow_trailing = false;
          of = record {};
        };
        of = record {};
      };
      opening = record { seq = 123; of = record {} };
      closing = record { first = record { kind = record {}; of = record {} }; second = record { seq = 125; of = record {} }; of = record {} };
      of = record {};
    }) };

    ghost ends_after_start = { λ p. between-ends _ _ _ (letter-lawful 123).ends
        (collects-ends _ _ _ _ (separates-end _ _ _ _ _ _ (mark-lawful 44).ends (P.ends_after_start p.member)))
        (mark-lawful 125).ends };

    ghost agrees = { λ _ never. absurd never };

    ghost accepts = { λ p. between-accepts _ _ _ (letter-lawful 123).ends
        (collects-ends _ _ _ _ (separates-end _ _ _ _ _ _ (mark-lawful 44).ends (P.ends_after_start p.member)))
        (mark-lawful 125).ends
        (letter-lawful 123).accepts
        (collects-accepts _ _ _ _ _ (separated-accepts _ _ _ _ _ _ _ _ (mark-lawful 44).ends (P.ends_after_start p.member) (mark-lawful 44).accepts (P.accepts p.member)))
        (mark-lawful 125).accepts };

    fn go_emit(&self, inp: &mut TextRef<'src, '_, EmptyText>) -> PResult<Vec<(String, Json)>> {
        list_of(&self.member, '{', '}').go_emit(inp)
    }

    fn go_check(&self, inp: &mut TextRef<'src, '_, EmptyText>) -> PResult<()> {
        list_of(&self.member, '{', '}').go_check(inp)
    }
}

/// The parser of a member, where `S` takes its name and `P` its value.
pub type MemberParser<'src, S, P> = Then<
    ThenIgnore<IgnoreThen<Blanks<'src>, S, &'src str>, Mark<'src>, char>,
    P,
    String,
    Json,
>;

/// A member: a name, a colon and a value.
#[derive(Drop)]
pub struct MemberOf<S, P> {
    pub name: S,
    pub value: P,
}

impl<
    'src,
    S: Parser<'src, &'src str, String, EmptyText>,
    P: Parser<'src, &'src str, Json, EmptyText>,
> Parser<'src, &'src str, (String, Json), EmptyText> for MemberOf<S, P> {
    ghost use Rattle.std.specs.Prelude.{⊤};
    ghost use Rattle.chumsky_parser.specs.IgnoringLaws.{ignoring_first-ends, ignoring_second-ends};
    ghost use Rattle.chumsky_parser.specs.Laws.{sequence-ends};
    ghost use Rattle.chumsky_parser.specs.SequenceLanguage.{then-accepts, ignore_then-accepts, then_ignore-accepts};
    ghost use Rattle.exact.specs.JsonLawful.{blanks-lawful, mark-lawful};

    ghost ready = { λ p. S.ready p.name × P.ready p.value };

    ghost meaning = { λ p. ⟦<MemberParser<'src, S, P> as Parser<'src, &'src str, (String, Json), EmptyText>>⟧.meaning (record {
      first = record {
        first = record { first = record { kind = record {}; of = record {} }; second = p.name; of = record {} };
        second = record { first = record { kind = record {}; of = record {} }; second = record { seq = 58; of = record {} }; of = record {} };
        of = record {};
      };
      second = p.value;
      of = record {};
    }) };

    ghost steady = { λ _. ⊥ };

    ghost same = { λ _ _ _. ⊤ };

    ghost language = { λ p. ⟦<MemberParser<'src, S, P> as Parser<'src, &'src str, (String, Json), EmptyText>>⟧.language (record {
      first = record {
        first = record { first = record { kind = record {}; of = record {} }; second = p.name; of = record {} };
        second = record { first = record { kind = record {}; of = record {} }; second = record { seq = 58; of = record {} }; of = record {} };
        of = record {};
      };
      second = p.value;
      of = record {};
    }) };

    ghost ends_after_start = { λ p. sequence-ends _ _
        (ignoring_second-ends _ _ (ignoring_first-ends _ _ blanks-lawful.ends (S.ends_after_start p.name)) (mark-lawful 58).ends)
        (P.ends_after_start p.value) };

    ghost agrees = { λ _ never. absurd never };

    ghost accepts = { λ p. then-accepts _ _
        (ignoring_second-ends _ _ (ignoring_first-ends _ _ blanks-lawful.ends (S.ends_after_start p.name)) (mark-lawful 58).ends)
        (P.ends_after_start p.value)
        (then_ignore-accepts _ _
        (ignoring_first-ends _ _ blanks-lawful.ends (S.ends_after_start p.name)) (mark-lawful 58).ends
        (ignore_then-accepts _ _ blanks-lawful.ends (S.ends_after_start p.name) blanks-lawful.accepts (S.accepts p.name)) (mark-lawful 58).accepts)
        (P.accepts p.value) };

    fn go_emit(&self, inp: &mut TextRef<'src, '_, EmptyText>) -> PResult<(String, Json)> {
        member_of(&self.name, &self.value).go_emit(inp)
    }

    fn go_check(&self, inp: &mut TextRef<'src, '_, EmptyText>) -> PResult<()> {
        member_of(&self.name, &self.value).go_check(inp)
    }
}

/// The parser of a value after blanks, where `S` takes those that have no others in them, `A` arrays and `O` objects.
pub type ValueParser<'src, S, A, O> = IgnoreThen<
    Blanks<'src>,
    Or<S, Or<Map<A, Vec<Json>, ToArray, Json>, Map<O, Vec<(String, Json)>, ToObject, Json>>>,
    &'src str,
>;

/// A value after blanks.
#[derive(Drop)]
pub struct ValueOf<S, A, O> {
    pub scalar: S,
    pub array: A,
    pub object: O,
}

impl<
    'src,
    S: Parser<'src, &'src str, Json, EmptyText>,
    A: Parser<'src, &'src str, Vec<Json>, EmptyText>,
    O: Parser<'src, &'src str, Vec<(String, Json)>, EmptyText>,
> Parser<'src, &'src str, Json, EmptyText> for ValueOf<S, A, O> {
    ghost use Rattle.std.specs.Prelude.{⊤};
    ghost use Rattle.chumsky_parser.specs.ChoiceLaws.{or_else-ends};
    ghost use Rattle.chumsky_parser.specs.ChoiceLanguage.{or-accepts};
    ghost use Rattle.chumsky_parser.specs.IgnoringLaws.{ignoring_first-ends};
    ghost use Rattle.chumsky_parser.specs.SequenceLanguage.{ignore_then-accepts};
    ghost use Rattle.chumsky_combinator.specs.MappedLaws.{mapped-ends};
    ghost use Rattle.chumsky_combinator.specs.MappedLanguage.{map-accepts};
    ghost use Rattle.exact.specs.JsonLawful.{blanks-lawful};

    ghost ready = { λ p. S.ready p.scalar × (A.ready p.array × O.ready p.object) };

    ghost meaning = { λ p. ⟦<ValueParser<'src, S, A, O> as Parser<'src, &'src str, Json, EmptyText>>⟧.meaning (record {
      first = record { kind = record {}; of = record {} };
      second = record { first = p.scalar; second = record { first = record { parser = p.array; mapper = record {}; of = record {} }; second = record { parser = p.object; mapper = record {}; of = record {} } } };
      of = record {};
    }) };

    ghost steady = { λ _. ⊥ };

    ghost same = { λ _ _ _. ⊤ };

    ghost language = { λ p. ⟦<ValueParser<'src, S, A, O> as Parser<'src, &'src str, Json, EmptyText>>⟧.language (record {
      first = record { kind = record {}; of = record {} };
      second = record { first = p.scalar; second = record { first = record { parser = p.array; mapper = record {}; of = record {} }; second = record { parser = p.object; mapper = record {}; of = record {} } } };
      of = record {};
    }) };

    ghost ends_after_start = { λ p. ignoring_first-ends _ _ blanks-lawful.ends
        (or_else-ends _ _ _ _ _ (S.ends_after_start p.scalar) (or_else-ends _ _ _ _ _ (mapped-ends _ _ (A.ends_after_start p.array)) (mapped-ends _ _ (O.ends_after_start p.object)))) };

    ghost agrees = { λ _ never. absurd never };

    ghost accepts = { λ p. ignore_then-accepts _ _ blanks-lawful.ends
        (or_else-ends _ _ _ _ _ (S.ends_after_start p.scalar) (or_else-ends _ _ _ _ _ (mapped-ends _ _ (A.ends_after_start p.array)) (mapped-ends _ _ (O.ends_after_start p.object))))
        blanks-lawful.accepts
        (or-accepts _ _ (λ q. q.1) _ _ (S.accepts p.scalar) (or-accepts _ _ (λ q. q.1) _ _ (map-accepts _ _ (A.accepts p.array)) (map-accepts _ _ (O.accepts p.object)))) };

    fn go_emit(&self, inp: &mut TextRef<'src, '_, EmptyText>) -> PResult<Json> {
        value_of(&self.scalar, &self.array, &self.object).go_emit(inp)
    }

    fn go_check(&self, inp: &mut TextRef<'src, '_, EmptyText>) -> PResult<()> {
        value_of(&self.scalar, &self.array, &self.object).go_check(inp)
    }
}

/// The parser of any value, where `P` takes the values in it.
pub type AnyValue<P> = ValueOf<
    ScalarOf<Number, StringOf<Piece>>,
    ArrayOf<P>,
    ObjectOf<MemberOf<StringOf<Piece>, P>>,
>;

/// The parser of what may stand after a value.
pub type Rest<'src> = Then<Blanks<'src>, End<&'src str, EmptyText>, &'src str, ()>;

/// What the body of `any_value` is.
#[derive(Drop)]
pub struct OfValue;

impl<'src, P: Parser<'src, &'src str, Json, EmptyText>> Body<'src, &'src str, Json, EmptyText, P>
    for OfValue {
    ghost use Rattle.chumsky_descent.specs.Body.{told};

    ghost body = { λ call. told ⟦<AnyValue<P> as Parser<'src, &'src str, Json, EmptyText>>⟧ (record {
      scalar = record { number = record {}; string = record { piece = record {} } };
      array = record { value = call };
      object = record { member = record { name = record { piece = record {} }; value = call } };
    }) };
}

impl<'src> Recursion<'src, &'src str, Json, EmptyText> for OfValue {
    ghost use Rattle.chumsky_descent.specs.Exactly.{exactly};
    ghost use Rattle.chumsky_descent.specs.Lawful.{then-lawful, ignore_then-lawful, then_ignore-lawful, between-lawful, or-lawful, map-lawful, repeated-lawful, separated-lawful};
    ghost use Rattle.exact.specs.contracts.json.OfValueBodyRefStrJsonEmptyText.TheImpl.{ghosts, no_dict};
    ghost use denote.Builtin.{unit};
    ghost use Rattle.exact.specs.JsonGrammar.{values};
    ghost use Rattle.exact.specs.JsonLawful.{blanks-lawful, letter-lawful, mark-lawful, words-lawful, piece-lawful};
    ghost use Rattle.exact.specs.Lawfully.{number-lawful};

    ghost says = { λ errors states. exactly (λ call. (ghosts unit call no_dict).body tt) errors states values
        (λ call l h. ignore_then-lawful blanks-lawful
        (or-lawful
        (or-lawful (map-lawful (number-lawful ⟦<&'src str as Input<'src>>⟧ errors states))
        (or-lawful (map-lawful (between-lawful (letter-lawful 34) (repeated-lawful piece-lawful) (letter-lawful 34))) words-lawful))
        (or-lawful
        (map-lawful (between-lawful (letter-lawful 91) (separated-lawful h (mark-lawful 44)) (mark-lawful 93)))
        (map-lawful (between-lawful (letter-lawful 123)
        (separated-lawful
        (then-lawful (then_ignore-lawful (ignore_then-lawful blanks-lawful (between-lawful (letter-lawful 34) (repeated-lawful piece-lawful) (letter-lawful 34))) (mark-lawful 58)) h)
        (mark-lawful 44))
        (mark-lawful 125)))))) };
}

/// The parser of spaces, tabs and ends of lines, be it none.
pub fn blanks<'src>() -> Blanks<'src> {
    run_of(Blank)
}

/// The parser of a character, after blanks.
pub fn mark<'src>(character: char) -> Mark<'src>
    ensures { result.second.seq ≡ character }
{
    blanks().ignore_then(just(character))
}

/// The parser of the word `null`.
pub fn null_word<'src>() -> WordParser<'src, ToNull, 4>
    ensures { result.parser.seq ≡ 110 ∷ 117 ∷ 108 ∷ 108 ∷ [] }
{
    just(['n', 'u', 'l', 'l']).map_by(ToNull)
}

/// The parser of the word `true`.
pub fn true_word<'src>() -> WordParser<'src, ToBool, 4>
    ensures word { result.parser.seq ≡ 116 ∷ 114 ∷ 117 ∷ 101 ∷ [] }
    ensures value { result.mapper.value ≡ true }
{
    just(['t', 'r', 'u', 'e']).map_by(ToBool { value: true })
}

/// The parser of the word `false`.
pub fn false_word<'src>() -> WordParser<'src, ToBool, 5>
    ensures word { result.parser.seq ≡ 102 ∷ 97 ∷ 108 ∷ 115 ∷ 101 ∷ [] }
    ensures value { result.mapper.value ≡ false }
{
    just(['f', 'a', 'l', 's', 'e']).map_by(ToBool { value: false })
}

/// The parser of a value that has no others in it.
fn scalar_of<'src, N, S>(number: N, string: S) -> ScalarParser<'src, N, S>
    ensures number { result.first.parser ≡ number }
    ensures string { result.second.first.parser ≡ string }
    ensures null { result.second.second.first.parser.seq ≡ 110 ∷ 117 ∷ 108 ∷ 108 ∷ [] }
    ensures yes { result.second.second.second.first.parser.seq ≡ 116 ∷ 114 ∷ 117 ∷ 101 ∷ [] }
    ensures is_yes { result.second.second.second.first.mapper.value ≡ true }
    ensures no { result.second.second.second.second.parser.seq ≡ 102 ∷ 97 ∷ 108 ∷ 115 ∷ 101 ∷ [] }
    ensures is_no { result.second.second.second.second.mapper.value ≡ false }
{
    let truth = true_word().or(false_word());
    Or {
        first: Map {
            parser: number,
            mapper: ToNumber,
            of: PhantomData,
        },
        second: Or {
            first: Map {
                parser: string,
                mapper: ToString,
                of: PhantomData,
            },
            second: null_word().or(truth),
        },
    }
}

/// The parser of what a parser takes, in brackets, with a comma between each two.
fn list_of<'src, P, V>(item: P, opening: char, closing: char) -> ListParser<'src, P, V>
    ensures item { result.parser.parser.parser ≡ item }
    ensures comma { result.parser.parser.separator.second.seq ≡ 44 }
    ensures at_least { result.parser.parser.at_least ≡ 0 }
    ensures at_most { result.parser.parser.at_most ≡ None }
    ensures leading { result.parser.parser.allow_leading ≡ false }
    ensures trailing { result.parser.parser.allow_trailing ≡ false }
    ensures opening { result.opening.seq ≡ opening }
    ensures closing { result.closing.second.seq ≡ closing }
{
    let items = SeparatedBy {
        parser: item,
        separator: mark(','),
        at_least: 0,
        at_most: None,
        allow_leading: false,
        allow_trailing: false,
        of: PhantomData,
    };
    let items = items.collect::<Vec<V>>();
    items.delimited_by(just(opening), mark(closing))
}

/// The parser of a member: a name and a value, with a colon between them.
fn member_of<'src, S, P>(name: S, value: P) -> MemberParser<'src, S, P>
    ensures name { result.first.first.second ≡ name }
    ensures colon { result.first.second.second.seq ≡ 58 }
    ensures value { result.second ≡ value }
{
    let name = IgnoreThen {
        first: blanks(),
        second: name,
        of: PhantomData,
    };
    Then {
        first: ThenIgnore {
            first: name,
            second: mark(':'),
            of: PhantomData,
        },
        second: value,
        of: PhantomData,
    }
}

/// The parser of a value after blanks.
fn value_of<'src, S, A, O>(scalar: S, array: A, object: O) -> ValueParser<'src, S, A, O>
    ensures scalar { result.second.first ≡ scalar }
    ensures array { result.second.second.first.parser ≡ array }
    ensures object { result.second.second.second.parser ≡ object }
{
    IgnoreThen {
        first: blanks(),
        second: Or {
            first: scalar,
            second: Or {
                first: Map {
                    parser: array,
                    mapper: ToArray,
                    of: PhantomData,
                },
                second: Map {
                    parser: object,
                    mapper: ToObject,
                    of: PhantomData,
                },
            },
        },
        of: PhantomData,
    }
}

/// Runs the parser of any value, where `call` takes the values in it.
pub fn run_value<'src, P: Parser<'src, &'src str, Json, EmptyText> + Copy + Drop>(
    call: P,
    wanted: bool,
    inp: &mut TextRef<'src, '_, EmptyText>,
) -> PResult<Option<Json>>
    requires { P.ready call }
    ensures ran { Runs ⟦<&'src str as Input<'src>>⟧ ⟦<EmptyErr as Error<&'src str>>⟧ ⟦<() as Inspector<&'src str>>⟧
        (Onward (⟦<AnyValue<P> as Parser<'src, &'src str, Json, EmptyText>>⟧.meaning (record {
          scalar = record { number = record {}; string = record { piece = record {} } };
          array = record { value = call };
          object = record { member = record { name = record { piece = record {} }; value = call } };
        }) ⟦<EmptyErr as Error<&'src str>>⟧ ⟦<() as Inspector<&'src str>>⟧)) wanted inp.old inp.new result }
    ensures as_wanted { IfOk result (λ value. is_some value ≡ wanted) }
    ensures lent { inp.new.state.ghost_name ≡ inp.old.state.ghost_name }
{
    let value = ValueOf {
        scalar: ScalarOf {
            number: Number,
            string: StringOf { piece: Piece },
        },
        array: ArrayOf { value: call },
        object: ObjectOf {
            member: MemberOf {
                name: StringOf { piece: Piece },
                value: call,
            },
        },
    };
    run_part(&value, wanted, inp)
}

/// A value, after blanks.
fn any_value<'src>(
    inp: &mut TextRef<'src, '_, EmptyText>,
    wanted: bool,
    depth: usize,
) -> PResult<Option<Json>>
    ensures { ⟦<OfValue as RunsUnder<'src, &'src str, Json, EmptyText>>⟧.runs depth wanted inp.old inp.new result }
{
    let call: Called<_, OfValue, _, _, _> = Called {
        function: any_value,
        depth,
        of: PhantomData,
    };
    run_value(call, wanted, inp)
}

/// Reads JSON, as ` {"a": [1.5e3, "b", null]}`: a number as it is written, and members in their order, also two of one name. Of any
/// other text there is no output. A run is refused for memory; or with `TooDeep`, only where `limit` arrays and objects or more stand
/// within one another, or of a text of `limit` characters or more that is no JSON.
pub fn parse_json(
    alloc: Global,
    text: &str,
    limit: usize,
) -> Result<ParseResult<Json, EmptyErr>, Stop>
    ensures { ExactlyUnless HoldsJson (chars text.now) (IsDeep IsJson levels limit (chars text.now)) result }
{
    let value = recursive_as::<OfValue, _, _, _, EmptyText>(any_value, limit);
    value.then_ignore(blanks().then(end())).parse(alloc, text)
}
