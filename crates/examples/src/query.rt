//! A query to the domain name system (DNS), in bytes.
ghost use Rattle.std.specs.Prelude.{◌≡◌, [], true, Some, None, IfOk, IsTrue, is_some};
ghost use Rattle.chumsky.specs.Accepted.{AnswersText, Exactly};
ghost use Rattle.examples.specs.Query.{IsQuery};

use chumsky::combinator::{
    Collect, Map, Mapper, PickBy, Picker, Repeated, Then, ThenIgnore, WordPicker,
};
use chumsky::error::Error;
use chumsky::extra::{ParserExtra, RichBytes};
use chumsky::input::{Input, InputRef};
use chumsky::inspector::Inspector;
use chumsky::prelude::*;
use chumsky::primitive::{Any, Group, Just};
use chumsky::{IsParser, PResult, Stop};
use chumsky_exact::context::DecidedByWord;
use chumsky_exact::make::{headed, prefixed, so_many};
use chumsky_exact::prefixed::Prefixed;
use chumsky_exact::so_many::{HowMany, SoMany};
use chumsky_parser::parser::Parser;
use std::alloc::Global;

/// What a query begins with.
#[derive(Clone, Copy, Debug, PartialEq)]
pub struct Head {
    pub id: u16,
    pub flags: u16,
    /// How many questions follow.
    pub questions: u16,
    /// How many records of three kinds follow the questions. A query has none of the first two.
    pub answers: u16,
    pub authorities: u16,
    pub additionals: u16,
}

/// The head asks for as many questions as it says.
impl HowMany for Head {
    ghost number = { λ head. head.questions };

    fn how_many(&self) -> usize {
        self.questions as usize
    }
}

/// A question: the labels of a name, and what is asked of it.
#[derive(Debug, PartialEq, Drop)]
pub struct Question {
    pub name: Vec<Vec<u8>>,
    pub kind: u16,
    pub class: u16,
}

/// A query.
#[derive(Debug, PartialEq, Drop)]
pub struct Query {
    pub head: Head,
    pub questions: Vec<Question>,
}

/// Errors that say what was expected and found among bytes, under the head of a query, and under the length of a label.
pub type UnderHead = extra::Full<Rich<u8>, (), Head>;

pub type UnderLength = extra::Full<Rich<u8>, (), u8>;

/// The parser of any byte, and of any two.
pub type Byte<'src, E> = Any<&'src [u8], E>;

pub type TwoBytes<'src, E> = Then<Byte<'src, E>, Byte<'src, E>, u8, u8>;

/// The parser of a number of two bytes.
pub type NumberParser<'src, E> = PickBy<TwoBytes<'src, E>, (u8, u8), ToNumber, u16>;

/// Six numbers, their parser, and that of a head.
pub type SixNumbers = (u16, u16, u16, u16, u16, u16);

pub type SixParser = Group<(Number, Number, Number, Number, Number, Number)>;

pub type HeadParser = PickBy<SixParser, SixNumbers, ToHead, Head>;

/// The parser of a label, which has its length in a byte before it.
pub type LabelParser<'src> = Prefixed<
    PickBy<Byte<'src, UnderHead>, u8, ToLength, u8>,
    SoMany<Byte<'src, UnderLength>, u8, Vec<u8>>,
    u8,
    &'src [u8],
    UnderLength,
>;

/// The parser of labels, and of a question.
pub type LabelsParser<'src> = ThenIgnore<
    Collect<Repeated<Label, Vec<u8>, &'src [u8], UnderHead>, Vec<u8>, Vec<Vec<u8>>>,
    Just<u8, &'src [u8], UnderHead>,
    u8,
>;

pub type QuestionParser<'src> = Map<
    Group<(LabelsParser<'src>, NumberUnder, NumberUnder)>,
    (Vec<Vec<u8>>, u16, u16),
    ToQuestion,
    Question,
>;

/// Makes a number of two bytes, the high one first.
#[derive(Clone, Copy, Drop)]
pub struct ToNumber;

impl Picker<(u8, u8), u16> for ToNumber {
    ghost use Rattle.std.specs.Prelude.{◌≡◌, ◌+◌, ◌*◌, ◌<◌, Some};

    ghost gives = { λ _ bytes number. (bytes.1 < 256) × (number ≡ Some (bytes.0 * 256 + bytes.1)) };

    fn pick(&self, bytes: (u8, u8)) -> Option<u16> {
        Some(u16::from_be_bytes([bytes.0, bytes.1]))
    }
}

impl<'src, E: ParserExtra<&'src [u8]>> WordPicker<
    'src,
    &'src [u8],
    (u8, u8),
    u16,
    E,
    TwoBytes<'src, E>,
> for ToNumber {
    ghost use Rattle.examples.specs.QueryPicks.{number_of};
    ghost use Rattle.examples.specs.QueryPicksLaws.{number-by_word};

    ghost picks = { λ _. number_of };

    ghost by_word = { λ f p w v x s g. number-by_word w v x s g };
}

/// Makes a head of six numbers.
#[derive(Clone, Copy, Drop)]
pub struct ToHead;

impl Picker<SixNumbers, Head> for ToHead {
    ghost use Rattle.std.specs.Prelude.{◌≡◌, Some};
    ghost use Rattle.examples.specs.QueryPicks.{head_of};

    ghost gives = { λ _ numbers head. head ≡ Some (head_of numbers) };

    fn pick(&self, numbers: SixNumbers) -> Option<Head> {
        let (id, flags, questions, answers, authorities, additionals) = numbers;
        Some(Head {
            id,
            flags,
            questions,
            answers,
            authorities,
            additionals,
        })
    }
}

impl<'src> WordPicker<'src, &'src [u8], SixNumbers, Head, RichBytes, SixParser> for ToHead {
    ghost use Rattle.examples.specs.QueryPicks.{packet_head};
    ghost use Rattle.examples.specs.QueryPicksLaws.{head-by_word};

    ghost picks = { λ _. packet_head };

    ghost by_word = { λ f p w v x s g. head-by_word w v x s g };
}

/// Takes the length of a label, which is from 1 to 63.
#[derive(Clone, Copy, Drop)]
pub struct ToLength;

impl Picker<u8, u8> for ToLength {
    ghost use Rattle.std.specs.Prelude.{◌≡◌};
    ghost use Rattle.examples.specs.QueryPicks.{length_of};

    ghost gives = { λ _ byte length. length ≡ length_of byte };

    fn pick(&self, byte: u8) -> Option<u8> {
        if 0 < byte && byte < 64 {
            return Some(byte);
        }
        None
    }
}

impl<'src> WordPicker<'src, &'src [u8], u8, u8, UnderHead, Byte<'src, UnderHead>> for ToLength {
    ghost use Rattle.examples.specs.QueryPicks.{label_length};
    ghost use Rattle.examples.specs.QueryPicksLaws.{length-by_word};

    ghost picks = { λ _. label_length };

    ghost by_word = { λ f p w v x s g. length-by_word w v x s g };
}

/// Makes a question.
#[derive(Clone, Copy, Drop)]
pub struct ToQuestion;

impl Mapper<(Vec<Vec<u8>>, u16, u16), Question> for ToQuestion {
    ghost use Rattle.std.specs.Prelude.{◌≡◌};

    ghost gives = { λ _ parts question. question ≡ record { name = parts.0; kind = parts.1; class = parts.2 } };

    fn apply(&self, parts: (Vec<Vec<u8>>, u16, u16)) -> Question {
        let (name, kind, class) = parts;
        Question { name, kind, class }
    }
}

/// Makes a query.
#[derive(Clone, Copy, Drop)]
pub struct ToQuery;

impl Mapper<(Head, Vec<Question>), Query> for ToQuery {
    ghost use Rattle.std.specs.Prelude.{◌≡◌};

    ghost gives = { λ _ parts query. query ≡ record { head = parts.0; questions = parts.1 } };

    fn apply(&self, parts: (Head, Vec<Question>)) -> Query {
        let (head, questions) = parts;
        Query { head, questions }
    }
}

/// A number of two bytes: a parser with a name, as those below, so that what holds it is checked by its name alone.
#[derive(Clone, Copy, Drop)]
pub struct Number;

impl<'src> IsParser<&'src [u8], u16, RichBytes> for Number {}

impl<'src> Parser<'src, &'src [u8], u16, RichBytes> for Number {
    ghost use Rattle.std.specs.Prelude.{⊤};
    ghost use Rattle.examples.specs.QueryParts.{number-lawful};

    ghost ready = { λ _. ⊤ };

    ghost meaning = { λ _. ⟦<NumberParser<'src, RichBytes> as Parser<'src, &'src [u8], u16, RichBytes>>⟧.meaning (record { picked = record { parser = record { first = record { of = record {} }; second = record { of = record {} }; of = record {} }; picker = record {}; of = record {} } }) };

    ghost steady = { λ _. ⊥ };

    ghost same = { λ _ _ _. ⊤ };

    ghost language = { λ _. ⟦<NumberParser<'src, RichBytes> as Parser<'src, &'src [u8], u16, RichBytes>>⟧.language (record { picked = record { parser = record { first = record { of = record {} }; second = record { of = record {} }; of = record {} }; picker = record {}; of = record {} } }) };

    ghost ends_after_start = { λ _. (number-lawful ⟦<&'src [u8] as Input<'src>>⟧ ⟦<Rich<u8> as Error<&'src [u8]>>⟧ ⟦<() as Inspector<&'src [u8]>>⟧ _).ends };

    ghost agrees = { λ _ never. absurd never };

    ghost accepts = { λ _. (number-lawful ⟦<&'src [u8] as Input<'src>>⟧ ⟦<Rich<u8> as Error<&'src [u8]>>⟧ ⟦<() as Inspector<&'src [u8]>>⟧ _).accept };

    fn go_emit(&self, inp: &mut InputRef<'src, '_, &'src [u8], RichBytes>) -> PResult<u16> {
        number_parser().go_emit(inp)
    }

    fn go_check(&self, inp: &mut InputRef<'src, '_, &'src [u8], RichBytes>) -> PResult<()> {
        number_parser().go_check(inp)
    }
}

/// A number of two bytes, under the head of a query.
#[derive(Clone, Copy, Drop)]
pub struct NumberUnder;

impl<'src> IsParser<&'src [u8], u16, UnderHead> for NumberUnder {}

impl<'src> Parser<'src, &'src [u8], u16, UnderHead> for NumberUnder {
    ghost use Rattle.std.specs.Prelude.{⊤};
    ghost use Rattle.examples.specs.QueryParts.{number-lawful};

    ghost ready = { λ _. ⊤ };

    ghost meaning = { λ _. ⟦<NumberParser<'src, UnderHead> as Parser<'src, &'src [u8], u16, UnderHead>>⟧.meaning (record { picked = record { parser = record { first = record { of = record {} }; second = record { of = record {} }; of = record {} }; picker = record {}; of = record {} } }) };

    ghost steady = { λ _. ⊥ };

    ghost same = { λ _ _ _. ⊤ };

    ghost language = { λ _. ⟦<NumberParser<'src, UnderHead> as Parser<'src, &'src [u8], u16, UnderHead>>⟧.language (record { picked = record { parser = record { first = record { of = record {} }; second = record { of = record {} }; of = record {} }; picker = record {}; of = record {} } }) };

    ghost ends_after_start = { λ _. (number-lawful ⟦<&'src [u8] as Input<'src>>⟧ ⟦<Rich<u8> as Error<&'src [u8]>>⟧ ⟦<() as Inspector<&'src [u8]>>⟧ _).ends };

    ghost agrees = { λ _ never. absurd never };

    ghost accepts = { λ _. (number-lawful ⟦<&'src [u8] as Input<'src>>⟧ ⟦<Rich<u8> as Error<&'src [u8]>>⟧ ⟦<() as Inspector<&'src [u8]>>⟧ _).accept };

    fn go_emit(&self, inp: &mut InputRef<'src, '_, &'src [u8], UnderHead>) -> PResult<u16> {
        number_parser().go_emit(inp)
    }

    fn go_check(&self, inp: &mut InputRef<'src, '_, &'src [u8], UnderHead>) -> PResult<()> {
        number_parser().go_check(inp)
    }
}

/// A head: six numbers.
#[derive(Clone, Copy, Drop)]
pub struct QueryHead;

impl<'src> IsParser<&'src [u8], Head, RichBytes> for QueryHead {}

impl<'src> Parser<'src, &'src [u8], Head, RichBytes> for QueryHead {
    ghost use Rattle.std.specs.Prelude.{⊤};
    ghost use Rattle.examples.specs.QueryParts.{head-lawful};

    ghost ready = { λ _. ⊤ };

    ghost meaning = { λ _. ⟦<HeadParser as Parser<'src, &'src [u8], Head, RichBytes>>⟧.meaning (record { picked = record { parser = record { parsers = (record {}, record {}, record {}, record {}, record {}, record {}) }; picker = record {}; of = record {} } }) };

    ghost steady = { λ _. ⊥ };

    ghost same = { λ _ _ _. ⊤ };

    ghost language = { λ _. ⟦<HeadParser as Parser<'src, &'src [u8], Head, RichBytes>>⟧.language (record { picked = record { parser = record { parsers = (record {}, record {}, record {}, record {}, record {}, record {}) }; picker = record {}; of = record {} } }) };

    ghost ends_after_start = { λ _. (head-lawful ⟦<&'src [u8] as Input<'src>>⟧ ⟦<Rich<u8> as Error<&'src [u8]>>⟧ ⟦<() as Inspector<&'src [u8]>>⟧ _).ends };

    ghost agrees = { λ _ never. absurd never };

    ghost accepts = { λ _. (head-lawful ⟦<&'src [u8] as Input<'src>>⟧ ⟦<Rich<u8> as Error<&'src [u8]>>⟧ ⟦<() as Inspector<&'src [u8]>>⟧ _).accept };

    fn go_emit(&self, inp: &mut InputRef<'src, '_, &'src [u8], RichBytes>) -> PResult<Head> {
        head_parser().go_emit(inp)
    }

    fn go_check(&self, inp: &mut InputRef<'src, '_, &'src [u8], RichBytes>) -> PResult<()> {
        head_parser().go_check(inp)
    }
}

impl<'src> DecidedByWord<'src, &'src [u8], Head, RichBytes> for QueryHead {
    ghost use Rattle.examples.specs.QueryPicks.{packet_head};

    ghost decides = { λ _. packet_head };

    ghost by_word = { λ _. record { some = λ w i. i.1; one = λ w v i. i.1 } };
}

/// A label, under the head of its query.
#[derive(Clone, Copy, Drop)]
pub struct Label;

impl<'src> IsParser<&'src [u8], Vec<u8>, UnderHead> for Label {}

impl<'src> Parser<'src, &'src [u8], Vec<u8>, UnderHead> for Label {
    ghost use Rattle.std.specs.Prelude.{⊤};
    ghost use Rattle.examples.specs.QueryParts.{label-lawful};

    ghost ready = { λ _. ⊤ };

    ghost meaning = { λ _. ⟦<LabelParser<'src> as Parser<'src, &'src [u8], Vec<u8>, UnderHead>>⟧.meaning (record { parts = record { parser = record { picked = record { parser = record { of = record {} }; picker = record {}; of = record {} } }; then = record { item = record { of = record {} }; of = record {} }; of = record {} } }) };

    ghost steady = { λ _. ⊥ };

    ghost same = { λ _ _ _. ⊤ };

    ghost language = { λ _. ⟦<LabelParser<'src> as Parser<'src, &'src [u8], Vec<u8>, UnderHead>>⟧.language (record { parts = record { parser = record { picked = record { parser = record { of = record {} }; picker = record {}; of = record {} } }; then = record { item = record { of = record {} }; of = record {} }; of = record {} } }) };

    ghost ends_after_start = { λ _. (label-lawful ⟦<&'src [u8] as Input<'src>>⟧ ⟦<Rich<u8> as Error<&'src [u8]>>⟧ ⟦<() as Inspector<&'src [u8]>>⟧ _).ends };

    ghost agrees = { λ _ never. absurd never };

    ghost accepts = { λ _. (label-lawful ⟦<&'src [u8] as Input<'src>>⟧ ⟦<Rich<u8> as Error<&'src [u8]>>⟧ ⟦<() as Inspector<&'src [u8]>>⟧ _).accept };

    fn go_emit(&self, inp: &mut InputRef<'src, '_, &'src [u8], UnderHead>) -> PResult<Vec<u8>> {
        label_parser().go_emit(inp)
    }

    fn go_check(&self, inp: &mut InputRef<'src, '_, &'src [u8], UnderHead>) -> PResult<()> {
        label_parser().go_check(inp)
    }
}

/// A question, under the head of its query: labels, and two numbers.
#[derive(Clone, Copy, Drop)]
pub struct Asked;

impl<'src> IsParser<&'src [u8], Question, UnderHead> for Asked {}

impl<'src> Parser<'src, &'src [u8], Question, UnderHead> for Asked {
    ghost use Rattle.std.specs.Prelude.{⊤, None};
    ghost use Rattle.examples.specs.QueryParts.{question-lawful};

    ghost ready = { λ _. ⊤ };

    ghost meaning = { λ _. ⟦<QuestionParser<'src> as Parser<'src, &'src [u8], Question, UnderHead>>⟧.meaning (record {
      parser = record { parsers = (record { first = record { parser = record { parser = record {}; at_least = 0; at_most = None; of = record {} }; of = record {} }; second = record { seq = 0; of = record {} }; of = record {} }, record {}, record {}) };
      mapper = record {};
      of = record {};
    }) };

    ghost steady = { λ _. ⊥ };

    ghost same = { λ _ _ _. ⊤ };

    ghost language = { λ _. ⟦<QuestionParser<'src> as Parser<'src, &'src [u8], Question, UnderHead>>⟧.language (record {
      parser = record { parsers = (record { first = record { parser = record { parser = record {}; at_least = 0; at_most = None; of = record {} }; of = record {} }; second = record { seq = 0; of = record {} }; of = record {} }, record {}, record {}) };
      mapper = record {};
      of = record {};
    }) };

    ghost ends_after_start = { λ _. (question-lawful ⟦<&'src [u8] as Input<'src>>⟧ ⟦<Rich<u8> as Error<&'src [u8]>>⟧ ⟦<() as Inspector<&'src [u8]>>⟧ _).ends };

    ghost agrees = { λ _ never. absurd never };

    ghost accepts = { λ _. (question-lawful ⟦<&'src [u8] as Input<'src>>⟧ ⟦<Rich<u8> as Error<&'src [u8]>>⟧ ⟦<() as Inspector<&'src [u8]>>⟧ _).accept };

    fn go_emit(&self, inp: &mut InputRef<'src, '_, &'src [u8], UnderHead>) -> PResult<Question> {
        question_parser().go_emit(inp)
    }

    fn go_check(&self, inp: &mut InputRef<'src, '_, &'src [u8], UnderHead>) -> PResult<()> {
        question_parser().go_check(inp)
    }
}

/// The parser of a number of two bytes.
fn number_parser<'src, E: ParserExtra<&'src [u8]>>() -> NumberParser<'src, E> {
    any().then(any()).pick_by(ToNumber)
}

/// The parser of a head.
fn head_parser() -> HeadParser {
    group((Number, Number, Number, Number, Number, Number)).pick_by(ToHead)
}

/// The parser of a label: a byte that says how many bytes follow, from 1 to 63, and these.
fn label_parser<'src>() -> LabelParser<'src> {
    prefixed(any().pick_by(ToLength), so_many(any()))
}

/// The parser of a question: labels, which a zero ends, and two numbers.
fn question_parser<'src>() -> QuestionParser<'src>
    ensures least { result.parser.parsers.0.first.parser.at_least ≡ 0 }
    ensures most { result.parser.parsers.0.first.parser.at_most ≡ None }
    ensures zero { result.parser.parsers.0.second.seq ≡ 0 }
{
    let labels = Label.repeated().collect::<Vec<_>>().then_ignore(just(0));
    group((labels, NumberUnder, NumberUnder)).map_by(ToQuestion)
}

/// Runs a parser over bytes. Its language says which it takes.
fn parse_bytes<
    'src,
    O: Drop,
    P: IsParser<&'src [u8], O, RichBytes> + Parser<'src, &'src [u8], O, RichBytes>,
>(parser: &P, alloc: Global, bytes: &'src [u8]) -> Result<ParseResult<O, Rich<u8>>, Stop>
    requires { P.ready parser.now }
    ensures errors { IfOk result (λ parsed. parsed.errors.items ≡ [] → IsTrue (is_some parsed.output)) }
    ensures reads { (P.language parser.now).said ≡ true → AnswersText Some (P.language parser.now) bytes.now ⊥ result }
{
    parser.parse(alloc, bytes)
}

/// A query, whole: a head of six numbers, and as many questions as it says. Each number has two bytes, the high one first. Of any
/// other bytes there is no output.
pub fn parse_query(alloc: Global, bytes: &[u8]) -> Result<ParseResult<Query, Rich<u8>>, Stop>
    ensures exact { Exactly IsQuery bytes.now result }
    ensures errors { IfOk result (λ parsed. parsed.errors.items ≡ [] → IsTrue (is_some parsed.output)) }
{
    let query = headed(QueryHead, so_many::<_, _, Vec<_>>(Asked)).map_by(ToQuery);
    parse_bytes(&query, alloc, bytes)
}
