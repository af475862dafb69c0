//! The parsers of gaps, words and texts, of which it is known which texts they take.
ghost use Rattle.std.specs.Prelude.{◌≡◌, None};

use crate::expression::Expression;
use crate::making::{ToAtom, ToText};
use chumsky::combinator::{
    Collect, DelimitedBy, IgnoreThen, Map, Or, PickBy, Picker, Repeated, WordPicker,
};
use chumsky::extra::EmptyText;
use chumsky::input::TextRef;
use chumsky::prelude::*;
use chumsky::primitive::{Any, Just};
use chumsky::text::{Kind, Run, run_of};
use chumsky::util::Plain;
use chumsky::{IsParser, PResult};
use chumsky_parser::parser::Parser;
use std::marker::PhantomData;

/// The parser of any character.
pub type One<'src> = Any<&'src str, EmptyText>;

/// The parser of one character.
pub type Fixed<'src> = Just<char, &'src str, EmptyText>;

/// The parser of a character that a picker takes.
pub type Picked<'src, F> = PickBy<One<'src>, char, F, char>;

/// The parser of items of a parser of characters, collected.
pub type Many<'src, P, C> = Collect<Repeated<P, char, &'src str, EmptyText>, char, C>;

/// Picks white space.
#[derive(Clone, Copy, Drop)]
pub struct Space;

impl Picker<char, char> for Space {
    ghost use Rattle.std.specs.Prelude.{◌≡◌};
    ghost use Rattle.std.specs.Char.{is_whitespace};
    ghost use Rattle.s_expression.specs.Picks.{passing};

    ghost gives = { λ _ character picked. picked ≡ passing is_whitespace character };

    fn pick(&self, character: char) -> Option<char> {
        if character.is_whitespace() {
            return Some(character);
        }
        None
    }
}

impl<'src> WordPicker<'src, &'src str, char, char, EmptyText, One<'src>> for Space {
    ghost use Rattle.std.specs.Char.{is_whitespace};
    ghost use Rattle.s_expression.specs.Picks.{passing, of_one, one-by_word};

    ghost picks = { λ _. of_one (passing is_whitespace) };

    ghost by_word = { λ f p w v x s g. one-by_word (passing is_whitespace) w v x s g };
}

/// Picks a character of a word.
#[derive(Clone, Copy, Drop)]
pub struct InWord;

impl Picker<char, char> for InWord {
    ghost use Rattle.std.specs.Prelude.{◌≡◌};
    ghost use Rattle.s_expression.specs.Lisp.{in_word};
    ghost use Rattle.s_expression.specs.Picks.{passing};

    ghost gives = { λ _ character picked. picked ≡ passing in_word character };

    fn pick(&self, character: char) -> Option<char> {
        match character {
            '(' | ')' | '\'' | '"' | ';' | ' ' | '\t' | '\r' | '\n' => None,
            _ => Some(character),
        }
    }
}

impl<'src> WordPicker<'src, &'src str, char, char, EmptyText, One<'src>> for InWord {
    ghost use Rattle.s_expression.specs.Lisp.{in_word};
    ghost use Rattle.s_expression.specs.Picks.{passing, of_one, one-by_word};

    ghost picks = { λ _. of_one (passing in_word) };

    ghost by_word = { λ f p w v x s g. one-by_word (passing in_word) w v x s g };
}

/// Picks a character of a text that stands for itself.
#[derive(Clone, Copy, Drop)]
pub struct Itself;

impl Picker<char, char> for Itself {
    ghost use Rattle.std.specs.Prelude.{◌≡◌};
    ghost use Rattle.s_expression.specs.Lisp.{is_plain};
    ghost use Rattle.s_expression.specs.Picks.{passing};

    ghost gives = { λ _ character picked. picked ≡ passing is_plain character };

    fn pick(&self, character: char) -> Option<char> {
        if character == '"' || character == '\\' {
            return None;
        }
        Some(character)
    }
}

impl<'src> WordPicker<'src, &'src str, char, char, EmptyText, One<'src>> for Itself {
    ghost use Rattle.s_expression.specs.Lisp.{is_plain};
    ghost use Rattle.s_expression.specs.Picks.{passing, of_one, one-by_word};

    ghost picks = { λ _. of_one (passing is_plain) };

    ghost by_word = { λ f p w v x s g. one-by_word (passing is_plain) w v x s g };
}

/// Picks the character that a letter stands for after a backslash.
#[derive(Clone, Copy, Drop)]
pub struct Escaped;

impl Picker<char, char> for Escaped {
    ghost use Rattle.std.specs.Prelude.{◌≡◌};
    ghost use Rattle.s_expression.specs.Lisp.{escaped};

    ghost gives = { λ _ letter picked. picked ≡ escaped letter };

    fn pick(&self, letter: char) -> Option<char> {
        match letter {
            '"' | '\\' => Some(letter),
            'n' => Some('\n'),
            't' => Some('\t'),
            _ => None,
        }
    }
}

impl<'src> WordPicker<'src, &'src str, char, char, EmptyText, One<'src>> for Escaped {
    ghost use Rattle.s_expression.specs.Lisp.{escaped};
    ghost use Rattle.s_expression.specs.Picks.{of_one, one-by_word};

    ghost picks = { λ _. of_one escaped };

    ghost by_word = { λ f p w v x s g. one-by_word escaped w v x s g };
}

/// Characters of one line.
#[derive(Clone, Copy, Drop)]
pub struct InLine;

impl Kind<char> for InLine {
    ghost use Rattle.std.specs.Prelude.{[], ⊤};
    ghost use Rattle.s_expression.specs.Lisp.{in_line};

    ghost fits = { λ _. ⊤ };

    ghost holds = { λ _. in_line };

    ghost wants = { λ _. [] };

    fn test(&self, token: &char) -> bool {
        *token != '\n'
    }

    fn expected(&self) -> Plain<'_> {
        Plain::Nothing
    }
}

/// The parser of what a line has left, after a character.
pub type LineAfter<'src> = IgnoreThen<Fixed<'src>, Run<InLine, &'src str, EmptyText>, char>;

/// The parser of white space, or of a comment with the end of its line.
pub type GapPiece<'src> = Or<
    Picked<'src, Space>,
    IgnoreThen<LineAfter<'src>, Fixed<'src>, &'src str>,
>;

/// The parser of a gap.
pub type GapParser<'src> = Many<'src, GapPiece<'src>, ()>;

/// The parser of what stands for a character of a text.
pub type CharacterParser<'src> = Or<
    Picked<'src, Itself>,
    IgnoreThen<Fixed<'src>, Picked<'src, Escaped>, char>,
>;

/// The parser of the characters of a word.
pub type WordParser<'src> = Many<'src, Picked<'src, InWord>, String>;

/// The parser of a symbol, a number or a text.
pub type AtomParser<'src> = Or<
    Map<Word, String, ToAtom, Expression>,
    Map<
        DelimitedBy<
            Many<'src, CharacterParser<'src>, String>,
            Fixed<'src>,
            Fixed<'src>,
            char,
            char,
        >,
        String,
        ToText,
        Expression,
    >,
>;

/// White space, and comments, each with the end of its line: a parser with a name, as the two below, so that what holds it is
/// checked by its name alone.
#[derive(Clone, Copy, Drop)]
pub struct Gap;

impl<'src> IsParser<&'src str, (), EmptyText> for Gap {}

impl<'src> Parser<'src, &'src str, (), EmptyText> for Gap {
    ghost use Rattle.std.specs.Prelude.{None, ⊤};
    ghost use Rattle.s_expression.specs.LispLawful.{gap-lawful};

    ghost ready = { λ _. ⊤ };

    ghost meaning = { λ _. ⟦<GapParser<'src> as Parser<'src, &'src str, (), EmptyText>>⟧.meaning (record {
      parser = record {
        parser = record {
          first = record { picked = record { parser = record { of = record {} }; picker = record {}; of = record {} } };
          second = record {
            first = record { first = record { seq = 59; of = record {} }; second = record { kind = record {}; of = record {} }; of = record {} };
            second = record { seq = 10; of = record {} };
            of = record {};
          };
        };
        at_least = 0;
        at_most = None;
        of = record {};
      };
      of = record {};
    }) };

    ghost steady = { λ _. ⊥ };

    ghost same = { λ _ _ _. ⊤ };

    ghost language = { λ _. ⟦<GapParser<'src> as Parser<'src, &'src str, (), EmptyText>>⟧.language (record {
      parser = record {
        parser = record {
          first = record { picked = record { parser = record { of = record {} }; picker = record {}; of = record {} } };
          second = record {
            first = record { first = record { seq = 59; of = record {} }; second = record { kind = record {}; of = record {} }; of = record {} };
            second = record { seq = 10; of = record {} };
            of = record {};
          };
        };
        at_least = 0;
        at_most = None;
        of = record {};
      };
      of = record {};
    }) };

    ghost ends_after_start = { λ _. (gap-lawful).ends };

    ghost agrees = { λ _ never. absurd never };

    ghost accepts = { λ _. (gap-lawful).accepts };

    fn go_emit(&self, inp: &mut TextRef<'src, '_, EmptyText>) -> PResult<()> {
        gap_parser().go_emit(inp)
    }

    fn go_check(&self, inp: &mut TextRef<'src, '_, EmptyText>) -> PResult<()> {
        gap_parser().go_check(inp)
    }
}

/// The characters of a word, one at least.
#[derive(Clone, Copy, Drop)]
pub struct Word;

impl<'src> IsParser<&'src str, String, EmptyText> for Word {}

impl<'src> Parser<'src, &'src str, String, EmptyText> for Word {
    ghost use Rattle.std.specs.Prelude.{None, ⊤};
    ghost use Rattle.s_expression.specs.LispLawful.{words-lawful};
    ghost use Rattle.s_expression.specs.Reading.{words};

    ghost ready = { λ _. ⊤ };

    ghost meaning = { λ _. ⟦<WordParser<'src> as Parser<'src, &'src str, String, EmptyText>>⟧.meaning (record {
      parser = record {
        parser = record { picked = record { parser = record { of = record {} }; picker = record {}; of = record {} } };
        at_least = 1;
        at_most = None;
        of = record {};
      };
      of = record {};
    }) };

    ghost steady = { λ _. ⊥ };

    ghost same = { λ _ _ _. ⊤ };

    ghost language = { λ _. words };

    ghost ends_after_start = { λ _. (words-lawful).ends };

    ghost agrees = { λ _ never. absurd never };

    ghost accepts = { λ _. (words-lawful).accepts };

    fn go_emit(&self, inp: &mut TextRef<'src, '_, EmptyText>) -> PResult<String> {
        word_parser().go_emit(inp)
    }

    fn go_check(&self, inp: &mut TextRef<'src, '_, EmptyText>) -> PResult<()> {
        word_parser().go_check(inp)
    }
}

/// A symbol, a number or a text.
#[derive(Clone, Copy, Drop)]
pub struct Atom;

impl<'src> IsParser<&'src str, Expression, EmptyText> for Atom {}

impl<'src> Parser<'src, &'src str, Expression, EmptyText> for Atom {
    ghost use Rattle.std.specs.Prelude.{None, ⊤};
    ghost use Rattle.s_expression.specs.LispLawful.{atom-lawful};

    ghost ready = { λ _. ⊤ };

    ghost meaning = { λ _. ⟦<AtomParser<'src> as Parser<'src, &'src str, Expression, EmptyText>>⟧.meaning (record {
      first = record { parser = record {}; mapper = record {}; of = record {} };
      second = record {
        parser = record {
          parser = record {
            parser = record {
              parser = record {
                first = record { picked = record { parser = record { of = record {} }; picker = record {}; of = record {} } };
                second = record { first = record { seq = 92; of = record {} }; second = record { picked = record { parser = record { of = record {} }; picker = record {}; of = record {} } }; of = record {} };
              };
              at_least = 0;
              at_most = None;
              of = record {};
            };
            of = record {};
          };
          opening = record { seq = 34; of = record {} };
          closing = record { seq = 34; of = record {} };
          of = record {};
        };
        mapper = record {};
        of = record {};
      };
    }) };

    ghost steady = { λ _. ⊥ };

    ghost same = { λ _ _ _. ⊤ };

    ghost language = { λ _. ⟦<AtomParser<'src> as Parser<'src, &'src str, Expression, EmptyText>>⟧.language (record {
      first = record { parser = record {}; mapper = record {}; of = record {} };
      second = record {
        parser = record {
          parser = record {
            parser = record {
              parser = record {
                first = record { picked = record { parser = record { of = record {} }; picker = record {}; of = record {} } };
                second = record { first = record { seq = 92; of = record {} }; second = record { picked = record { parser = record { of = record {} }; picker = record {}; of = record {} } }; of = record {} };
              };
              at_least = 0;
              at_most = None;
              of = record {};
            };
            of = record {};
          };
          opening = record { seq = 34; of = record {} };
          closing = record { seq = 34; of = record {} };
          of = record {};
        };
        mapper = record {};
        of = record {};
      };
    }) };

    ghost ends_after_start = { λ _. (atom-lawful).ends };

    ghost agrees = { λ _ never. absurd never };

    ghost accepts = { λ _. (atom-lawful).accepts };

    fn go_emit(&self, inp: &mut TextRef<'src, '_, EmptyText>) -> PResult<Expression> {
        atom_parser().go_emit(inp)
    }

    fn go_check(&self, inp: &mut TextRef<'src, '_, EmptyText>) -> PResult<()> {
        atom_parser().go_check(inp)
    }
}

/// The parser of a semicolon, and of what its line has left.
pub fn comment<'src>() -> LineAfter<'src>
    ensures { result.first.seq ≡ 59 }
{
    IgnoreThen {
        first: just(';'),
        second: run_of(InLine),
        of: PhantomData,
    }
}

/// The parser of a gap.
fn gap_parser<'src>() -> GapParser<'src>
    ensures semicolon { result.parser.parser.second.first.first.seq ≡ 59 }
    ensures line_feed { result.parser.parser.second.second.seq ≡ 10 }
    ensures at_least { result.parser.at_least ≡ 0 }
    ensures at_most { result.parser.at_most ≡ None }
{
    let comment = IgnoreThen {
        first: comment(),
        second: just('\n'),
        of: PhantomData,
    };
    Collect {
        parser: Repeated {
            parser: Or {
                first: any().pick_by(Space),
                second: comment,
            },
            at_least: 0,
            at_most: None,
            of: PhantomData,
        },
        of: PhantomData,
    }
}

/// The parser of a word.
fn word_parser<'src>() -> WordParser<'src>
    ensures at_least { result.parser.at_least ≡ 1 }
    ensures at_most { result.parser.at_most ≡ None }
{
    Collect {
        parser: Repeated {
            parser: any().pick_by(InWord),
            at_least: 1,
            at_most: None,
            of: PhantomData,
        },
        of: PhantomData,
    }
}

/// The parser of a symbol, a number or a text.
fn atom_parser<'src>() -> AtomParser<'src>
    ensures backslash { result.second.parser.parser.parser.parser.second.first.seq ≡ 92 }
    ensures at_least { result.second.parser.parser.parser.at_least ≡ 0 }
    ensures at_most { result.second.parser.parser.parser.at_most ≡ None }
    ensures opening { result.second.parser.opening.seq ≡ 34 }
    ensures closing { result.second.parser.closing.seq ≡ 34 }
{
    let escape = IgnoreThen {
        first: just('\\'),
        second: any().pick_by(Escaped),
        of: PhantomData,
    };
    let characters = Repeated {
        parser: Or {
            first: any().pick_by(Itself),
            second: escape,
        },
        at_least: 0,
        at_most: None,
        of: PhantomData,
    };
    let text = DelimitedBy {
        parser: Collect {
            parser: characters,
            of: PhantomData,
        },
        opening: just('"'),
        closing: just('"'),
        of: PhantomData,
    };
    Or {
        first: Map {
            parser: Word,
            mapper: ToAtom,
            of: PhantomData,
        },
        second: Map {
            parser: text,
            mapper: ToText,
            of: PhantomData,
        },
    }
}
