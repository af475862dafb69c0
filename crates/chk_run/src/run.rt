//! One run of the program, over any input and any outputs.
ghost use Rattle.std.specs.Prelude.{◌≡◌, ◌⊎◌, ◌≤◌, false, [], ◌∷◌, ◌++◌, codes, map, string_bytes, IsTrue, OnOk, IfSome, IfOk, IfErr, option_map};
ghost use Rattle.std.specs.Str.{chars};
ghost use Rattle.std.specs.Option.{option_copied};
ghost use Rattle.std.specs.Io.KnownBytes.{Appends};
ghost use Rattle.chk_run.specs.Lines.{error_lines, alone, pair_text, count_text, settings_text, Tells};
ghost use Rattle.chk_run.specs.Show.{items_text, refusal_text};
ghost use Rattle.chk_run.specs.Answers.{Answers, Complains, FailsFor, ReadFails, Refuses, TellFails, TellsOf};
ghost use Rattle.chk_run.specs.declared.run.Failure.TheVariants.{Refused, Unwritable};
ghost use Rattle.chk_run.specs.declared.show.Refusal.TheVariants as reason;

use crate::ab::run_ab;
use crate::grammar::{Answer, Command};
use crate::list::run_list;
use crate::loops::run_loops;
use crate::request::{Grammar, request};
use crate::settings::run_settings;
use crate::show::{ErrorLine, Items, Refusal, refusal_name};
use crate::texts::Text;
use chumsky::error::Rich;
use chumsky::{ParseResult, Stop};
use std::alloc::Global;
use std::fmt::Display;
use std::io::{ErrorKind, Read, Write};

/// The status where the text is right, or a grammar was printed.
pub(crate) const ACCEPTED: u8 = 0;

const REJECTED: u8 = 1;

/// The status where the words, the input or the output are wrong.
pub const FAILED: u8 = 2;

/// The status where a run was refused.
pub(crate) const REFUSED: u8 = 3;

/// How a run ended: its exit status, and whether all that it had to print could be printed.
#[derive(Clone, Copy)]
pub struct Ended {
    pub status: u8,
    pub told: bool,
}

/// Why a run gives no answer.
#[derive(Clone, Copy)]
enum Failure {
    Usage,
    Unreadable,
    NotUtf8,
    Refused(Refusal),
    Unwritable,
}

impl From<Stop> for Failure {
    ghost from_gives = { λ stop failure. failure ≡ Refused (reason.Run stop) };

    fn from(stop: Stop) -> Failure {
        Failure::Refused(Refusal::Run(stop))
    }
}

impl From<Refusal> for Failure {
    ghost from_gives = { λ refusal failure. failure ≡ Refused refusal };

    fn from(refusal: Refusal) -> Failure {
        Failure::Refused(refusal)
    }
}

/// Runs the program on the words after its name.
pub fn run<R: Read, W: Write, E: Write>(
    alloc: Global,
    words: &[String],
    input: &mut R,
    out: &mut W,
    err: &mut E,
) -> Ended
    ensures status { result.status ≤ REFUSED }
    ensures answered { (result.status ≡ ACCEPTED) ⊎ (result.status ≡ REJECTED) → (err.new ≡ err.old) × Answers (map string_bytes words.now) (R.remaining input.old) (W.contents out.old) (W.contents out.new) result.status }
    ensures refused { result.status ≡ REFUSED → (err.new ≡ err.old) × Refuses (map string_bytes words.now) (R.remaining input.old) (W.contents out.old) (W.contents out.new) }
    ensures failed { result.status ≡ FAILED → (out.new ≡ out.old) ⊎ (err.new ≡ err.old) }
    ensures complains { result.status ≡ FAILED → IsTrue result.told → Complains (map string_bytes words.now) (R.remaining input.old) out.old out.new (E.contents err.old) (E.contents err.new) }
{
    match answer(alloc, words, input, out) {
        Ok(status) => Ended { status, told: true },
        Err(Failure::Usage) => complain(err, "usage: chk parse|check|show|draw NAME"),
        Err(Failure::Unreadable) => complain(err, "cannot read input"),
        Err(Failure::NotUtf8) => complain(err, "input is not UTF-8"),
        Err(Failure::Refused(refusal)) => refuse(out, refusal),
        Err(Failure::Unwritable) => Ended {
            status: FAILED,
            told: false,
        },
    }
}

/// Says what is wrong, if it can be said at all.
fn complain<E: Write>(err: &mut E, message: &str) -> Ended
    ensures status { result.status ≡ FAILED }
    ensures printed { IsTrue result.told → Appends (E.contents err.old) (E.contents err.new) (message.now ++ 10 ∷ []) }
{
    Ended {
        status: FAILED,
        told: writeln!(err, "{message}").is_ok(),
    }
}

/// Says why there is no answer.
pub fn refuse<W: Write>(out: &mut W, refusal: Refusal) -> Ended
    ensures status { ((result.status ≡ REFUSED) × IsTrue result.told) ⊎ ((result.status ≡ FAILED) × (result.told ≡ false)) }
    ensures printed { result.status ≡ REFUSED → Appends (W.contents out.old) (W.contents out.new) (codes "refused " ++ (refusal_text refusal ++ 10 ∷ [])) }
{
    match writeln!(out, "refused {}", refusal_name(refusal)) {
        Ok(()) => Ended {
            status: REFUSED,
            told: true,
        },
        Err(_) => Ended {
            status: FAILED,
            told: false,
        },
    }
}

/// The steps of a run, up to the first that fails.
fn answer<R: Read, W: Write>(
    alloc: Global,
    words: &[String],
    input: &mut R,
    out: &mut W,
) -> Result<u8, Failure>
    ensures status { IfOk result (λ status. (status ≡ ACCEPTED) ⊎ (status ≡ REJECTED)) }
    ensures told { IfOk result (λ status. Answers (map string_bytes words.now) (R.remaining input.old) (W.contents out.old) (W.contents out.new) status) }
    ensures failed { IfErr result (λ why. FailsFor (map string_bytes words.now) (R.remaining input.old) out.old out.new why) }
{
    let (command, grammar) = request(words).ok_or(Failure::Usage)?;
    let text = read_text(alloc, input)?;
    tell(alloc, command, grammar, text.as_str(), out)
}

/// The whole input.
fn read_text<R: Read>(alloc: Global, input: &mut R) -> Result<String, Failure>
    ensures whole { IfOk result (λ text. IfSome (R.remaining input.old) (λ bytes. string_bytes text ≡ bytes)) }
    ensures failed { IfErr result (λ why. ReadFails (R.remaining input.old) why) }
{
    let mut bytes = Vec::new(alloc);
    match input.read_to_end(&mut bytes) {
        Ok(_) => String::from_utf8(bytes).map_err(|_| Failure::NotUtf8),
        Err(error) if error.kind() == ErrorKind::OutOfMemory => {
            Err(Failure::Refused(Refusal::Run(Stop::Memory)))
        }
        Err(_) => Err(Failure::Unreadable),
    }
}

/// Runs a grammar over the text, and prints what it answers.
fn tell<W: Write>(
    alloc: Global,
    command: Command,
    grammar: Grammar,
    text: &str,
    out: &mut W,
) -> Result<u8, Failure>
    ensures status { IfOk result (λ status. (status ≡ ACCEPTED) ⊎ (status ≡ REJECTED)) }
    ensures told { IfOk result (λ status. TellsOf command grammar (chars text.now) (W.contents out.old) (W.contents out.new) status) }
    ensures failed { IfErr result (λ why. TellFails grammar out.old out.new why) }
{
    match grammar {
        Grammar::Ab => tell_ab(alloc, command, text, out),
        Grammar::List => tell_list(alloc, command, text, out),
        Grammar::Loops => tell_loops(alloc, command, text, out),
        Grammar::Settings => tell_settings(alloc, command, text, out),
    }
}

/// Runs the grammar `ab` over the text, and prints what it answers.
fn tell_ab<W: Write>(
    alloc: Global,
    command: Command,
    text: &str,
    out: &mut W,
) -> Result<u8, Failure>
    ensures status { IfOk result (λ status. (status ≡ ACCEPTED) ⊎ (status ≡ REJECTED)) }
    ensures told { IfOk result (λ status. TellsOf command Grammar.Ab (chars text.now) (W.contents out.old) (W.contents out.new) status) }
    ensures failed { IfErr result (λ why. TellFails Grammar.Ab out.old out.new why) }
{
    match run_ab(alloc, command, text)? {
        Answer::Parsed(answer) => print_pair(out, &answer),
        Answer::Checked(answer) => print_checked(out, &answer),
    }
}

/// Runs the grammar `list` over the text, and prints what it answers.
fn tell_list<W: Write>(
    alloc: Global,
    command: Command,
    text: &str,
    out: &mut W,
) -> Result<u8, Failure>
    ensures status { IfOk result (λ status. (status ≡ ACCEPTED) ⊎ (status ≡ REJECTED)) }
    ensures told { IfOk result (λ status. TellsOf command Grammar.List (chars text.now) (W.contents out.old) (W.contents out.new) status) }
    ensures failed { IfErr result (λ why. TellFails Grammar.List out.old out.new why) }
{
    match run_list(alloc, command, text)? {
        Answer::Parsed(answer) => print_items(out, &answer),
        Answer::Checked(answer) => print_checked(out, &answer),
    }
}

/// Runs the grammar `loops` over the text, and prints what it answers.
fn tell_loops<W: Write>(
    alloc: Global,
    command: Command,
    text: &str,
    out: &mut W,
) -> Result<u8, Failure>
    ensures status { IfOk result (λ status. (status ≡ ACCEPTED) ⊎ (status ≡ REJECTED)) }
    ensures told { IfOk result (λ status. TellsOf command Grammar.Loops (chars text.now) (W.contents out.old) (W.contents out.new) status) }
    ensures failed { IfErr result (λ why. TellFails Grammar.Loops out.old out.new why) }
{
    match run_loops(alloc, command, text)? {
        Answer::Parsed(answer) => print_count(out, &answer),
        Answer::Checked(answer) => print_checked(out, &answer),
    }
}

/// Runs the grammar `settings` over the text, and prints what it answers.
fn tell_settings<W: Write>(
    alloc: Global,
    command: Command,
    text: &str,
    out: &mut W,
) -> Result<u8, Failure>
    ensures status { IfOk result (λ status. (status ≡ ACCEPTED) ⊎ (status ≡ REJECTED)) }
    ensures told { IfOk result (λ status. TellsOf command Grammar.Settings (chars text.now) (W.contents out.old) (W.contents out.new) status) }
    ensures failed { IfErr result (λ why. TellFails Grammar.Settings out.old out.new why) }
{
    match run_settings(alloc, command, text)? {
        Answer::Parsed(answer) => print_settings(out, &answer),
        Answer::Checked(answer) => print_checked(out, &answer),
    }
}

/// Prints the two characters of an answer, or its errors.
fn print_pair<W: Write>(
    out: &mut W,
    answer: &ParseResult<(char, char), Rich<char>>,
) -> Result<u8, Failure>
    ensures status { IfOk result (λ status. (status ≡ ACCEPTED) ⊎ (status ≡ REJECTED)) }
    ensures told { IfOk result (λ status. Tells (W.contents out.old) (W.contents out.new) answer.now.errors.items (option_map pair_text answer.now.output) status) }
    ensures unwritten { IfErr result (λ why. why ≡ Unwritable) }
{
    match report(out, answer)? {
        Some((first, second)) => accept(out, format_args!("ok {first}{second}")),
        None => Ok(REJECTED),
    }
}

/// Prints the items of an answer, or its errors.
fn print_items<W: Write>(
    out: &mut W,
    answer: &ParseResult<Vec<&str>, Rich<char>>,
) -> Result<u8, Failure>
    ensures status { IfOk result (λ status. (status ≡ ACCEPTED) ⊎ (status ≡ REJECTED)) }
    ensures told { IfOk result (λ status. Tells (W.contents out.old) (W.contents out.new) answer.now.errors.items (option_map (λ items. items_text items.items) answer.now.output) status) }
    ensures unwritten { IfErr result (λ why. why ≡ Unwritable) }
{
    match report(out, answer)? {
        Some(items) => accept(out, Items(items.as_slice())),
        None => Ok(REJECTED),
    }
}

/// Prints the number that an answer gives, or its errors.
fn print_count<W: Write>(
    out: &mut W,
    answer: &ParseResult<usize, Rich<char>>,
) -> Result<u8, Failure>
    ensures status { IfOk result (λ status. (status ≡ ACCEPTED) ⊎ (status ≡ REJECTED)) }
    ensures told { IfOk result (λ status. Tells (W.contents out.old) (W.contents out.new) answer.now.errors.items (option_map count_text answer.now.output) status) }
    ensures unwritten { IfErr result (λ why. why ≡ Unwritable) }
{
    match report(out, answer)? {
        Some(count) => accept(out, format_args!("ok {count}")),
        None => Ok(REJECTED),
    }
}

/// Prints the settings of an answer, or its errors.
fn print_settings<W: Write>(
    out: &mut W,
    answer: &ParseResult<Text<'_>, Rich<char>>,
) -> Result<u8, Failure>
    ensures status { IfOk result (λ status. (status ≡ ACCEPTED) ⊎ (status ≡ REJECTED)) }
    ensures told { IfOk result (λ status. Tells (W.contents out.old) (W.contents out.new) answer.now.errors.items (option_map settings_text answer.now.output) status) }
    ensures unwritten { IfErr result (λ why. why ≡ Unwritable) }
{
    match report(out, answer)? {
        Some(settings) => accept(out, format_args!("ok{settings}")),
        None => Ok(REJECTED),
    }
}

/// Prints that an answer has no errors, or its errors.
fn print_checked<W: Write>(out: &mut W, answer: &ParseResult<(), Rich<char>>) -> Result<u8, Failure>
    ensures status { IfOk result (λ status. (status ≡ ACCEPTED) ⊎ (status ≡ REJECTED)) }
    ensures told { IfOk result (λ status. Tells (W.contents out.old) (W.contents out.new) answer.now.errors.items (option_map (λ _. codes "ok") answer.now.output) status) }
    ensures unwritten { IfErr result (λ why. why ≡ Unwritable) }
{
    match report(out, answer)? {
        Some(()) => accept(out, "ok"),
        None => Ok(REJECTED),
    }
}

/// Prints the errors of an answer. Without errors the output is what is left to print.
fn report<'a, O, W: Write>(
    out: &mut W,
    answer: &'a ParseResult<O, Rich<char>>,
) -> Result<Option<&'a O>, Failure>
    ensures printed { OnOk result (Appends (W.contents out.old) (W.contents out.new) (error_lines answer.now.errors.items)) }
    ensures output { IfOk result (λ output. option_copied output ≡ alone answer.now.errors.items answer.now.output) }
    ensures unwritten { IfErr result (λ why. why ≡ Unwritable) }
{
    let errors = answer.errors.as_slice();
    for error in errors {
        print(out, ErrorLine(error))?;
    }
    if errors.is_empty() {
        Ok(answer.output())
    } else {
        Ok(None)
    }
}

/// Prints a line, and answers that the text is right.
fn accept<D: Display + Drop, W: Write>(out: &mut W, line: D) -> Result<u8, Failure>
    ensures status { IfOk result (λ status. status ≡ ACCEPTED) }
    ensures printed { OnOk result (IfSome (D.output line) (λ text. Appends (W.contents out.old) (W.contents out.new) (text ++ 10 ∷ []))) }
    ensures unwritten { IfErr result (λ why. why ≡ Unwritable) }
{
    print(out, line)?;
    Ok(ACCEPTED)
}

/// Prints a line.
fn print<D: Display + Drop, W: Write>(out: &mut W, line: D) -> Result<(), Failure>
    ensures printed { OnOk result (IfSome (D.output line) (λ text. Appends (W.contents out.old) (W.contents out.new) (text ++ 10 ∷ []))) }
    ensures unwritten { IfErr result (λ why. why ≡ Unwritable) }
{
    writeln!(out, "{line}").map_err(|_| Failure::Unwritable)
}
