//! What the words after the program's name ask for.
ghost use Rattle.std.specs.Prelude.{◌≡◌, IfSome, None, map, string_bytes};
ghost use Rattle.chk_run.specs.Request.{command_text, grammar_text, request_text};

use crate::grammar::Command;

/// The grammars.
#[derive(Clone, Copy)]
pub enum Grammar {
    Ab,
    List,
    Loops,
    Settings,
}

/// What the words ask for, if they ask for anything.
pub fn request(words: &[String]) -> Option<(Command, Grammar)>
    ensures asked { IfSome result (λ request. map string_bytes words.now ≡ request_text request) }
    ensures unknown { result ≡ None → (request : Command × Grammar) → map string_bytes words.now ≡ request_text request → ⊥ }
{
    let [command, name] = words else {
        return None;
    };
    let command = command_of(command.as_str())?;
    let grammar = grammar_of(name.as_str())?;
    Some((command, grammar))
}

/// The command that a word names.
fn command_of(word: &str) -> Option<Command>
    ensures asked { IfSome result (λ command. word.now ≡ command_text command) }
    ensures unknown { result ≡ None → (command : Command) → word.now ≡ command_text command → ⊥ }
{
    match word {
        "parse" => Some(Command::Parse),
        "check" => Some(Command::Check),
        _ => None,
    }
}

/// The grammar of a name.
fn grammar_of(name: &str) -> Option<Grammar>
    ensures asked { IfSome result (λ grammar. name.now ≡ grammar_text grammar) }
    ensures unknown { result ≡ None → (grammar : Grammar) → name.now ≡ grammar_text grammar → ⊥ }
{
    match name {
        "ab" => Some(Grammar::Ab),
        "list" => Some(Grammar::List),
        "loops" => Some(Grammar::Loops),
        "settings" => Some(Grammar::Settings),
        _ => None,
    }
}
