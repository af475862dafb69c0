//! JSON as text again.
ghost use Rattle.std.specs.Prelude.{◌≡◌, ℕ, ◌/◌, ◌%◌, ◌<◌, ◌++◌, List, [], ◌∷◌, IfOk, OnOk, codes, string_bytes};
ghost use Rattle.std.specs.Char.{digit_char};
ghost use Rattle.std.specs.Str.{chars};
ghost use Rattle.exact.specs.declared.json_value.Json.{Json};
ghost use Rattle.exact.specs.JsonForms.{HoldsJson, form_of, truth};
ghost use Rattle.exact.specs.JsonWritten.{AreNumbers, character_text, comma_before, letter_of, string_text, written};

use crate::json_value::Json;
use std::alloc::{AllocError, Global};
use std::char;

/// The letter that stands for a character after a backslash.
fn letter_of(character: char) -> Option<char>
    ensures { result ≡ letter_of character }
{
    match character {
        '"' => Some('"'),
        '\\' => Some('\\'),
        '\u{8}' => Some('b'),
        '\u{c}' => Some('f'),
        '\n' => Some('n'),
        '\r' => Some('r'),
        '\t' => Some('t'),
        _ => None,
    }
}

/// Writes a character.
fn push_plain(text: &mut String, character: char) -> Result<(), AllocError>
    ensures { OnOk result (chars (string_bytes text.new) ≡ chars (string_bytes text.old) ++ character ∷ []) }
{
    text.push(character)?;
    Ok(())
}

/// The hexadecimal digit of a number below 16.
fn hex_digit(number: u32) -> char
    requires { number < 16 }
    ensures { result ≡ digit_char number }
{
    match char::from_digit(number, 16) {
        Some(digit) => digit,
        None => '0',
    }
}

/// Writes a control character by its number.
fn push_control(text: &mut String, character: char) -> Result<(), AllocError>
    requires { character < 32 }
    ensures { OnOk result (chars (string_bytes text.new) ≡ chars (string_bytes text.old) ++ 92 ∷ 117 ∷ 48 ∷ 48 ∷ digit_char (character / 16) ∷ digit_char (character % 16) ∷ []) }
{
    let number = u32::from(character);
    let high = hex_digit(number / 16);
    let low = hex_digit(number % 16);
    text.push_str("\\u00")?;
    push_plain(text, high)?;
    push_plain(text, low)?;
    Ok(())
}

/// Writes what stands in a string for a character.
fn push_character(text: &mut String, character: char) -> Result<(), AllocError>
    ensures { OnOk result (chars (string_bytes text.new) ≡ chars (string_bytes text.old) ++ character_text character) }
{
    match letter_of(character) {
        Some(letter) => {
            push_plain(text, '\\')?;
            push_plain(text, letter)
        }
        None => {
            if character < ' ' {
                push_control(text, character)
            } else {
                push_plain(text, character)
            }
        }
    }
}

/// Writes characters between quotes.
fn push_string(text: &mut String, string: &str) -> Result<(), AllocError>
    ensures { OnOk result (chars (string_bytes text.new) ≡ chars (string_bytes text.old) ++ string_text (chars string.now)) }
{
    push_plain(text, '"')?;
    for character in string.chars() {
        push_character(text, character)?;
    }
    push_plain(text, '"')?;
    Ok(())
}

/// Writes a number as it stands.
fn push_number(text: &mut String, number: &str) -> Result<(), AllocError>
    ensures { OnOk result (chars (string_bytes text.new) ≡ chars (string_bytes text.old) ++ chars number.now) }
{
    text.push_str(number)?;
    Ok(())
}

/// Writes the word `null`.
fn push_null(text: &mut String) -> Result<(), AllocError>
    ensures { OnOk result (chars (string_bytes text.new) ≡ chars (string_bytes text.old) ++ codes "null") }
{
    text.push_str("null")?;
    Ok(())
}

/// Writes a truth value as its word.
fn push_truth(text: &mut String, holds: bool) -> Result<(), AllocError>
    ensures { OnOk result (chars (string_bytes text.new) ≡ chars (string_bytes text.old) ++ written (truth holds)) }
{
    if holds {
        text.push_str("true")?;
        return Ok(());
    }
    text.push_str("false")?;
    Ok(())
}

/// Writes a comma, but none before the first.
fn push_comma(text: &mut String, index: usize) -> Result<(), AllocError>
    ensures { OnOk result (chars (string_bytes text.new) ≡ chars (string_bytes text.old) ++ comma_before index) }
{
    if index == 0 {
        return Ok(());
    }
    push_plain(text, ',')
}

/// Writes the name of a member, after a comma where it isn't the first.
fn push_name(text: &mut String, index: usize, name: &str) -> Result<(), AllocError>
    ensures { OnOk result (chars (string_bytes text.new) ≡ (chars (string_bytes text.old) ++ comma_before index) ++ (string_text (chars name.now) ++ codes ":")) }
{
    push_comma(text, index)?;
    push_string(text, name)?;
    push_plain(text, ':')
}

/// Writes a value at the end of a text.
fn push_json(text: &mut String, value: &Json) -> Result<(), AllocError>
    ensures { OnOk result (chars (string_bytes text.new) ≡ chars (string_bytes text.old) ++ written (form_of value.now)) }
{
    match value {
        Json::Null => push_null(text),
        Json::Bool(holds) => push_truth(text, *holds),
        Json::Number(number) => push_number(text, number.as_str()),
        Json::String(string) => push_string(text, string.as_str()),
        Json::Array(elements) => {
            push_plain(text, '[')?;
            for (index, element) in elements.iter().enumerate() {
                push_comma(text, index)?;
                push_json(text, element)?;
            }
            push_plain(text, ']')?;
            Ok(())
        }
        Json::Object(members) => {
            push_plain(text, '{')?;
            for (place, member) in members.iter().enumerate() {
                push_name(text, place, member.0.as_str())?;
                push_json(text, &member.1)?;
            }
            push_plain(text, '}')?;
            Ok(())
        }
    }
}

/// A value as text without blanks, as `{"a":[1,"\n"]}`. A string has escapes only for quotes, backslashes and control characters, the
/// short ones where there are such, and a number stands as it is. Where the numbers in it are numbers of JSON, the text is JSON of the
/// value, and of no other: so what reads JSON exactly gives it back. They are so in each value that was read. The only error is want of
/// memory.
pub fn print_json(alloc: Global, value: &Json) -> Result<String, AllocError>
    ensures text { IfOk result (λ text. chars (string_bytes text) ≡ written (form_of value.now)) }
    ensures holds { AreNumbers (form_of value.now) → IfOk result (λ text. HoldsJson (chars (string_bytes text)) value.now) }
    ensures once { AreNumbers (form_of value.now) → IfOk result (λ text. (other : Json) → HoldsJson (chars (string_bytes text)) other → form_of other ≡ form_of value.now) }
    ensures again { (source : List ℕ) → HoldsJson source value.now → IfOk result (λ text. HoldsJson (chars (string_bytes text)) value.now) }
{
    let mut text = String::new(alloc);
    push_json(&mut text, value)?;
    Ok(text)
}
