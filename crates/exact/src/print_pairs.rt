//! Settings as text again.
ghost use Rattle.std.specs.Prelude.{◌≡◌, ℕ, ◌++◌, List, IfOk, OnOk, flat_map, string_bytes};
ghost use Rattle.std.specs.Str.{chars};
ghost use Rattle.chumsky_exact.specs.Rendered.{OfEach};
ghost use Rattle.exact.specs.Pairs.{Pair, IsPair, IsPairs, ended, texts_of};

use std::alloc::{AllocError, Global};

/// Writes a name and a number in a line, as `size=10`, and ends it.
fn push_pair(text: &mut String, name: &str, number: &str) -> Result<(), AllocError>
    ensures { OnOk result (chars (string_bytes text.new) ≡ chars (string_bytes text.old) ++ ended (chars name.now, chars number.now)) }
{
    text.push_str(name)?;
    text.push('=')?;
    text.push_str(number)?;
    text.push('\n')?;
    Ok(())
}

/// Names and numbers as text without blanks, as `size=10`, one pair a line, of which each is ended. Where they are names and numbers,
/// the text is of these pairs, and of no others: so `parse_pairs` gives them back. They are so where they were read. The only error is
/// want of memory.
pub fn print_pairs(alloc: Global, pairs: &[(&str, &str)]) -> Result<String, AllocError>
    ensures text { IfOk result (λ text. chars (string_bytes text) ≡ flat_map (λ pair. ended (chars pair.0.now, chars pair.1.now)) pairs.now) }
    ensures holds { OfEach IsPair (texts_of pairs.now) → IfOk result (λ text. IsPairs (chars (string_bytes text)) (texts_of pairs.now)) }
    ensures once { OfEach IsPair (texts_of pairs.now) → IfOk result (λ text. (others : List Pair) → IsPairs (chars (string_bytes text)) others → others ≡ texts_of pairs.now) }
    ensures again { (source : List ℕ) → IsPairs source (texts_of pairs.now) → IfOk result (λ text. IsPairs (chars (string_bytes text)) (texts_of pairs.now)) }
{
    let mut text = String::new(alloc);
    for pair in pairs {
        push_pair(&mut text, pair.0, pair.1)?;
    }
    Ok(text)
}
