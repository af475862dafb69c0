//! Comma-separated values as text again.
ghost use Rattle.std.specs.Prelude.{◌≡◌, ℕ, ◌++◌, List, [], ◌∷◌, IfOk, OnOk, flat_map, map, string_bytes};
ghost use Rattle.std.specs.List.{list_all};
ghost use Rattle.std.specs.Str.{chars};
ghost use Rattle.exact.specs.Csv.{is_text_data, doubled, field_of, record_of, IsCsv};
ghost use Rattle.exact.specs.CsvWritten.{quoted_text, field_text, led_text, record_text, line_text, csv_text, AreWritable};

use std::alloc::{AllocError, Global};

/// Writes a character.
fn push_one(text: &mut String, character: char) -> Result<(), AllocError>
    ensures { OnOk result (chars (string_bytes text.new) ≡ chars (string_bytes text.old) ++ character ∷ []) }
{
    text.push(character)?;
    Ok(())
}

/// Whether a character may stand in a field without quotes.
fn is_text_data(character: char) -> bool
    ensures { result ≡ is_text_data character }
{
    !(character == ',' || character == '"' || character == '\r' || character == '\n')
}

/// Whether all that stands in a field may do so without quotes.
fn needs_no_quotes(field: &str) -> bool
    ensures { result ≡ list_all is_text_data (chars field.now) }
{
    field.chars().all(|character| is_text_data(character))
}

/// Writes a character, and a quote twice.
fn push_piece(text: &mut String, character: char) -> Result<(), AllocError>
    ensures { OnOk result (chars (string_bytes text.new) ≡ chars (string_bytes text.old) ++ doubled (character ∷ [])) }
{
    if character == '"' {
        push_one(text, '"')?;
    }
    push_one(text, character)
}

/// Writes a field between quotes.
fn push_quoted(text: &mut String, field: &str) -> Result<(), AllocError>
    ensures { OnOk result (chars (string_bytes text.new) ≡ chars (string_bytes text.old) ++ quoted_text (chars field.now)) }
{
    push_one(text, '"')?;
    for character in field.chars() {
        push_piece(text, character)?;
    }
    push_one(text, '"')?;
    Ok(())
}

/// Writes a field as it stands.
fn push_plain(text: &mut String, field: &str) -> Result<(), AllocError>
    ensures { OnOk result (chars (string_bytes text.new) ≡ chars (string_bytes text.old) ++ chars field.now) }
{
    text.push_str(field)?;
    Ok(())
}

/// Writes a field, between quotes where it needs them.
fn push_field(text: &mut String, field: &str) -> Result<(), AllocError>
    ensures { OnOk result (chars (string_bytes text.new) ≡ chars (string_bytes text.old) ++ field_text (chars field.now)) }
{
    if needs_no_quotes(field) {
        push_plain(text, field)
    } else {
        push_quoted(text, field)
    }
}

/// Writes a comma and a field.
fn push_led(text: &mut String, field: &String) -> Result<(), AllocError>
    ensures { OnOk result (chars (string_bytes text.new) ≡ chars (string_bytes text.old) ++ led_text (field_of field.now)) }
{
    push_one(text, ',')?;
    push_field(text, field.as_str())
}

/// Writes fields with a comma before each.
fn push_rest(text: &mut String, fields: &[String]) -> Result<(), AllocError>
    ensures { OnOk result (chars (string_bytes text.new) ≡ chars (string_bytes text.old) ++ flat_map (λ field. led_text (field_of field)) fields.now) }
{
    for field in fields {
        push_led(text, field)?;
    }
    Ok(())
}

/// Writes fields with a comma between each two.
fn push_fields(text: &mut String, fields: &[String]) -> Result<(), AllocError>
    ensures { OnOk result (chars (string_bytes text.new) ≡ chars (string_bytes text.old) ++ record_text (map field_of fields.now)) }
{
    match fields.split_first() {
        Some((first, rest)) => {
            push_field(text, first.as_str())?;
            push_rest(text, rest)?;
            Ok(())
        }
        None => Ok(()),
    }
}

/// Writes a record and a line end.
fn push_record(text: &mut String, fields: &Vec<String>) -> Result<(), AllocError>
    ensures { OnOk result (chars (string_bytes text.new) ≡ chars (string_bytes text.old) ++ line_text (record_of fields.now)) }
{
    push_fields(text, fields.as_slice())?;
    push_one(text, '\r')?;
    push_one(text, '\n')
}

/// Records as text, as `name,"a ""b"""`, each ended by CRLF; a field has quotes where a comma, a quote, CR or LF stands in it. Where
/// there is one record at least, and one field at least in each, the text is of these records, and of no others: so `parse_csv` gives
/// them back. They are so where they were read. The only error is want of memory.
pub fn print_csv(alloc: Global, records: &[Vec<String>]) -> Result<String, AllocError>
    ensures text { IfOk result (λ text. chars (string_bytes text) ≡ csv_text (map record_of records.now)) }
    ensures holds { AreWritable (map record_of records.now) → IfOk result (λ text. IsCsv (chars (string_bytes text)) (map record_of records.now)) }
    ensures once { AreWritable (map record_of records.now) → IfOk result (λ text. (others : List (List (List ℕ))) → IsCsv (chars (string_bytes text)) others → others ≡ map record_of records.now) }
    ensures again { (source : List ℕ) → IsCsv source (map record_of records.now) → IfOk result (λ text. IsCsv (chars (string_bytes text)) (map record_of records.now)) }
{
    let mut text = String::new(alloc);
    for fields in records {
        push_record(&mut text, fields)?;
    }
    Ok(text)
}
