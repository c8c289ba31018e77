//! JSON values for bytes and numbers.
ghost use Rattle.std.specs.Prelude.{◌≡◌, ◌<◌, ◌++◌, ◌∷◌, [], IfOk, map, string_bytes};
ghost use Rattle.std.specs.Char.{digit_char, encode_utf8};
ghost use Rattle.std.specs.List.{flat_map};
ghost use Rattle.json.specs.Print.{escape};
ghost use Rattle.serde_json.specs.Data.{string};
ghost use Rattle.serde_json.specs.View.{view};
ghost use Rattle.serde_json.specs.Written.{comma_if, compact_text};
ghost use Rattle.w16_show.specs.Words.{Adds};
ghost use Rattle.w16_show.specs.Plain.{AddsJson, IsPlain, Makes, PassesOn};
ghost use Rattle.w16_show.specs.Json.{n, text, list, label_json, kind_json};
ghost use Rattle.w16_ne.specs.Resources.{label_of};

use crate::words::kind_word;
use serde_json::Value;
use std::alloc::{AllocError, Global};
use std::io::{self, Write};
use w16_ne::ResourceName;

/// A text of bytes, each as the character of its code.
pub fn text_value(alloc: Global, bytes: &[u8]) -> Result<Value, AllocError>
    ensures { Makes result (text bytes.now) }
{
    let mut text = String::new(alloc);
    for byte in bytes {
        text.push(char::from(*byte))?;
    }
    Ok(Value::String(text))
}

/// A text that stands in the code.
pub fn word_value(alloc: Global, word: &str) -> Result<Value, AllocError>
    ensures { Makes result (string word.now) }
{
    Ok(Value::String(String::from_str(alloc, word)?))
}

/// Adds a digit of base 16 to a text.
fn push_digit(out: &mut String, digit: u8) -> Result<(), AllocError>
    requires { digit < 16 }
    ensures { Adds result (string_bytes out.old) (string_bytes out.new) (digit_char digit ∷ []) }
{
    if digit < 10 {
        out.push(char::from(b'0' + digit))
    } else {
        out.push(char::from(b'a' + (digit - 10)))
    }
}

/// Adds the character of a byte's code to a text, as it stands in a string of JSON.
#[tactic(auto, using(crate::proofs::Characters::as_it_is), unfolding(json::specs::Print::escape_byte))]
fn push_character(out: &mut String, byte: u8) -> Result<(), AllocError>
    ensures { Adds result (string_bytes out.old) (string_bytes out.new) (escape (encode_utf8 byte)) }
{
    match byte {
        b'"' => out.push_str("\\\""),
        b'\\' => out.push_str("\\\\"),
        8 => out.push_str("\\b"),
        9 => out.push_str("\\t"),
        10 => out.push_str("\\n"),
        12 => out.push_str("\\f"),
        13 => out.push_str("\\r"),
        0..=31 => {
            out.push_str("\\u00")?;
            push_digit(out, byte / 16)?;
            push_digit(out, byte % 16)
        }
        _ => out.push(char::from(byte)),
    }
}

/// Adds the characters of bytes to a text, as they stand in a string of JSON.
fn push_characters(out: &mut String, bytes: &[u8]) -> Result<(), AllocError>
    ensures { Adds result (string_bytes out.old) (string_bytes out.new) (flat_map (λ b. escape (encode_utf8 b)) bytes.now) }
{
    for byte in bytes {
        push_character(out, *byte)?;
    }
    Ok(())
}

/// Adds to a text a string of bytes, each as the character of its code.
pub fn push_text(out: &mut String, bytes: &[u8]) -> Result<(), AllocError>
    ensures { AddsJson result (string_bytes out.old) (string_bytes out.new) (text bytes.now) }
{
    out.push_str("\"")?;
    push_characters(out, bytes)?;
    out.push_str("\"")
}

/// Adds an offset of a list to a text.
fn push_offset(out: &mut String, later: bool, offset: u16) -> Result<(), AllocError>
    ensures { Adds result (string_bytes out.old) (string_bytes out.new) (comma_if later ++ compact_text (n offset)) }
{
    out.push_str(comma(later))?;
    write!(out, "{offset}")
}

/// Adds a list of offsets to a text.
pub fn push_offsets(out: &mut String, offsets: &[u16]) -> Result<(), AllocError>
    ensures { AddsJson result (string_bytes out.old) (string_bytes out.new) (list (map n offsets.now)) }
{
    out.push_str("[")?;
    for i in 0..offsets.len() {
        push_offset(out, i > 0, offsets[i])?;
    }
    out.push_str("]")
}

/// A type or an id of resources: its number, or its text.
pub fn label_value(alloc: Global, label: ResourceName<'_>) -> Result<Value, AllocError>
    ensures { Makes result (label_json (label_of label.entry)) }
{
    match label {
        ResourceName::Number(number) => Ok(Value::from(number)),
        ResourceName::Text(bytes) => text_value(alloc, bytes),
    }
}

/// The manual's name for a type of resources; null where it has none.
pub fn kind_value(alloc: Global, kind: ResourceName<'_>) -> Result<Value, AllocError>
    ensures { Makes result (kind_json (label_of kind.entry)) }
{
    if let ResourceName::Number(number) = kind
        && let Some(word) = kind_word(number)
    {
        return word_value(alloc, word);
    }
    Ok(Value::Null)
}

/// What stands before a value of a list.
pub fn comma(later: bool) -> &'static str
    ensures { result.now ≡ comma_if later }
{
    if later { "," } else { "" }
}

/// Sends a value, and a comma before it where something stands before it in a list.
pub fn send_value<W: Write>(
    alloc: Global,
    writer: &mut W,
    later: bool,
    value: &Value,
) -> io::Result<bool>
    ensures { IsPlain (view value.now) → IfOk result (λ now. PassesOn (W.contents writer.old) (W.contents writer.new) later now (view value.now ∷ [])) }
{
    let text = value.to_vec(alloc)?;
    writer.write_all(comma(later).as_bytes())?;
    writer.write_all(&text)?;
    Ok(true)
}
