//! What a value of a setting may be.
ghost use Rattle.std.specs.Prelude.{◌≡◌, ◌≤◌, ◌&&◌, IfOk, Some, codes, length, option_and_then, option_copied, option_map};
ghost use Rattle.std.specs.Str.{all_ascii_digits};
ghost use Rattle.json_nodes.specs.Doc.{Holds};
ghost use Rattle.json_text.specs.Json.{Json};
ghost use Rattle.json_text.specs.Tree.{tree_of};
ghost use Rattle.outside_io.specs.Doors.{address_of, unix};
ghost use Rattle.toml.specs.Data.{get_member};
ghost use Rattle.toml.specs.View.{items_view, table_view, view};
ghost use Rattle.mux_config.specs.Settings.{all_strings, behind, has_item, is_ceiling, is_command, is_numeral, is_object, is_object_kind, number_in, path_place, place_in, port_in, text_place};

use json_span::{JsonFault, Kind, Tape};
use outside_io::Place;
use std::alloc::{AllocError, Global};
use toml::{Table, Value};

/// The value of a key.
pub fn member<'a>(table: &'a Table, key: &str) -> Option<&'a Value>
    ensures { option_map (λ v. view v.now) result ≡ get_member key.now (table_view table.now) }
{
    table.get(key)
}

/// The number of a range that a value is.
pub fn number(value: &Value, low: u32, high: u32) -> Option<u32>
    ensures { result ≡ number_in low high (view value.now) }
{
    let number = value.as_integer()?;
    match u32::try_from(number) {
        Ok(number) if low <= number && number <= high => Some(number),
        _ => None,
    }
}

// What follows a prefix.
fn behind<'a>(text: &'a str, prefix: &str) -> Option<&'a str>
    ensures { option_copied result ≡ behind prefix.now text.now }
{
    text.strip_prefix(prefix)
}

// Whether each byte is a decimal digit.
fn are_digits(bytes: &[u8]) -> bool
    ensures { result ≡ all_ascii_digits bytes.now }
{
    for byte in bytes {
        if !byte.is_ascii_digit() {
            return false;
        }
    }
    true
}

// Whether bytes are decimal digits, of which the first is no zero.
fn is_numeral(bytes: &[u8]) -> bool
    ensures { result ≡ is_numeral bytes.now }
{
    !bytes.is_empty() && bytes[0] != b'0' && are_digits(bytes)
}

// A port, 1 to 65535, in decimal digits of which the first is no zero.
fn port(text: &str) -> Option<u16>
    ensures { result ≡ port_in text.now }
{
    if !is_numeral(text.as_bytes()) {
        return None;
    }
    match text.parse::<u16>() {
        Ok(port) => Some(port),
        Err(_error) => None,
    }
}

// The port that a text `tcp:PORT` says.
fn tcp_port(text: &str) -> Option<u16>
    ensures { result ≡ option_and_then port_in (behind (codes "tcp:") text.now) }
{
    port(behind(text, "tcp:")?)
}

// The path that a text `unix:PATH` says, of 1 to 100 bytes.
fn unix_path(text: &str) -> Option<&str>
    ensures { option_map (λ path. unix path.now) result ≡ option_and_then path_place (behind (codes "unix:") text.now) }
{
    let path = behind(text, "unix:")?;
    if path.is_empty() || path.len() > 100 {
        return None;
    }
    Some(path)
}

// The place that a text says.
fn text_place(alloc: Global, text: &str) -> Result<Option<Place>, AllocError>
    ensures { IfOk result (λ place. option_map address_of place ≡ text_place text.now) }
{
    if let Some(path) = unix_path(text) {
        return Ok(Some(Place::Unix(String::from_str(alloc, path)?)));
    }
    match tcp_port(text) {
        Some(port) => Ok(Some(Place::Tcp(port))),
        None if text == "streams" => Ok(Some(Place::Streams)),
        None => Ok(None),
    }
}

/// The place that a value is.
pub fn place_in(alloc: Global, value: &Value) -> Result<Option<Place>, AllocError>
    ensures { IfOk result (λ place. option_map address_of place ≡ place_in (view value.now)) }
{
    match value.as_str() {
        Some(text) => text_place(alloc, text),
        None => Ok(None),
    }
}

fn is_object_kind(kind: Kind) -> bool
    ensures { result ≡ is_object_kind kind }
{
    matches!(kind, Kind::Object)
}

// Whether a JSON text is an object.
fn holds_object(tape: &Tape) -> bool
    ensures { (t : Json) → Holds tape.now t → result ≡ is_object (Some t) }
{
    is_object_kind(tape.kind(tape.root()))
}

// Whether bytes are the text of a JSON object (RFC 8259, section 4) that nests at most 1,024 deep.
fn is_object(alloc: Global, bytes: &[u8]) -> Result<bool, AllocError>
    requires { length bytes.now ≤ 1048576 }
    ensures { IfOk result (λ is. is ≡ is_object (tree_of bytes.now)) }
{
    match Tape::read(alloc, bytes) {
        Ok(tape) => Ok(holds_object(&tape)),
        Err(JsonFault::Memory) => Err(AllocError),
        Err(JsonFault::Syntax(_)) => Ok(false),
        Err(JsonFault::TooDeep(_)) => Ok(false),
    }
}

/// Whether a value is a ceiling: the text of a JSON object, of at most 1,048,576 bytes.
pub fn is_ceiling(alloc: Global, value: &Value) -> Result<bool, AllocError>
    ensures { IfOk result (λ is. is ≡ is_ceiling (view value.now)) }
{
    match value.as_str() {
        Some(text) if text.len() <= 1_048_576 => is_object(alloc, text.as_bytes()),
        _ => Ok(false),
    }
}

// Whether each value is a string.
fn are_strings(values: &[Value]) -> bool
    ensures { result ≡ all_strings (items_view values.now) }
{
    for value in values {
        if !value.is_str() {
            return false;
        }
    }
    true
}

// Whether there is a value, and each is a string.
fn are_words(values: &[Value]) -> bool
    ensures { result ≡ (has_item (items_view values.now) && all_strings (items_view values.now)) }
{
    match values {
        [] => false,
        [_, ..] => are_strings(values),
    }
}

/// Whether a value is a command: one or more strings.
#[tactic(auto, using(crate::proofs::Commands::command_is))]
pub fn is_command(value: &Value) -> bool
    ensures { result ≡ is_command (view value.now) }
{
    match value.as_array() {
        Some(words) => are_words(words.as_slice()),
        None => false,
    }
}
