//! The texts that are written: answers, errors, requests, notifications, `initialize` and `initialized`.
ghost use Rattle.std.specs.Prelude.{◌≡◌, ◌++◌, IfOk};
ghost use Rattle.std.specs.Option.{option_map};
ghost use Rattle.rpc_message.specs.Codes.{code_of};
ghost use Rattle.rpc_message.specs.Texts.{error_reply_text, error_text, initialize_text, initialized_text, notification_text, ok_text, optional_text, request_text};

use crate::code::ErrorCode;
use itoa::Buffer;
use json_span::quote;
use json_text::message_body::{Body, Memory};
use std::alloc::Global;

/// The answer of a request: its id, and the result's bytes (JSON-RPC 2.0, section 5).
pub fn ok_reply(alloc: Global, id: &[u8], value: &[u8]) -> Result<Body, Memory>
    ensures { IfOk result (λ body. body ≡ ok_text id.now value.now) }
{
    let mut text = Vec::new(alloc);
    text.extend_from_slice("{\"jsonrpc\":\"2.0\",\"id\":".as_bytes())?;
    text.extend_from_slice(id)?;
    text.extend_from_slice(",\"result\":".as_bytes())?;
    text.extend_from_slice(value)?;
    text.extend_from_slice("}".as_bytes())?;
    Ok(Body::new(text))
}

/// An answer that tells of an error, by its code and its message (JSON-RPC 2.0, section 5.1).
pub fn error_reply(alloc: Global, id: &[u8], code: i32, message: &str) -> Result<Body, Memory>
    ensures { IfOk result (λ body. body ≡ error_reply_text id.now code message.now) }
{
    let message = quote(alloc, message.as_bytes())?;
    let mut digits = Buffer::new();
    let mut text = Vec::new(alloc);
    text.extend_from_slice("{\"jsonrpc\":\"2.0\",\"id\":".as_bytes())?;
    text.extend_from_slice(id)?;
    text.extend_from_slice(",\"error\":{\"code\":".as_bytes())?;
    text.extend_from_slice(digits.format(code).as_bytes())?;
    text.extend_from_slice(",\"message\":".as_bytes())?;
    text.extend_from_slice(message.bytes())?;
    text.extend_from_slice("}}".as_bytes())?;
    Ok(Body::new(text))
}

/// An answer that tells of one of the errors that are written.
pub fn error_answer(alloc: Global, id: &[u8], code: ErrorCode) -> Result<Body, Memory>
    ensures { IfOk result (λ body. body ≡ error_text id.now (code_of code)) }
{
    error_reply(alloc, id, code.number(), code.message())
}

/// A request of this number (JSON-RPC 2.0, section 4), with its params' bytes, where it has some.
pub fn request(
    alloc: Global,
    number: u128,
    method: &str,
    params: Option<&[u8]>,
) -> Result<Body, Memory>
    ensures { IfOk result (λ body. body ≡ request_text number method.now (option_map (λ b. b.now) params.entry)) }
{
    let method = quote(alloc, method.as_bytes())?;
    let mut digits = Buffer::new();
    let mut text = Vec::new(alloc);
    text.extend_from_slice("{\"jsonrpc\":\"2.0\",\"id\":".as_bytes())?;
    text.extend_from_slice(digits.format(number).as_bytes())?;
    text.extend_from_slice(",\"method\":".as_bytes())?;
    text.extend_from_slice(method.bytes())?;
    add_optional(&mut text, ",\"params\":", params)?;
    text.extend_from_slice("}".as_bytes())?;
    Ok(Body::new(text))
}

/// A notification (JSON-RPC 2.0, section 4.1), with its params' bytes, where it has some.
pub fn notification(alloc: Global, method: &str, params: Option<&[u8]>) -> Result<Body, Memory>
    ensures { IfOk result (λ body. body ≡ notification_text method.now (option_map (λ b. b.now) params.entry)) }
{
    let method = quote(alloc, method.as_bytes())?;
    let mut text = Vec::new(alloc);
    text.extend_from_slice("{\"jsonrpc\":\"2.0\",\"method\":".as_bytes())?;
    text.extend_from_slice(method.bytes())?;
    add_optional(&mut text, ",\"params\":", params)?;
    text.extend_from_slice("}".as_bytes())?;
    Ok(Body::new(text))
}

/// The notification `initialized` (LSP 3.17, Initialized Notification).
pub fn initialized(alloc: Global) -> Result<Body, Memory>
    ensures { IfOk result (λ body. body ≡ initialized_text) }
{
    let text = "{\"jsonrpc\":\"2.0\",\"method\":\"initialized\",\"params\":{}}";
    Ok(Body::new(Vec::from_slice(alloc, text.as_bytes())?))
}

/// The request `initialize`, under the id 1 (LSP 3.17, Initialize Request): with the root (null or a URI), the client's options,
/// its capabilities and its workspace folders, as their bytes came.
pub fn initialize(
    alloc: Global,
    root: &[u8],
    options: Option<&[u8]>,
    capabilities: &[u8],
    folders: Option<&[u8]>,
) -> Result<Body, Memory>
    ensures { IfOk result (λ body. body
        ≡ initialize_text root.now (option_map (λ b. b.now) options.entry) capabilities.now (option_map (λ b. b.now) folders.entry)) }
{
    let mut text = Vec::new(alloc);
    text.extend_from_slice(
        "{\"jsonrpc\":\"2.0\",\"id\":1,\"method\":\"initialize\",\"params\":{\"processId\":null,\"clientInfo\":{\"name\":\"lspmux\"},\"rootUri\":".as_bytes(),
    )?;
    text.extend_from_slice(root)?;
    add_optional(&mut text, ",\"initializationOptions\":", options)?;
    text.extend_from_slice(",\"capabilities\":".as_bytes())?;
    text.extend_from_slice(capabilities)?;
    text.extend_from_slice(",\"trace\":\"off\"".as_bytes())?;
    add_optional(&mut text, ",\"workspaceFolders\":", folders)?;
    text.extend_from_slice("}}".as_bytes())?;
    Ok(Body::new(text))
}

// A member that may be there or not.
fn add_optional(text: &mut Vec<u8>, name: &str, value: Option<&[u8]>) -> Result<(), Memory>
    ensures { IfOk result (λ done. text.new.items ≡ text.old.items ++ optional_text name.now (option_map (λ b. b.now) value.entry)) }
{
    if let Some(value) = value {
        text.extend_from_slice(name.as_bytes())?;
        text.extend_from_slice(value)?;
    }
    Ok(())
}
