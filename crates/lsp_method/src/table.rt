// The class table.
ghost use Rattle.std.specs.Prelude.{◌≡◌, bytes_eq};
ghost use Rattle.lsp_method.specs.Class.{class_of, own_request, own_notification, goes_nowhere, editor_request, editor_notification, is_refresh, is_focused, server_request, server_notification};

use crate::variants::{Class, Origin};

/// The class of a method (LSP 3.17) by its decoded bytes, its sender and whether it is a notification.
/// An editor's request under the name of an editor's notification is wrong, a notification under that of a request is dropped.
pub fn class(method: &[u8], sender: Origin, notification: bool) -> Class
    ensures { result ≡ class_of method.now sender notification }
{
    match (sender, notification) {
        (Origin::Editor, false) => editor_request(method),
        (Origin::Editor, true) => editor_notification(method),
        (Origin::Server, false) => server_request(method),
        (Origin::Server, true) => server_notification(method),
    }
}

// Whether a method has this name.
fn is(method: &[u8], name: &str) -> bool
    ensures { result ≡ bytes_eq method.now name.now }
{
    method == name.as_bytes()
}

// The class of an editor's request.
#[tactic(auto, unfolding(crate::specs::Class::editor_request))]
fn editor_request(method: &[u8]) -> Class
    ensures { result ≡ editor_request method.now }
{
    match own_request(method) {
        Some(class) => class,
        None if own_notification(method).is_some() || goes_nowhere(method) => Class::Wrong,
        None => Class::Other,
    }
}

// The class of an editor's notification.
#[tactic(auto, unfolding(crate::specs::Class::editor_notification))]
fn editor_notification(method: &[u8]) -> Class
    ensures { result ≡ editor_notification method.now }
{
    match own_notification(method) {
        Some(class) => class,
        None if goes_nowhere(method) || own_request(method).is_some() => Class::Dropped,
        None => Class::Other,
    }
}

// The class of an editor's request that has one of its own.
#[tactic(auto, unfolding(crate::specs::Class::own_request))]
fn own_request(method: &[u8]) -> Option<Class>
    ensures { result ≡ own_request method.now }
{
    if is(method, "initialize") {
        Some(Class::Initialize)
    } else if is(method, "shutdown") {
        Some(Class::Shutdown)
    } else if is(method, "lspmux/open") {
        Some(Class::LspmuxOpen)
    } else if is(method, "lspmux/status") {
        Some(Class::LspmuxStatus)
    } else if is(method, "lspmux/stop") {
        Some(Class::LspmuxStop)
    } else {
        None
    }
}

// The class of an editor's notification that has one of its own.
#[tactic(auto, unfolding(crate::specs::Class::own_notification))]
fn own_notification(method: &[u8]) -> Option<Class>
    ensures { result ≡ own_notification method.now }
{
    if is(method, "initialized") {
        Some(Class::Initialized)
    } else if is(method, "exit") {
        Some(Class::Exit)
    } else if is(method, "textDocument/didOpen") {
        Some(Class::DidOpen)
    } else if is(method, "textDocument/didChange") {
        Some(Class::DidChange)
    } else if is(method, "textDocument/didClose") {
        Some(Class::DidClose)
    } else if is(method, "$/cancelRequest") {
        Some(Class::Cancel)
    } else if is(method, "window/workDoneProgress/cancel") {
        Some(Class::ProgressCancel)
    } else if is(method, "workspace/didChangeConfiguration") {
        Some(Class::Configuration)
    } else {
        None
    }
}

// Whether a notification goes nowhere when an editor sends it.
#[tactic(auto, unfolding(crate::specs::Class::goes_nowhere))]
fn goes_nowhere(method: &[u8]) -> bool
    ensures { result ≡ goes_nowhere method.now }
{
    is(method, "$/setTrace")
        || is(method, "$/progress")
        || is(method, "notebookDocument/didOpen")
        || is(method, "notebookDocument/didChange")
        || is(method, "notebookDocument/didSave")
        || is(method, "notebookDocument/didClose")
        || is(method, "workspace/didChangeWorkspaceFolders")
}

// The class of a server's request.
#[tactic(auto, unfolding(crate::specs::Class::server_request))]
fn server_request(method: &[u8]) -> Class
    ensures { result ≡ server_request method.now }
{
    if is(method, "client/registerCapability") {
        Class::Register
    } else if is(method, "client/unregisterCapability") {
        Class::Unregister
    } else if is(method, "window/workDoneProgress/create") {
        Class::Create
    } else if is(method, "workspace/workspaceFolders") {
        Class::Folders
    } else if is_refresh(method) {
        Class::Refresh
    } else if is_focused(method) {
        Class::Focused
    } else {
        Class::Lowest
    }
}

// Whether a server's request asks all editors to ask anew for what they show.
#[tactic(auto, unfolding(crate::specs::Class::is_refresh))]
fn is_refresh(method: &[u8]) -> bool
    ensures { result ≡ is_refresh method.now }
{
    is(method, "workspace/codeLens/refresh")
        || is(method, "workspace/semanticTokens/refresh")
        || is(method, "workspace/inlayHint/refresh")
        || is(method, "workspace/inlineValue/refresh")
        || is(method, "workspace/diagnostic/refresh")
}

// Whether a server's request is for the editor in focus.
#[tactic(auto, unfolding(crate::specs::Class::is_focused))]
fn is_focused(method: &[u8]) -> bool
    ensures { result ≡ is_focused method.now }
{
    is(method, "workspace/applyEdit")
        || is(method, "window/showMessageRequest")
        || is(method, "window/showDocument")
}

// The class of a server's notification.
#[tactic(auto, unfolding(crate::specs::Class::server_notification))]
fn server_notification(method: &[u8]) -> Class
    ensures { result ≡ server_notification method.now }
{
    if is(method, "$/progress") {
        Class::Progress
    } else if is(method, "$/cancelRequest") {
        Class::Cancel
    } else if is(method, "textDocument/publishDiagnostics") {
        Class::Diagnostics
    } else {
        Class::Broadcast
    }
}
