//! The methods that the routing table knows (LSP 3.17, Lifecycle Messages).
ghost use Rattle.std.specs.Prelude.{◌≡◌, ℕ, List, true, false, codes, Option, bytes_eq};
ghost use Rattle.json_text.specs.Json.{Json};
ghost use Rattle.lsp_method.specs.Class.{class_of};
ghost use Rattle.lsp_method.specs.declared.variants.Origin.TheVariants.{Editor, Server};
ghost use Rattle.rpc_message.specs.Message.{Id, message_of, notification, request};
ghost use Rattle.mux_model.specs.Methods.{goes_on, is_dollar, is_wrong};
ghost use Rattle.rpc_message.specs.Parsed.{IsRead};
ghost use Rattle.mux_model.specs.event_model.specs.Event.{notifies, requests};

use crate::envelope::{notification_method, request_method};
use crate::look::spells;
use lsp_method::{Class, Origin, class};
use rpc_message::Message;

/// The class of an editor's request, by its method.
pub fn class_in(m: &Message) -> Class
    ensures { (bytes method : List ℕ) (id : Id) (params : Option Json) → IsRead m.now bytes → message_of bytes ≡ request id method params
        → result ≡ class_of method Editor false }
{
    match m.method() {
        Some(method) => class(method, Origin::Editor, false),
        None => Class::Other,
    }
}

/// Whether an editor's request has the name of a notification.
pub fn is_wrong(m: &Message) -> bool
    ensures { (bytes method : List ℕ) (id : Id) (params : Option Json) → IsRead m.now bytes → message_of bytes ≡ request id method params
        → result ≡ is_wrong (class_of method Editor false) }
{
    matches!(class_in(m), Class::Wrong)
}

// The class of an editor's notification, by its method.
fn notice_class(m: &Message) -> Class
    ensures { (bytes method : List ℕ) (params : Option Json) → IsRead m.now bytes → message_of bytes ≡ notification method params
        → result ≡ class_of method Editor true }
{
    match m.method() {
        Some(method) => class(method, Origin::Editor, true),
        None => Class::Other,
    }
}

/// The class of a server's request, by its method.
pub fn asked_class(m: &Message) -> Class
    ensures { (bytes method : List ℕ) (id : Id) (params : Option Json) → IsRead m.now bytes → message_of bytes ≡ request id method params
        → result ≡ class_of method Server false }
{
    match m.method() {
        Some(method) => class(method, Origin::Server, false),
        None => Class::Other,
    }
}

/// The class of a server's notification, by its method.
pub fn told_class(m: &Message) -> Class
    ensures { (bytes method : List ℕ) (params : Option Json) → IsRead m.now bytes → message_of bytes ≡ notification method params
        → result ≡ class_of method Server true }
{
    match m.method() {
        Some(method) => class(method, Origin::Server, true),
        None => Class::Other,
    }
}

// Whether notifications of this class go on.
fn class_goes_on(class: Class) -> bool
    ensures { result ≡ goes_on class }
{
    matches!(class, Class::Configuration | Class::Other)
}

/// E16 and E17: whether an editor's notification goes on to a server, by its method.
pub fn goes_on(m: &Message) -> bool
    ensures { (bytes method : List ℕ) (params : Option Json) → IsRead m.now bytes → message_of bytes ≡ notification method params
        → result ≡ goes_on (class_of method Editor true) }
{
    class_goes_on(notice_class(m))
}

// Whether a method has this name.
fn is(method: &[u8], name: &str) -> bool
    ensures { result ≡ bytes_eq method.now name.now }
{
    method == name.as_bytes()
}

// Whether it is the name of a notification that begins with `$/`.
fn names_dollar(method: &[u8]) -> bool
    ensures { result ≡ is_dollar method.now }
{
    is(method, "$/cancelRequest") || is(method, "$/setTrace") || is(method, "$/progress")
}

/// Whether an editor's request has the name of a notification that begins with `$/` (LSP 3.17, $ Notifications and Requests).
pub fn is_dollar(m: &Message) -> bool
    ensures { (bytes method : List ℕ) (id : Id) (params : Option Json) → IsRead m.now bytes → message_of bytes ≡ request id method params
        → result ≡ is_dollar method }
{
    match m.method() {
        Some(method) => names_dollar(method),
        None => false,
    }
}

/// Whether it is the notification `initialized` (LSP 3.17, Initialized Notification).
pub fn is_initialized(m: &Message) -> bool
    ensures { (bytes : List ℕ) → IsRead m.now bytes → result ≡ notifies (codes "initialized") (message_of bytes) }
{
    match notification_method(m) {
        Some(method) => spells(m.tape(), Some(method), "initialized"),
        None => false,
    }
}

/// Whether it is the notification `exit` (LSP 3.17, Exit Notification).
pub fn is_exit(m: &Message) -> bool
    ensures { (bytes : List ℕ) → IsRead m.now bytes → result ≡ notifies (codes "exit") (message_of bytes) }
{
    match notification_method(m) {
        Some(method) => spells(m.tape(), Some(method), "exit"),
        None => false,
    }
}

/// Whether it is the notification `$/cancelRequest` (LSP 3.17, Cancellation Support).
pub fn is_cancel(m: &Message) -> bool
    ensures { (bytes : List ℕ) → IsRead m.now bytes → result ≡ notifies (codes "$/cancelRequest") (message_of bytes) }
{
    match notification_method(m) {
        Some(method) => spells(m.tape(), Some(method), "$/cancelRequest"),
        None => false,
    }
}

/// Whether it is the notification `window/workDoneProgress/cancel` (LSP 3.17, Work Done Progress).
pub fn cancels_work(m: &Message) -> bool
    ensures { (bytes : List ℕ) → IsRead m.now bytes → result ≡ notifies (codes "window/workDoneProgress/cancel") (message_of bytes) }
{
    match notification_method(m) {
        Some(method) => spells(m.tape(), Some(method), "window/workDoneProgress/cancel"),
        None => false,
    }
}

/// Whether it is the request `initialize` (LSP 3.17, Initialize Request).
pub fn is_initialize(m: &Message) -> bool
    ensures { (bytes : List ℕ) → IsRead m.now bytes → result ≡ requests (codes "initialize") (message_of bytes) }
{
    match request_method(m) {
        Some(method) => spells(m.tape(), Some(method), "initialize"),
        None => false,
    }
}

/// Whether it is the request `window/showMessageRequest` (LSP 3.17, ShowMessage Request).
pub fn is_message_request(m: &Message) -> bool
    ensures { (bytes : List ℕ) → IsRead m.now bytes → result ≡ requests (codes "window/showMessageRequest") (message_of bytes) }
{
    match request_method(m) {
        Some(method) => spells(m.tape(), Some(method), "window/showMessageRequest"),
        None => false,
    }
}

/// Whether it is the request `lspmux/open`.
pub fn is_open(m: &Message) -> bool
    ensures { (bytes : List ℕ) → IsRead m.now bytes → result ≡ requests (codes "lspmux/open") (message_of bytes) }
{
    match request_method(m) {
        Some(method) => spells(m.tape(), Some(method), "lspmux/open"),
        None => false,
    }
}

/// Whether it is the request `lspmux/status`.
pub fn is_status(m: &Message) -> bool
    ensures { (bytes : List ℕ) → IsRead m.now bytes → result ≡ requests (codes "lspmux/status") (message_of bytes) }
{
    match request_method(m) {
        Some(method) => spells(m.tape(), Some(method), "lspmux/status"),
        None => false,
    }
}

/// Whether it is the request `lspmux/stop`.
pub fn is_stop(m: &Message) -> bool
    ensures { (bytes : List ℕ) → IsRead m.now bytes → result ≡ requests (codes "lspmux/stop") (message_of bytes) }
{
    match request_method(m) {
        Some(method) => spells(m.tape(), Some(method), "lspmux/stop"),
        None => false,
    }
}
