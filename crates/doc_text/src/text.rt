ghost use Rattle.std.specs.Prelude.{◌≡◌, ◌<◌, ℕ, List, length, bytes_eq, IsUtf8, IfOk, OnOk, OnErr, Some, None, Err};
ghost use Rattle.json_text.specs.Json.{Json};
ghost use Rattle.json_span.specs.json_nodes.specs.At.{At};
ghost use Rattle.doc_text.specs.Changes.{text_behind};

use crate::fault::ChangeFault;
use json_span::Tape;
use message_body::{Body, Memory};
use position_codec::Encoding;
use std::alloc::Global;

/// The text of a document, which contracts see as its bytes. They are always UTF-8.
pub trait Text: Sized {
    /// The text's bytes.
    ghost bytes: { Self → List ℕ };

    fn new(alloc: Global, text: &[u8]) -> Result<Self, Memory>
        requires { IsUtf8 text.now }
        ensures { IfOk result (λ made. bytes made ≡ text.now) };

    /// All of its bytes.
    fn whole(&self, alloc: Global) -> Result<Body, Memory>
        ensures ok { IfOk result (λ body. body ≡ bytes self.now) }
        ensures utf8 { IsUtf8 (bytes self.now) };

    /// Whether the two have the same bytes. It takes no memory.
    fn equals(&self, other: &Self) -> bool
        ensures { result ≡ bytes_eq (bytes self.now) (bytes other.now) };

    /// Makes the changes that a node of a message lists (LSP 3.17, DidChangeTextDocumentParams), each in the text that the one
    /// before left. Positions count by the encoding. A fault leaves the text as it was.
    fn apply(
        &mut self,
        alloc: Global,
        encoding: Encoding,
        tape: &Tape,
        changes: u32,
    ) -> Result<(), ChangeFault>
        requires { changes < length tape.now.nodes }
        ensures ok { (t : Json) → At tape.now changes t → OnOk result (text_behind encoding t (bytes self.old) ≡ Some (bytes self.new)) }
        ensures bad_shape { (t : Json) → At tape.now changes t → result ≡ Err ChangeFault.BadShape → text_behind encoding t (bytes self.old) ≡ None }
        ensures err { OnErr result (bytes self.new ≡ bytes self.old) };

    /// A text with these changes made, which are those of `apply`; this one stays as it is.
    fn changed(
        &self,
        alloc: Global,
        encoding: Encoding,
        tape: &Tape,
        changes: u32,
    ) -> Result<Self, ChangeFault>
        requires { changes < length tape.now.nodes }
        ensures ok { (t : Json) → At tape.now changes t → IfOk result (λ made. text_behind encoding t (bytes self.now) ≡ Some (bytes made)) }
        ensures bad_shape { (t : Json) → At tape.now changes t → result ≡ Err ChangeFault.BadShape → text_behind encoding t (bytes self.now) ≡ None };

    fn copy(&self, alloc: Global) -> Result<Self, Memory>
        ensures { IfOk result (λ copied. bytes copied ≡ bytes self.now) };
}
