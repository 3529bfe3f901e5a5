/// Whether the server has the language and the text that an editor has of a document.
#[derive(Clone, Copy, Debug, PartialEq, Eq)]
pub enum Agreement {
    /// The document isn't open at the editor.
    NotOpen,
    /// The server doesn't have the document, or has another language or text.
    Differs,
    Agrees {
        /// The version that the server has.
        held: u32,
        /// How many notifications on documents the server was sent since it is ready, up to the last one on this document. It rises with each of them.
        changed: u128,
    },
}
