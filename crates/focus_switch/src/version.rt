use message_body::Body;

/// The version of a document that is open at an editor.
#[derive(Debug, Drop)]
pub struct DocumentVersion {
    pub uri: Body,
    /// The version that the ready start of the server has, where it has the document.
    pub held: Option<u32>,
    /// The bytes of the editor's own version.
    pub version: Body,
}
