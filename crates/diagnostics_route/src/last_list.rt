use message_body::Body;

/// What a list says of its document's version (LSP 3.17, PublishDiagnosticsParams).
#[derive(Debug, Drop)]
pub enum Version {
    /// Nothing.
    Absent,
    /// That it is null.
    Null,
    /// An integer, by its digits.
    Integer(Body),
    /// Any other value.
    Other,
}

/// The last list of diagnostics of a document.
#[derive(Debug, Drop)]
pub struct LastList {
    /// The characters of the document's URI, in UTF-8.
    pub uri: Body,
    /// The notification, as it came.
    pub body: Body,
    /// How many notifications on documents the start had been sent when it came.
    pub place: u128,
    pub version: Version,
    /// Whether it has no diagnostics.
    pub empty: bool,
}
