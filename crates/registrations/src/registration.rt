use message_body::Body;

/// A registration, or what is taken back of one: the characters of its id in UTF-8, and the texts of its id, of its method and of
/// the whole item as they came (LSP 3.17, Registration and Unregistration).
#[derive(Debug, Drop)]
pub struct Registration {
    pub name: Body,
    pub id: Body,
    pub method: Body,
    pub item: Body,
}
