// What editors of one group have in common.
use message_body::Body;
use std::marker::Model;

/// The server that is meant, the folders, and the options of an `initialize` (LSP 3.17, InitializeParams).
#[derive(Drop)]
pub struct Key {
    pub server: u32,
    /// The uri and the name of each folder, as they came.
    pub folders: Vec<(Body, Body)>,
    /// The folders' normal forms.
    pub normal: Vec<Body>,
    pub options: Option<Body>,
}

impl Model for Key {
    ghost use Rattle.group_words.specs.Keys.{Common};

    ghost Value = { Common };

    ghost view = { λ k. record { server = k.server; folders = k.folders.items; normal = k.normal.items; options = k.options } };
}
