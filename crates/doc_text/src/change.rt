use crate::doc_text::DocText;

/// A place in a text (LSP 3.17, Position): its line, and the units of the encoding before it in that line, both from 0.
#[derive(Clone, Copy, Debug)]
pub struct Position {
    pub line: u32,
    pub character: u32,
}

/// A part of a text (LSP 3.17, Range). An end before the start stands for the start.
#[derive(Clone, Copy, Debug)]
pub struct Range {
    pub start: Position,
    pub end: Position,
}

/// What a change replaces.
#[derive(Clone, Copy, Debug)]
pub enum Extent {
    Whole,
    Part(Range),
}

/// A change of a text (LSP 3.17, TextDocumentContentChangeEvent): what it replaces, and by which text.
#[derive(Debug, Drop)]
pub struct ContentChange {
    pub extent: Extent,
    pub text: DocText,
}
