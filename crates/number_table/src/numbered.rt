// One that is kept.

/// What is kept of a number.
#[derive(Debug, Drop)]
pub struct Numbered<T> {
    pub number: u64,
    pub item: T,
}
