// What the program stands on, and what it leaves.
use mux_service::Lanes;

/// All that the program meets outside of itself.
#[derive(Drop)]
pub struct Outside<D, B, C, J, F, I, O, N> {
    pub door: D,
    /// Where servers' programs run, one in each at one time.
    pub berths: Vec<B>,
    pub clock: C,
    pub journal: J,
    pub folder: F,
    pub input: I,
    pub output: O,
    /// Where words go that no other program reads.
    pub notes: N,
}

/// What a run of the program leaves.
#[derive(Drop)]
pub struct Left<D, P, B, C, J, F, I, O, N> {
    pub status: u8,
    pub door: D,
    /// The lanes that served; none where no daemon did.
    pub lanes: Option<Lanes<P, B, C>>,
    /// The port that was dialled; none where none was.
    pub port: Option<P>,
    pub journal: J,
    pub folder: F,
    pub input: I,
    pub output: O,
    pub notes: N,
}
