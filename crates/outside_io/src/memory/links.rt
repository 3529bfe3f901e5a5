// Links in memory: those that are left, in order, and those that came back.
ghost use Rattle.std.specs.Prelude.{◌≡◌, ◌+◌, ◌<◌, ◌≤◌, [], ◌∷◌, ◌++◌, IfOk, OnErr, MatchOption, vec_len, vec_capacity};

use crate::memory::sink::MemSink;
use crate::memory::source::MemSource;
use std::alloc::{AllocError, Global};
use std::collections::VecDeque;

// Room is kept in `back` for each link that is out.
#[derive(Drop)]
pub(crate) struct Links {
    left: VecDeque<(MemSource, MemSink)>,
    pub(crate) back: Vec<(MemSource, MemSink)>,
    out: usize,
    ghost room: { vec_len back + out ≤ vec_capacity back },
}

impl Links {
    pub(crate) fn new(alloc: Global, links: Vec<(MemSource, MemSink)>) -> Links
        ensures left { result.left.items ≡ links.items }
        ensures back { result.back.items ≡ [] }
        ensures out { result.out ≡ 0 }
    {
        Links {
            left: VecDeque::from(links),
            back: Vec::new(alloc),
            out: 0,
        }
    }

    // Gives the next link, with room for its return.
    pub(crate) fn give(&mut self) -> Result<Option<(MemSource, MemSink)>, AllocError>
        ensures left { IfOk result (λ given. MatchOption given ((self.old.left.items ≡ []) × (self.new.left.items ≡ []))
            (λ link. self.old.left.items ≡ link ∷ self.new.left.items)) }
        ensures out { IfOk result (λ given. MatchOption given (self.new.out ≡ self.old.out) (λ _. self.new.out ≡ self.old.out + 1)) }
        ensures err { OnErr result ((self.new.left.items ≡ self.old.left.items) × (self.new.out ≡ self.old.out)) }
        ensures back { self.new.back.items ≡ self.old.back.items }
    {
        if self.left.is_empty() {
            return Ok(None);
        }
        self.back.reserve(self.out + 1)?;
        self.out += 1;
        Ok(self.left.pop_front())
    }

    // Takes a link back, for which there is room.
    pub(crate) fn take_back(&mut self, source: MemSource, sink: MemSink)
        requires { 0 < self.old.out }
        ensures left { self.new.left.items ≡ self.old.left.items }
        ensures out { self.old.out ≡ self.new.out + 1 }
        ensures back { self.new.back.items ≡ self.old.back.items ++ (source, sink) ∷ [] }
    {
        self.out -= 1;
        self.back.push_reserved((source, sink));
    }
}
