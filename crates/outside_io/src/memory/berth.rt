// A berth over runs in memory.
ghost use Rattle.std.specs.Prelude.{◌≡◌, ℕ, ◌+◌, ◌<◌, ◌≤◌, List, [], ◌∷◌, OnOk, OnErr, IsErrOf, IsSome, IfOk, IfSome, MatchOption, Option, Some, None, map, option_copied, option_map, slice_get, string_bytes};
ghost use Rattle.outside_io.specs.MemoryLinks.{link_of};
ghost use Rattle.outside_io.specs.MemoryStarts.{start_of};
ghost use Rattle.outside_io.specs.Sessions.{Session};
ghost use Rattle.outside_io.specs.Starts.{Start};

use crate::berth::{Berth, StartFault};
use crate::memory::links::Links;
use crate::memory::sink::MemSink;
use crate::memory::source::MemSource;
use std::alloc::{AllocError, Global};

/// A start that a berth was asked for: the words of its program, and its folder, where one was named.
#[derive(Debug, Drop)]
pub struct Asked {
    pub words: Vec<String>,
    pub folder: Option<String>,
}

// A copy of words.
fn words_of(alloc: Global, words: &[String]) -> Result<Vec<String>, AllocError>
    ensures { IfOk result (λ copies. map string_bytes copies.items ≡ map string_bytes words.now) }
{
    let mut copies = Vec::new(alloc);
    for word in words {
        copies.push(String::from_str(alloc, word.as_str())?)?;
    }
    Ok(copies)
}

// A copy of a folder's path.
fn folder_of(alloc: Global, folder: Option<&str>) -> Result<Option<String>, AllocError>
    ensures { IfOk result (λ copy. option_map string_bytes copy ≡ option_copied folder.entry) }
{
    match folder {
        Some(path) => Ok(Some(String::from_str(alloc, path)?)),
        None => Ok(None),
    }
}

impl Asked {
    // A copy of what is asked for.
    fn new(alloc: Global, words: &[String], folder: Option<&str>) -> Result<Asked, AllocError>
        ensures { IfOk result (λ asked. start_of asked ≡ record { words = map string_bytes words.now; folder = option_copied folder.entry }) }
    {
        let words = words_of(alloc, words)?;
        let folder = folder_of(alloc, folder)?;
        Ok(Asked { words, folder })
    }
}

/// A berth that gives its runs in order, whatever the words and the folder are, and keeps these.
///
/// The starts whose numbers, from 0, stand in `fails` fail, and so does one where the runs are used up. Where no memory
/// is left to keep what was asked for, or room for a run's return, a start answers `Memory`.
#[derive(Drop)]
pub struct MemBerth {
    alloc: Global,
    links: Links,
    asked: Vec<Asked>,
    fails: Vec<u64>,
    calls: u64,
    faults: u64,
}

impl MemBerth {
    /// A berth that gives these runs, in this order. Starts are numbered from 0; those in `fails`
    /// fail.
    pub fn new(alloc: Global, runs: Vec<(MemSource, MemSink)>, fails: Vec<u64>) -> MemBerth
        ensures runs { ⟦<MemBerth as Berth>⟧.runs result ≡ Some [] }
        ensures left { ⟦<MemBerth as Berth>⟧.left result ≡ Some (map link_of runs.items) }
        ensures asked { ⟦<MemBerth as Berth>⟧.asked result ≡ Some [] }
        ensures held { ⟦<MemBerth as Berth>⟧.held result ≡ 0 }
        ensures faults { ⟦<MemBerth as Berth>⟧.faults result ≡ 0 }
    {
        MemBerth {
            alloc,
            links: Links::new(alloc, runs),
            asked: Vec::new(alloc),
            fails,
            calls: 0,
            faults: 0,
        }
    }

    /// The run that was handed back as number `i`, from 0.
    pub fn run(&self, i: usize) -> Option<&(MemSource, MemSink)>
        ensures { option_map (λ runs. slice_get runs i) (⟦<MemBerth as Berth>⟧.runs self.now) ≡ Some (option_map (λ run. link_of run.now) result) }
    {
        self.links.back.get(i)
    }

    // Counts a start, and gives the next run; none where the start fails.
    fn next(&mut self) -> Result<Option<(MemSource, MemSink)>, AllocError>
        ensures left { IfOk result (λ run. MatchOption run (self.new.links.left.items ≡ self.old.links.left.items)
            (λ link. self.old.links.left.items ≡ link ∷ self.new.links.left.items)) }
        ensures out { IfOk result (λ run. MatchOption run (self.new.links.out ≡ self.old.links.out) (λ _. self.new.links.out ≡ self.old.links.out + 1)) }
        ensures err { OnErr result ((self.new.links.left.items ≡ self.old.links.left.items) × (self.new.links.out ≡ self.old.links.out)) }
        ensures back { self.new.links.back.items ≡ self.old.links.back.items }
        ensures asked { self.new.asked ≡ self.old.asked }
        ensures faults { self.new.faults ≡ self.old.faults }
    {
        let fails = self.fails.contains(&self.calls);
        self.calls = self.calls.saturating_add(1);
        if fails { Ok(None) } else { self.links.give() }
    }

    /// The starts that it was asked for, in their order.
    pub fn asked(&self) -> &[Asked]
        ensures { ⟦<MemBerth as Berth>⟧.asked self.now ≡ Some (map start_of result.now) }
    {
        self.asked.as_slice()
    }
}

impl Berth for MemBerth {
    type In = MemSource;

    type Out = MemSink;

    ghost runs = { λ b. Some (map link_of b.links.back.items) };

    ghost left = { λ b. Some (map link_of b.links.left.items) };

    ghost asked = { λ b. Some (map start_of b.asked.items) };

    ghost held = { λ b. b.links.out };

    ghost faults = { λ b. b.faults };

    fn start(
        &mut self,
        words: &[String],
        folder: Option<&str>,
        inn: &mut Option<MemSource>,
        out: &mut Option<MemSink>,
    ) -> Result<(), StartFault> {
        let Ok(asked) = Asked::new(self.alloc, words, folder) else {
            return Err(StartFault::Memory);
        };
        if self.asked.reserve(1).is_err() {
            return Err(StartFault::Memory);
        }
        let Ok(run) = self.next() else {
            return Err(StartFault::Memory);
        };
        self.asked.push_reserved(asked);
        let Some((source, sink)) = run else {
            self.faults = self.faults.saturating_add(1);
            return Err(StartFault::Failed);
        };
        *inn = Some(source);
        *out = Some(sink);
        Ok(())
    }

    fn finish(&mut self, inn: &mut Option<MemSource>, out: &mut Option<MemSink>) {
        if let (Some(source), Some(sink)) = (inn.take(), out.take()) {
            self.links.take_back(source, sink);
        }
    }
}
