// The words behind the program's name.
use std::alloc::{Alloc, Global};
use std::env::{self, Env, FillError};
use std::io::{self, ErrorKind};

// The arguments without the first, the program's name, whose bytes may be no UTF-8.
#[derive(Drop)]
struct BehindName<'a> {
    runtime: &'a HostRuntime,
}

impl<'a> Env for BehindName<'a> {
    fn arg(&self, i: usize, buf: &mut [u8]) -> Result<usize, FillError> {
        self.runtime.arg(i.saturating_add(1), buf)
    }

    fn var(&self, name: &str, buf: &mut [u8]) -> Result<usize, FillError> {
        self.runtime.var(name, buf)
    }

    fn var_at(&self, i: usize, buf: &mut [u8]) -> Result<usize, FillError> {
        self.runtime.var_at(i, buf)
    }
}

impl<'a> Alloc for BehindName<'a> {
    type A = Global;

    fn alloc(&self) -> Global {
        self.runtime.alloc()
    }
}

// A word in the place of words that aren't UTF-8: none that the program knows.
const NOT_UTF_8: &str = "\u{fffd}";

fn not_utf_8(alloc: Global) -> io::Result<Vec<String>> {
    let mut words = Vec::new(alloc);
    words.push(String::from_str(alloc, NOT_UTF_8)?)?;
    Ok(words)
}

/// The words behind the program's name. Words that aren't UTF-8 are one that the program doesn't know.
pub fn words(runtime: &HostRuntime) -> io::Result<Vec<String>> {
    match env::args(&BehindName { runtime }) {
        Ok(words) => Ok(words.collect(runtime.alloc())?),
        Err(error) if error.kind() == ErrorKind::OutOfMemory => Err(error),
        Err(_) => not_utf_8(runtime.alloc()),
    }
}
