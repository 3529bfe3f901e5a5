// Inputs as text.
use std::alloc::{AllocError, Global};
use std::test::Fail;

/// An input: its name, its lines, the append, read and write that fails, and whether each is to fail in turn.
#[derive(Drop)]
pub struct Input {
    pub name: String,
    pub lines: String,
    pub is_cut: bool,
    pub is_each: bool,
    pub append: Option<u64>,
    pub read: Option<u64>,
    pub write: Option<u64>,
}

impl Input {
    /// Its bytes.
    pub fn bytes(&self) -> &[u8] {
        let lines = self.lines.as_str();
        if self.is_cut {
            lines.strip_suffix('\n').unwrap_or(lines).as_bytes()
        } else {
            lines.as_bytes()
        }
    }

    // Takes a word that says what fails, or that the last line feed is left out.
    fn take(&mut self, word: &str) -> Option<()> {
        match word {
            "cut" => {
                self.is_cut = true;
                return Some(());
            }
            "each" => {
                self.is_each = true;
                return Some(());
            }
            _ => {}
        }
        let (call, number) = word.split_once('=')?;
        let number = number.parse::<u64>().ok()?;
        match call {
            "append" => self.append = Some(number),
            "read" => self.read = Some(number),
            "write" => self.write = Some(number),
            _ => return None,
        }
        Some(())
    }
}

/// 300,000 letters.
pub fn letters(alloc: Global) -> Result<String, AllocError> {
    let mut letters = String::new(alloc);
    for _ in 0..300_000 {
        letters.push('x')?;
    }
    Ok(letters)
}

// The input, without lines yet, that begins with such words.
fn begun(alloc: Global, words: &str) -> Result<Input, Fail> {
    let (name, words) = words.split_once(' ').unwrap_or((words, ""));
    let mut input = Input {
        name: String::from_str(alloc, name)?,
        lines: String::new(alloc),
        is_cut: false,
        is_each: false,
        append: None,
        read: None,
        write: None,
    };
    for word in words.split_whitespace() {
        if input.take(word).is_none() {
            return Err(Fail::new(word));
        }
    }
    Ok(input)
}

// Puts a line behind those of the last input.
fn add(inputs: &mut Vec<Input>, line: &str) -> Result<(), AllocError> {
    if let Some(input) = inputs.last_mut() {
        input.lines.push_str(line)?;
        input.lines.push('\n')?;
    }
    Ok(())
}

/// The inputs that the program's own input has.
pub fn inputs(rt: HostRuntime) -> Result<Vec<Input>, Fail> {
    let letters = letters(rt.alloc())?;
    let mut inputs = Vec::new(rt.alloc());
    for line in rt.lines(rt.alloc()) {
        let line = line?.replace(rt.alloc(), "LETTERS", letters.as_str())?;
        match line.strip_prefix("run ") {
            Some(words) => inputs.push(begun(rt.alloc(), words)?)?,
            None if line.starts_with('#') => {}
            None => add(&mut inputs, line.as_str())?,
        }
    }
    Ok(inputs)
}
