// Sessions as text.
use drive_program::Limits;
use std::alloc::{AllocError, Global};
use std::test::Fail;

/// A session: its name, the limits of its hub, and its cause lines.
#[derive(Drop)]
pub struct Session {
    pub name: String,
    pub limits: Limits,
    pub lines: String,
}

/// The limits that the program has where no settings are given.
pub fn built_in() -> Limits {
    Limits {
        groups: 8,
        restarts: 5,
        idle: 300,
        grace: 5,
        backlog: 134_217_728,
        requests: 2_147_483_647,
        versions: 2_147_483_647,
    }
}

// Sets the limit that a word `LIMIT=NUMBER` names.
fn set(limits: &mut Limits, word: &str) -> Option<()> {
    let (limit, number) = word.split_once('=')?;
    match limit {
        "groups" => limits.groups = number.parse::<u32>().ok()?,
        "restarts" => limits.restarts = number.parse::<u32>().ok()?,
        "backlog" => limits.backlog = number.parse::<u64>().ok()?,
        "requests" => limits.requests = number.parse::<u32>().ok()?,
        "versions" => limits.versions = number.parse::<u32>().ok()?,
        _ => return None,
    }
    Some(())
}

// The session, without lines yet, that begins with such words.
fn begun(alloc: Global, words: &str) -> Result<Session, Fail> {
    let (name, limits_of_it) = words.split_once(' ').unwrap_or((words, ""));
    let mut limits = built_in();
    for word in limits_of_it.split_whitespace() {
        if set(&mut limits, word).is_none() {
            return Err(Fail::new(word));
        }
    }
    Ok(Session {
        name: String::from_str(alloc, name)?,
        limits,
        lines: String::new(alloc),
    })
}

// A line for the reader alone.
fn is_aside(line: &str) -> bool {
    line.is_empty() || line.starts_with('#')
}

// Puts a cause line behind those of the last session.
fn add(sessions: &mut Vec<Session>, line: &str) -> Result<(), AllocError> {
    if let Some(session) = sessions.last_mut() {
        session.lines.push_str(line)?;
        session.lines.push('\n')?;
    }
    Ok(())
}

/// The sessions of the input.
pub fn sessions(rt: HostRuntime) -> Result<Vec<Session>, Fail> {
    let mut sessions = Vec::new(rt.alloc());
    for line in rt.lines(rt.alloc()) {
        let line = line?;
        match line.strip_prefix("session ") {
            Some(words) => sessions.push(begun(rt.alloc(), words)?)?,
            None if is_aside(line.as_str()) => {}
            None => add(&mut sessions, line.as_str())?,
        }
    }
    Ok(sessions)
}
