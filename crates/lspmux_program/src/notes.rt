// What a person is told on the notes beside a fault line.
use mux_client::ClientFault;
use mux_config::Config;
use outside_io::{Folder, Sink};
use program_settings::{SettingsFault, write_line};
use std::alloc::{AllocError, Global};

// What a setting has to be, by its path.
fn range_of(path: &str) -> &'static str {
    match path {
        "place" => "unix:PATH with 1 to 100 bytes, tcp:PORT with 1 to 65535, or streams",
        "links" => "a number from 1 to 32",
        "groups" => "a number from 1 to 16",
        "restarts" => "a number from 0 to 1000",
        "idle" => "seconds from 0 to 86400",
        "grace" => "seconds from 0 to 3600",
        "content" => "bytes from 1024 to 268435456",
        "backlog" => "bytes from 1024 to 1073741824",
        "requests" => "a number from 3 to 2147483647",
        "versions" => "a number from 2 to 2147483647",
        "default" => "the name of one of the servers",
        "server" => "a table for each server, [server.NAME]",
        _ => server_range_of(path),
    }
}

// What a setting of a server has to be, by its path.
fn server_range_of(path: &str) -> &'static str {
    if path.ends_with(".command") {
        "a list of words, the first of which is a program"
    } else if path.ends_with(".ceiling") {
        "a JSON object, written as a text"
    } else {
        "a table with a command"
    }
}

// The sentence about settings that are refused; none where memory was wanted.
fn settings_sentence(
    alloc: Global,
    file: &str,
    reason: &str,
    fault: &SettingsFault,
) -> Result<String, AllocError> {
    match fault {
        SettingsFault::Unread if reason.is_empty() => {
            format!(in alloc; "error: {file} can't be read\n")
        }
        SettingsFault::Unread => format!(in alloc; "error: {file} can't be read: {reason}\n"),
        SettingsFault::NotToml => format!(in alloc; "error: {file} is no TOML document\n"),
        SettingsFault::Unknown(path) => {
            format!(in alloc; "error: {file} has {path}, which is no setting\n")
        }
        SettingsFault::Missing(path) => {
            format!(in alloc; "error: {file} lacks {path}: {}\n", range_of(path.as_str()))
        }
        SettingsFault::Range(path) => {
            format!(in alloc;
                "error: {path} in {file} has to be {}\n",
                range_of(path.as_str())
            )
        }
        SettingsFault::Memory => Ok(String::new(alloc)),
    }
}

/// Notes why the settings in a file are refused, and what has to stand there.
pub fn note_settings<F: Folder, N: Sink>(
    alloc: Global,
    notes: &mut N,
    folder: &F,
    file: Option<&str>,
    fault: &SettingsFault,
) {
    if let Some(file) = file {
        if let Ok(text) = settings_sentence(alloc, file, folder.reason(), fault) {
            write_line(notes, text.as_bytes());
        }
    }
}

// The sentence about a server's name that the daemon refused: which names these settings have.
fn refusal(alloc: Global, config: &Config, name: &str) -> Result<Vec<u8>, AllocError> {
    let servers = config.servers.as_slice();
    let is_there = servers
        .iter()
        .any(|server| server.name.bytes() == name.as_bytes());
    let mut text = Vec::new(alloc);
    text.extend_from_slice(b"error: the daemon refused the server ")?;
    text.extend_from_slice(name.as_bytes())?;
    let settings = if is_there {
        "; the settings here have"
    } else {
        "; the settings here lack it too, and have"
    };
    text.extend_from_slice(settings.as_bytes())?;
    let mut before = " ";
    for server in servers {
        text.extend_from_slice(before.as_bytes())?;
        text.extend_from_slice(server.name.bytes())?;
        before = ", ";
    }
    text.push(b'\n')?;
    Ok(text)
}

// The sentence about how a client or a question ended; none where it was done, and of the door, whose own notes say more.
fn end_sentence(ended: Result<(), ClientFault>) -> &'static str {
    match ended {
        Ok(()) | Err(ClientFault::Door) => "",
        Err(ClientFault::Memory) => "error: memory is wanted\n",
        Err(ClientFault::Input) => "error: the standard input can't be read\n",
        Err(ClientFault::Output) => "error: the standard output can't be written\n",
        Err(ClientFault::Refused) => "error: the daemon has no default server\n",
        Err(ClientFault::Answer) => {
            "error: what listens at the settings' place is no daemon of lspmux, or it ended; `lspmux serve` starts one\n"
        }
        Err(ClientFault::Link) => {
            "error: the daemon's link broke; `lspmux serve` starts a daemon that ended\n"
        }
    }
}

/// Notes why a client or a question to the daemon failed. Of a server's name that the daemon refused it names those that these
/// settings have.
pub fn note_end<N: Sink>(
    alloc: Global,
    notes: &mut N,
    config: &Config,
    server: Option<&str>,
    ended: Result<(), ClientFault>,
) {
    if let (Err(ClientFault::Refused), Some(name)) = (ended, server) {
        if let Ok(text) = refusal(alloc, config, name) {
            write_line(notes, &text);
        }
    } else {
        write_line(notes, end_sentence(ended).as_bytes());
    }
}
