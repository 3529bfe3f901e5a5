use mux_config::{Config, ConfigFault};
use std::alloc::{AllocError, Global};
use std::test::Fail;

// The sort and the path of a fault.
fn told(alloc: Global, fault: ConfigFault) -> Result<String, AllocError> {
    match fault {
        ConfigFault::NotToml => String::from_str(alloc, "not toml"),
        ConfigFault::Unknown(path) => format!(in alloc; "unknown {path}"),
        ConfigFault::Missing(path) => format!(in alloc; "missing {path}"),
        ConfigFault::Range(path) => format!(in alloc; "range {path}"),
        ConfigFault::Memory => String::from_str(alloc, "memory"),
    }
}

// What is said of settings: the sort and the path of the fault, or that they are taken.
fn said(alloc: Global, text: &str) -> Result<String, Fail> {
    match Config::read(alloc, text.as_bytes()) {
        Ok(_config) => Ok(String::from_str(alloc, "taken")?),
        Err(fault) => Ok(told(alloc, fault)?),
    }
}

// With a server `a` behind the text.
fn beside_a_server(alloc: Global, text: &str) -> Result<String, Fail> {
    let mut settings = String::from_str(alloc, text)?;
    settings.push_str("\n[server.a]\ncommand = [\"a\"]\n")?;
    said(alloc, settings.as_str())
}

#[test]
fn the_first_fault_is_told(rt: HostRuntime) -> Result<(), Fail> {
    let alloc = rt.alloc();
    assert_eq!(rt; beside_a_server(alloc, "idle = -1")?.as_str(), "range idle");
    assert_eq!(rt; said(alloc, "")?.as_str(), "missing server");
    assert_eq!(rt; beside_a_server(alloc, "x = 1")?.as_str(), "unknown x");
    assert_eq!(rt; said(alloc, "=")?.as_str(), "not toml");
    for (text, wanted) in [
        ("[server]", "missing server"),
        ("server = 1", "range server"),
        ("y = 1\nx = 1", "unknown x"),
        ("[server.b]\n[server.a]", "missing server.a.command"),
        ("[server.a]\nx = 1", "unknown server.a.x"),
        ("idle = -1\n[server.a]", "missing server.a.command"),
        ("[server.a]\ncommand = []", "range server.a.command"),
        ("[server.a]\ncommand = [1]", "range server.a.command"),
        ("[server]\na = 1", "range server.a"),
        (
            "[server.a]\ncommand = [\"a\"]\nceiling = \"[]\"",
            "range server.a.ceiling",
        ),
        ("[server.a]\ncommand = [\"a\"]\nceiling = \"{}\"", "taken"),
        (
            "default = \"b\"\n[server.a]\ncommand = [\"a\"]",
            "range default",
        ),
        ("default = \"a\"\n[server.a]\ncommand = [\"a\"]", "taken"),
        (
            "links = 0\nidle = -1\n[server.a]\ncommand = [\"a\"]",
            "range idle",
        ),
    ] {
        assert_eq!(rt; said(alloc, text)?.as_str(), wanted, "at {text}");
    }
    Ok(())
}

#[test]
fn each_range_is_kept(rt: HostRuntime) -> Result<(), Fail> {
    let alloc = rt.alloc();
    for (key, low, high) in [
        ("links", 1i64, 32i64),
        ("groups", 1, 16),
        ("restarts", 0, 1_000),
        ("idle", 0, 86_400),
        ("grace", 0, 3_600),
        ("content", 1_024, 268_435_456),
        ("backlog", 1_024, 1_073_741_824),
        ("requests", 3, 2_147_483_647),
        ("versions", 2, 2_147_483_647),
    ] {
        for (value, taken) in [
            (low - 1, false),
            (low, true),
            (high, true),
            (high + 1, false),
        ] {
            let text = format!(in alloc; "{key} = {value}")?;
            assert_eq!(rt;
                beside_a_server(alloc, text.as_str())?.as_str() == "taken",
                taken,
                "at {text}"
            );
        }
        let text = format!(in alloc; "{key} = \"1\"")?;
        let wanted = format!(in alloc; "range {key}")?;
        assert_eq!(rt;
            beside_a_server(alloc, text.as_str())?.as_str(),
            wanted.as_str()
        );
    }
    Ok(())
}

#[test]
fn places_are_paths_and_ports(rt: HostRuntime) -> Result<(), Fail> {
    let alloc = rt.alloc();
    for (text, taken) in [
        ("unix:a", true),
        ("unix:", false),
        ("tcp:1", true),
        ("tcp:0", false),
        ("tcp:65535", true),
        ("tcp:65536", false),
        ("tcp:", false),
        ("a", false),
        ("streams", true),
        ("streams:", false),
    ] {
        let text = format!(in alloc; "place = \"{text}\"")?;
        assert_eq!(rt;
            beside_a_server(alloc, text.as_str())?.as_str() == "taken",
            taken,
            "at {text}"
        );
    }
    Ok(())
}

#[test]
fn servers_stand_in_byte_order(rt: HostRuntime) -> Result<(), Fail> {
    let alloc = rt.alloc();
    let text =
        "default = \"b\"\n[server.b]\ncommand = [\"x\", \"y\"]\n[server.a]\ncommand = [\"z\"]\nceiling = \"{}\"";
    let config = Config::read(alloc, text.as_bytes()).expect(&rt, "settings");
    assert_eq!(rt; config.servers.len(), 2);
    assert_eq!(rt; config.servers[0].name.bytes(), b"a".as_slice());
    assert_eq!(rt; config.servers[1].name.bytes(), b"b".as_slice());
    assert_eq!(rt; config.default, 1);
    assert_eq!(rt; config.commands[1].len(), 2);
    assert_eq!(rt; config.links, 32);
    assert_eq!(rt; config.limits.idle, 300);
    let config = Config::built_in(alloc).expect(&rt, "memory");
    assert_eq!(rt; config.servers[0].name.bytes(), b"main".as_slice());
    assert_eq!(rt; config.commands[0][0].as_str(), "rust-analyzer");
    Ok(())
}
