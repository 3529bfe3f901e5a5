use outside_io::{
    Arrival, Berth, Clock, Door, DoorFault, Folder, FolderFault, MemBerth, MemDoor, MemFolder,
    MemPort, MemSink, MemSource, Place, Port, SetClock, Sink, Source, StartFault, write_whole,
};
use std::alloc::Global;
use std::test::Fail;

// A link whose source gives `bytes`.
fn link(alloc: Global, bytes: &[u8]) -> Result<(MemSource, MemSink), Fail> {
    let source = MemSource::new(bytes.to_vec(alloc)?, Vec::new(alloc), None);
    Ok((source, MemSink::new(alloc, Vec::new(alloc), None)))
}

// Accepts a link, writes the first byte back that it gives, and hangs up.
fn echo<P: Port>(port: &mut P) -> Arrival {
    let mut source = None;
    let mut sink = None;
    let arrival = port.accept(&mut source, &mut sink);
    if arrival == Arrival::Link {
        let mut buffer = [0u8; 1];
        if let (Some(source), Some(sink)) = (&mut source, &mut sink) {
            let _ = source.read(&mut buffer);
            let _ = write_whole(sink, &buffer);
        }
        port.hang_up(&mut source, &mut sink);
    }
    arrival
}

#[test]
fn a_port_gives_its_links_and_keeps_them_as_they_came_back(rt: HostRuntime) -> Result<(), Fail> {
    let alloc = rt.alloc();
    let mut links = Vec::new(alloc);
    links.push(link(alloc, b"ab")?)?;
    links.push(link(alloc, b"cd")?)?;
    let mut port = MemPort::new(alloc, links);
    assert_eq!(rt; echo(&mut port), Arrival::Link);
    assert!(rt; port.session(1).is_none());
    assert_eq!(rt; echo(&mut port), Arrival::Link);
    assert_eq!(rt; echo(&mut port), Arrival::Closed);
    let Some((source, sink)) = port.session(1) else {
        return Err(Fail::new("nothing was handed back"));
    };
    assert_eq!(rt; source.taken(), b"c".as_slice());
    assert_eq!(rt; sink.bytes(), b"c".as_slice());
    Ok(())
}

// Starts a program, writes to it and ends it.
fn run<B: Berth>(berth: &mut B, words: &[String], folder: Option<&str>) -> Result<(), StartFault> {
    let mut source = None;
    let mut sink = None;
    berth.start(words, folder, &mut source, &mut sink)?;
    if let Some(sink) = &mut sink {
        let _ = write_whole(sink, b"exit");
        sink.close();
    }
    berth.finish(&mut source, &mut sink);
    Ok(())
}

#[test]
fn a_berth_fails_at_its_number_and_where_its_runs_are_used_up(rt: HostRuntime) -> Result<(), Fail> {
    let alloc = rt.alloc();
    let runs = vec![in alloc; link(alloc, b"ready")?]?;
    let mut berth = MemBerth::new(alloc, runs, vec![in alloc; 0]?);
    let words = vec![in alloc; String::from_str(alloc, "server")?]?;
    assert_eq!(rt; run(&mut berth, &[], None), Err(StartFault::Failed));
    assert_eq!(rt; run(&mut berth, words.as_slice(), Some("/work")), Ok(()));
    assert_eq!(rt; run(&mut berth, &[], None), Err(StartFault::Failed));
    let asked = berth.asked();
    assert_eq!(rt; asked.len(), 3);
    assert!(rt; matches!(asked[1].words.first(), Some(word) if word.as_str() == "server"));
    assert!(rt; matches!(&asked[1].folder, Some(path) if path.as_str() == "/work"));
    assert!(rt; asked[0].words.is_empty() && asked[2].folder.is_none());
    assert_eq!(rt; berth.reason(), "");
    let Some((source, sink)) = berth.run(0) else {
        return Err(Fail::new("nothing was handed back"));
    };
    assert_eq!(rt; source.taken(), b"".as_slice());
    assert_eq!(rt; sink.bytes(), b"exit".as_slice());
    assert!(rt; berth.run(1).is_none());
    Ok(())
}

// A port with one link, whose source gives `bytes`.
fn port(alloc: Global, bytes: &[u8]) -> Result<MemPort, Fail> {
    Ok(MemPort::new(alloc, vec![in alloc; link(alloc, bytes)?]?))
}

// Dials a place, and serves one link there.
fn visit<D: Door>(door: &mut D, place: &Place) -> Result<Arrival, DoorFault> {
    let mut dialled = None;
    door.dial(place, &mut dialled)?;
    let Some(port) = &mut dialled else {
        unreachable!()
    };
    Ok(echo(port))
}

#[test]
fn a_door_gives_its_ports_in_order_until_they_are_used_up(rt: HostRuntime) -> Result<(), Fail> {
    let alloc = rt.alloc();
    let mut ports = Vec::new(alloc);
    for bytes in [b"a", b"b", b"c", b"d"] {
        ports.push(port(alloc, bytes)?)?;
    }
    let mut door = MemDoor::new(alloc, ports, vec![in alloc; 1]?);
    let mut given = Vec::new(alloc);
    let place = Place::Unix(String::from_str(alloc, "lspmux.sock")?);
    assert_eq!(rt; door.open(&place, 2, &mut given), Ok(()));
    assert_eq!(rt; door.open(&place, 1, &mut given), Err(DoorFault::Failed));
    assert_eq!(rt; given.len(), 2);
    assert_eq!(rt; visit(&mut door, &Place::Tcp(4000)), Ok(Arrival::Link));
    assert_eq!(rt; door.open(&place, 9, &mut given), Ok(()));
    assert_eq!(rt; given.len(), 3);
    assert_eq!(rt; visit(&mut door, &Place::Tcp(4000)), Err(DoorFault::Failed));
    for (port, bytes) in given.iter_mut().zip([b"a", b"b", b"d"]) {
        assert_eq!(rt; echo(port), Arrival::Link);
        assert!(rt;
            port.session(0)
                .is_some_and(|link| link.1.bytes() == bytes.as_slice())
        );
    }
    Ok(())
}

#[test]
fn a_folder_gives_the_first_file_of_a_path(rt: HostRuntime) -> Result<(), Fail> {
    let alloc = rt.alloc();
    let mut files = Vec::new(alloc);
    for (path, bytes) in [("a.toml", b"1"), ("b.toml", b"2"), ("b.toml", b"3")] {
        files.push((String::from_str(alloc, path)?, bytes.to_vec(alloc)?))?;
    }
    let mut folder = MemFolder::new(files);
    assert_eq!(rt;
        folder
            .read("b.toml", 1)
            .map(|bytes| bytes.as_slice() == b"2".as_slice()),
        Ok(true)
    );
    assert_eq!(rt; folder.read("b", 1), Err(FolderFault::Failed));
    assert_eq!(rt; folder.read("b.toml", 0), Err(FolderFault::Failed));
    Ok(())
}

#[test]
fn a_clock_gives_its_moments_and_then_none(rt: HostRuntime) -> Result<(), Fail> {
    let mut clock = SetClock::new(vec![in rt.alloc(); 3, 3, 7]?);
    assert_eq!(rt; clock.next(), Some(3));
    assert_eq!(rt; clock.next(), Some(3));
    assert_eq!(rt; clock.next(), Some(7));
    assert_eq!(rt; clock.next(), None);
    Ok(())
}
