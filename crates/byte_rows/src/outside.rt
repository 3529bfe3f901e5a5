use outside_io::{
    Cut, Gate, MemSink, MemSource, Meter, ReadFault, Sink, Source, SureSink, SureSource,
    write_whole,
};
use std::test::Fail;
use std::thread;

#[test]
fn a_source_gives_its_bytes_in_order_and_then_the_end(rt: HostRuntime) -> Result<(), Fail> {
    let alloc = rt.alloc();
    let mut source = MemSource::new(b"abcde".to_vec(alloc)?, Vec::new(alloc), None);
    let mut buffer = [0u8; 3];
    assert_eq!(rt; source.read(&mut buffer), Ok(3));
    assert_eq!(rt; buffer, *b"abc");
    assert_eq!(rt; source.read(&mut buffer), Ok(2));
    assert_eq!(rt; buffer, *b"dec");
    assert_eq!(rt; source.read(&mut buffer), Ok(0));
    assert_eq!(rt; source.taken(), b"abcde".as_slice());
    Ok(())
}

#[test]
fn a_read_fails_at_its_number_and_loses_nothing(rt: HostRuntime) -> Result<(), Fail> {
    let alloc = rt.alloc();
    let mut source = MemSource::new(b"ab".to_vec(alloc)?, vec![in alloc; 1]?, None);
    let mut buffer = [0u8; 1];
    assert_eq!(rt; source.read(&mut buffer), Ok(1));
    assert_eq!(rt; source.read(&mut buffer), Err(ReadFault::Failed));
    assert_eq!(rt; source.read(&mut buffer), Ok(1));
    assert_eq!(rt; source.taken(), b"ab".as_slice());
    Ok(())
}

#[test]
fn a_whole_write_is_written_or_cut_at_the_fault(rt: HostRuntime) -> Result<(), Fail> {
    let alloc = rt.alloc();
    let mut sink = MemSink::new(alloc, vec![in alloc; 1]?, None);
    assert_eq!(rt; write_whole(&mut sink, b"ab"), Ok(()));
    assert_eq!(rt; write_whole(&mut sink, b"cd"), Err(Cut { written: 0 }));
    assert_eq!(rt; write_whole(&mut sink, b"ef"), Ok(()));
    sink.close();
    assert_eq!(rt; sink.bytes(), b"abef".as_slice());
    Ok(())
}

#[test]
fn a_sure_source_ends_and_a_sure_sink_takes_all(rt: HostRuntime) -> Result<(), Fail> {
    let mut source = SureSource::new(b"ab".to_vec(rt.alloc())?);
    let mut buffer = [0u8; 4];
    assert_eq!(rt; source.read(&mut buffer), Ok(2));
    assert_eq!(rt; buffer, *b"ab\0\0");
    assert_eq!(rt; source.read(&mut buffer), Ok(0));
    let mut sink = SureSink::new();
    assert_eq!(rt; sink.write(b"abc"), Ok(3));
    assert_eq!(rt; write_whole(&mut sink, b"de"), Ok(()));
    sink.close();
    Ok(())
}

// Reads a byte twice, and says what each read answered.
fn read_twice<S: Source>(mut source: S) -> (S, [Result<usize, ReadFault>; 2]) {
    let mut buffer = [0u8; 1];
    let first = source.read(&mut buffer);
    let second = source.read(&mut buffer);
    (source, [first, second])
}

// Writes two bytes twice.
fn write_twice<S: Sink>(mut sink: S) -> (S, [Result<(), Cut>; 2]) {
    let first = write_whole(&mut sink, b"xy");
    let second = write_whole(&mut sink, b"zw");
    (sink, [first, second])
}

#[test]
fn a_gate_opens_once_a_sink_in_another_thread_has_the_bytes(rt: HostRuntime) -> Result<(), Fail> {
    let alloc = rt.alloc();
    let meter = Meter::new(alloc)?;
    let gate = Gate {
        read: 1,
        meter: meter.share()?,
        bytes: 4,
        turns: 100_000_000,
    };
    let source = MemSource::new(b"ab".to_vec(alloc)?, Vec::new(alloc), Some(gate));
    let sink = MemSink::new(alloc, Vec::new(alloc), Some(meter));
    let (reader, writer) = thread::join(&rt, move || read_twice(source), move || write_twice(sink));
    let (source, read) = reader;
    let (sink, wrote) = writer;
    assert_eq!(rt; read, [Ok(1), Ok(1)]);
    assert_eq!(rt; wrote, [Ok(()), Ok(())]);
    assert_eq!(rt; source.taken(), b"ab".as_slice());
    assert_eq!(rt; sink.bytes(), b"xyzw".as_slice());
    Ok(())
}

#[test]
fn a_gate_whose_turns_run_out_fails_its_read_alone(rt: HostRuntime) -> Result<(), Fail> {
    let alloc = rt.alloc();
    let meter = Meter::new(alloc)?;
    let gate = Gate {
        read: 0,
        meter: meter.share()?,
        bytes: 3,
        turns: 5,
    };
    let mut sink = MemSink::new(alloc, Vec::new(alloc), Some(meter));
    assert_eq!(rt; sink.write(b"xy"), Ok(2));
    let source = MemSource::new(b"ab".to_vec(alloc)?, Vec::new(alloc), Some(gate));
    let (source, read) = read_twice(source);
    assert_eq!(rt; read, [Err(ReadFault::Failed), Ok(1)]);
    assert_eq!(rt; source.taken(), b"a".as_slice());
    Ok(())
}
