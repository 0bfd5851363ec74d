ghost use Rattle.std.specs.Prelude.{Some};

use hack_values::{Seq, Text};
use hh_io::{
    Failed, MemSink, MemSource, ReadError, Sink, Source, StdSink, StdSource, SteadySink,
    SteadySource, read_all, write_all,
};
use std::io::{self, ErrorKind, Read, Write, pipe};
use std::test::Fail;

// A source that fails at the calls of these numbers.
fn source(rt: &HostRuntime, bytes: &[u8], failing: &[u64]) -> Result<MemSource, Fail> {
    let text = Text::from_bytes(rt.alloc(), bytes)?;
    Ok(MemSource::new(text, numbers(rt, failing)?))
}

fn numbers(rt: &HostRuntime, items: &[u64]) -> Result<Seq<u64>, Fail> {
    let mut list = Seq::new(rt.alloc());
    for item in items {
        list.push(*item)?;
    }
    Ok(list)
}

#[test]
fn all_bytes_are_read(rt: HostRuntime) -> Result<(), Fail> {
    let hello = b"hello".as_slice();
    for (failing, limit, wanted) in [
        ([].as_slice(), 5, Ok(hello)),
        ([1000].as_slice(), 5, Ok(hello)),
        ([].as_slice(), 4, Err(ReadError::TooLong)),
        ([0].as_slice(), 5, Err(ReadError::ReadFailed)),
        ([1].as_slice(), 5, Err(ReadError::ReadFailed)),
    ] {
        let read = read_all(rt.alloc(), &mut source(&rt, hello, failing)?, limit);
        match wanted {
            Ok(bytes) => assert_eq!(rt; read?.bytes(), bytes),
            Err(error) => assert_eq!(rt; read.err(), Some(error)),
        }
    }
    let mut steady = SteadySource::new(Text::from_bytes(rt.alloc(), hello)?);
    assert_eq!(rt; read_all(rt.alloc(), &mut steady, 5)?.bytes(), hello);
    Ok(())
}

#[test]
fn all_bytes_are_written(rt: HostRuntime) -> Result<(), Fail> {
    for (room, failing, wanted, taken) in [
        (8, [0].as_slice(), Err(Failed), b"".as_slice()),
        (2, [].as_slice(), Err(Failed), b"ab".as_slice()),
        (3, [].as_slice(), Ok(()), b"abc".as_slice()),
    ] {
        let mut sink = MemSink::new(rt.alloc(), room, numbers(&rt, failing)?)?;
        assert_eq!(rt; write_all(&mut sink, b"abc"), wanted);
        assert_eq!(rt; sink.bytes(), taken);
    }
    for (room, taken) in [(3, Some(b"abc".as_slice())), (2, None)] {
        let mut sink = SteadySink::new(rt.alloc(), room)?;
        assert_eq!(rt; write_all(&mut sink, b"abc"), Ok(()));
        assert_eq!(rt; sink.bytes(), taken);
    }
    Ok(())
}

// A source that gives a single byte at each read.
#[derive(Drop)]
struct Dripping(SteadySource);

impl Source for Dripping {
    ghost left = { λ s. Some s.0 };

    ghost faults = { λ _. 0 };

    ghost reads = { λ _. 0 };

    fn read(&mut self, buf: &mut [u8]) -> Result<usize, Failed> {
        let room = buf.len().min(1);
        self.0.read(&mut buf[..room])
    }
}

#[test]
fn single_bytes_are_read(rt: HostRuntime) -> Result<(), Fail> {
    let text = Text::from_bytes(rt.alloc(), b"hello")?;
    let mut source = Dripping(SteadySource::new(text));
    assert_eq!(rt;
        read_all(rt.alloc(), &mut source, 5)?.bytes(),
        b"hello".as_slice()
    );
    Ok(())
}

// A stream that is broken.
#[derive(Drop)]
struct Broken;

impl Read for Broken {
    fn read(&mut self, _buf: &mut [u8]) -> io::Result<usize> {
        Err(ErrorKind::BrokenPipe.into())
    }
}

impl Write for Broken {
    fn write(&mut self, _bytes: &[u8]) -> io::Result<usize> {
        Err(ErrorKind::BrokenPipe.into())
    }

    fn flush(&mut self) -> io::Result<()> {
        Ok(())
    }
}

#[test]
fn streams_carry_bytes(rt: HostRuntime) -> Result<(), Fail> {
    let (reader, writer) = pipe(&rt)?;
    let mut sink = StdSink::new(writer);
    assert_eq!(rt; write_all(&mut sink, b"hello"), Ok(()));
    drop(sink);
    let mut source = StdSource::new(reader);
    assert_eq!(rt;
        read_all(rt.alloc(), &mut source, 5)?.bytes(),
        b"hello".as_slice()
    );
    let broken = read_all(rt.alloc(), &mut StdSource::new(Broken), 5);
    assert_eq!(rt; broken.err(), Some(ReadError::ReadFailed));
    assert_eq!(rt; write_all(&mut StdSink::new(Broken), b"hello"), Err(Failed));
    Ok(())
}
