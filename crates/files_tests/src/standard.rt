// A source and a sink over pipes and files of the system.
use berth_face::{Failed, Sink, Source};
use std::fs::{File, OpenOptions};
use std::io;
use std::io::{Read, Write};
use std::test::Fail;
use std_streams::{StdSink, StdSource};

#[test]
fn a_source_gives_what_a_pipe_has_and_then_its_end(rt: HostRuntime) -> Result<(), Fail> {
    let (reader, mut writer) = io::pipe(&rt)?;
    let mut source = StdSource::new(reader);
    let mut bytes = [9; 4];

    // Each byte is given as it comes, though the buffer has more room; and of more bytes those that it has room for.
    for byte in [b'a', b'b'] {
        writer.write_all(&[byte])?;
        assert_eq!(rt; source.take(&mut bytes), Ok(1));
        assert_eq!(rt; bytes, [byte, 9, 9, 9]);
    }
    writer.write_all(b"cdefg")?;
    assert_eq!(rt; source.take(&mut bytes), Ok(4));
    assert_eq!(rt; bytes, *b"cdef");
    assert_eq!(rt; source.take(&mut bytes), Ok(1));
    assert_eq!(rt; bytes, *b"gdef");
    drop(writer);
    assert_eq!(rt; source.take(&mut bytes), Ok(0));

    // A folder can be opened, and not be read.
    let mut folder = StdSource::new(File::open(&rt, "/")?);
    assert_eq!(rt; folder.take(&mut bytes), Err(Failed));
    assert_eq!(rt; bytes, *b"gdef");
    Ok(())
}

#[test]
fn a_sink_writes_into_a_pipe_until_nobody_reads(rt: HostRuntime) -> Result<(), Fail> {
    let (mut reader, writer) = io::pipe(&rt)?;
    let mut sink = StdSink::new(writer);
    let mut bytes = [9; 4];
    assert_eq!(rt; sink.put(b"abc"), Ok(3));
    assert_eq!(rt; sink.put(b""), Ok(0));
    assert_eq!(rt; reader.read(&mut bytes)?, 3);
    assert_eq!(rt; bytes, *b"abc\x09");
    drop(reader);
    assert_eq!(rt; sink.put(b"d"), Err(Failed));

    // A device that is always full.
    let full = OpenOptions::new().write(true).open(&rt, "/dev/full")?;
    assert_eq!(rt; StdSink::new(full).put(b"d"), Err(Failed));
    Ok(())
}
