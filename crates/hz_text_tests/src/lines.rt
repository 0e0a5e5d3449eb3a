//! How many puts a line takes, which no clause says, and what a writer does after a fault.

use hz_outside::{MemSink, PlainSink, PutFault, Sink};
use hz_write::Piece::{Number, Text};
use hz_write::Writer;
use std::alloc::Global;
use std::test::Fail;

// Writes a line of these bytes, by one call or by pieces, a second line, and a third without its end.
fn write_lines<K: Sink>(out: &mut K, bytes: &[u8], at_once: bool) -> Result<(), PutFault> {
    let mut writer = Writer::new(out);
    if at_once {
        writer.end_by_three(b"", bytes, b"\n");
    } else {
        writer.line(&[Text(bytes)]);
    }
    writer.line(&[Text(b"count "), Number(65_536)]);
    writer.add(&[Text(b"end "), Number(0)]);
    writer.finish()
}

// How many bytes stand if one put, numbered from 1, fails.
fn bytes_written(alloc: Global, line: &[u8], at_once: bool, put: u64) -> Result<usize, Fail> {
    let mut sink = MemSink::new(alloc);
    sink.fail(put, 0)?;
    if write_lines(&mut sink, line, at_once) != Err(PutFault::Failed) {
        return Err("no put failed".into());
    }
    Ok(sink.bytes().len())
}

/// A line of so many bytes before its line feed takes so many puts: if the last of them fails, the buffers before it stand and
/// nothing after it, and if the next fails, the whole line stands.
#[test]
fn lines_by_buffers(rt: HostRuntime) -> Result<(), Fail> {
    let text = vec![in rt.alloc(); b'x'; 10_000]?;
    let rows = [
        (0, 1, 0, 1),
        (4095, 1, 0, 4096),
        (4096, 2, 4096, 4097),
        (8191, 2, 4096, 8192),
        (8192, 3, 8192, 8193),
    ];
    for (len, puts, stands, whole) in rows {
        let line = text.get(..len).ok_or("too long")?;
        for at_once in [false, true] {
            assert_eq!(rt; bytes_written(rt.alloc(), line, at_once, puts)?, stands);
            assert_eq!(rt;
                bytes_written(rt.alloc(), line, at_once, puts.saturating_add(1))?,
                whole
            );
        }
    }
    Ok(())
}

#[test]
fn a_text_of_lines(rt: HostRuntime) -> Result<(), Fail> {
    for at_once in [false, true] {
        let mut sink = PlainSink::new(rt.alloc());
        write_lines(&mut sink, b"line", at_once)?;
        assert_eq!(rt; sink.bytes(), b"line\ncount 65536\nend 0".as_slice());
    }
    Ok(())
}
