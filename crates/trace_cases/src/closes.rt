// Writers that are closed or given up.
use crate::space::BEFORE;
use crate::writers::{closed, kept, unclosed};
use std::process::Abort;
use std::test::Fail;
use trace_file::event::Event;
use trace_writer::writer::Writer;

// Puts one more event, which is answered by how many there are.
fn put_one(
    rt: &impl Abort,
    writer: &mut Writer,
    out: &mut [u8],
    event: Event<u32>,
    count: u32,
) -> Result<(), Fail> {
    let found = writer.put(out, 1, event)?;
    assert_eq!(rt; found, count);
    Ok(())
}

// The writer with one more event.
fn with(
    rt: &impl Abort,
    mut writer: Writer,
    out: &mut [u8],
    event: Event<u32>,
    count: u32,
) -> Result<Writer, Fail> {
    let done = put_one(rt, &mut writer, out, event, count);
    kept(writer, done)
}

#[test]
fn a_refused_close_hands_the_writer_back(rt: HostRuntime) -> Result<(), Fail> {
    let mut out = [BEFORE; 16];
    let writer = unclosed(&rt, Writer::open(), &mut out[0..4], 0)?;
    let writer = with(&rt, writer, &mut out, Event::NmiEntry, 1)?;
    let writer = unclosed(&rt, writer, &mut out[0..9], 5)?;
    let writer = unclosed(&rt, writer, &mut out[0..0], 5)?;
    let one = *b"\x01\x01\0\0\0\xee\xee\xee\xee\xee\xee\xee\xee\xee\xee\xee";
    assert_eq!(rt; out, one);
    let writer = with(&rt, writer, &mut out, Event::NmiExit, 2)?;
    let writer = unclosed(&rt, writer, &mut out[0..14], 10)?;
    closed(&rt, writer, &mut out[0..15], 15)?;
    assert_eq!(rt; out, *b"\x01\x01\0\0\0\x02\x01\0\0\0\0\x02\0\0\0\xee");
    Ok(())
}

#[test]
fn a_writer_with_no_event(rt: HostRuntime) -> Result<(), Fail> {
    assert_eq!(rt; Writer::open().give_up(), 0);
    let mut out = [BEFORE; 6];
    closed(&rt, Writer::open(), &mut out[0..5], 5)?;
    assert_eq!(rt; out, *b"\0\0\0\0\0\xee");
    Ok(())
}
