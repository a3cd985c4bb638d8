// Events as a reader hands them out.
use crate::answers::{IN_FILE, expected, parts};
use crate::sample;
use std::process::Abort;
use std::test::Fail;
use trace_file::event::{Event, Timed};
use trace_file::fault::Parts;
use trace_file::reader::Reader;

// The next event that a reader hands out, with the number of its identifier. Built here, since a `From` for `Timed` would be
// public for this alone.
fn next_of(reader: &mut Reader<'_>) -> Result<Option<Timed<u32>>, Parts> {
    let next = parts(reader.next())?;
    Ok(next.map(|Timed { gap, event }| Timed {
        gap,
        event: event.into(),
    }))
}

// A reader of the file hands out these events, and then none.
fn hands_out(rt: &impl Abort, file: &[u8], events: &[Timed<u32>]) -> Result<(), Fail> {
    let mut reader = Reader::new(file);
    for (index, timed) in events.iter().enumerate() {
        assert_eq!(rt; next_of(&mut reader)?, Some(*timed), "event {index}");
    }
    assert_eq!(rt; next_of(&mut reader)?, None);
    assert_eq!(rt; next_of(&mut reader)?, None);
    Ok(())
}

#[test]
fn events_in_order(rt: HostRuntime) -> Result<(), Fail> {
    hands_out(&rt, &sample::FILE, &sample::events())?;
    hands_out(&rt, &sample::PADDED, &sample::events())?;
    let threads = b"\x0f\x04\x03\x02\x01\x34\x12\x0b\xff\xff\xff\xff\xfe\xff\0\x02\0\0\0";
    let waking = Timed {
        gap: 0x0102_0304,
        event: Event::SchedWaking(0x1234),
    };
    let switch = Timed {
        gap: 0xffff_ffff,
        event: Event::SchedSwitch(0xfffe),
    };
    hands_out(&rt, threads, &[waking, switch])
}

#[test]
fn a_refusal_stays(rt: HostRuntime) -> Result<(), Fail> {
    let mut reader = Reader::new(b"\x01\x01\0\0\0\x10");
    assert!(rt; next_of(&mut reader)?.is_some());
    for _ in 0..3 {
        assert_eq!(rt; next_of(&mut reader), expected(IN_FILE, Err((2, 5))));
    }
    Ok(())
}
