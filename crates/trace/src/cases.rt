// What the program prints and writes of some traces.
use crate::jobs;
use crate::jobs::Stop;
use std::alloc::{AllocError, Global};
use std::cell::OnceCell;
use std::fmt::Display;
use std::io;
use std::process::Abort;
use std::test::Fail;
use trace_file::fault::{Ground, Layer, Parts, Refusal};

// A handler that calls for a thread and a switch to it, from the two recorders.
const BLANKS: [u8; 36] =
    *b"\x07\x0a\0\0\0\x03\x05\0\0\0  33\x0e\x04\0\0\0\x04\x06\0\0\0\x0b\x02\0\0\0\x07\0\0\x05\0\0\0";

const ZEROS: [u8; 36] =
    *b"\x07\x0a\0\0\0\x03\x05\0\0\00033\x0e\x04\0\0\0\x04\x06\0\0\0\x0b\x02\0\0\0\x07\0\0\x05\0\0\0";

// The line that is printed of a refusal.
fn line<T: Drop>(heap: Global, res: Result<T, Stop>) -> Result<String, Fail> {
    match res {
        Err(Stop::Refused(fault)) => Ok(format!(in heap; "{fault}")?),
        _ => Err(Fail::new("not refused")),
    }
}

#[test]
fn counts(rt: HostRuntime) -> Result<(), Fail> {
    let mut out = Vec::new(rt.alloc());
    jobs::count(&mut out, &BLANKS)?;
    assert_eq!(rt; out.as_slice(), b"5\n".as_slice());
    Ok(())
}

#[test]
fn shows(rt: HostRuntime) -> Result<(), Fail> {
    let mut out = Vec::new(rt.alloc());
    jobs::show(&mut out, &BLANKS)?;
    assert_eq!(rt;
        out.as_slice(),
        b"10,preempt_disable\n15,irq_entry,33\n19,need_resched\n25,irq_exit\n27,sched_switch,7\n".as_slice()
    );
    Ok(())
}

#[test]
fn tidies(rt: HostRuntime) -> Result<(), Fail> {
    let mut out = Vec::new(rt.alloc());
    let mut said = Vec::new(rt.alloc());
    jobs::tidy(rt.alloc(), &mut out, &mut said, &BLANKS)?;
    assert_eq!(rt; out.as_slice(), &ZEROS[..]);
    assert_eq!(rt;
        said.as_slice(),
        b"5 events, 36 bytes, identifiers changed: 1\n".as_slice()
    );
    Ok(())
}

#[test]
fn refuses(rt: HostRuntime) -> Result<(), Fail> {
    let cut = &BLANKS[0..35];
    let mut out = Vec::new(rt.alloc());
    let mut said = Vec::new(rt.alloc());
    assert_eq!(rt;
        line(rt.alloc(), jobs::count(&mut out, cut))?.as_str(),
        "refused,1,1,0,31"
    );
    assert_eq!(rt;
        line(rt.alloc(), jobs::show(&mut out, cut))?.as_str(),
        "refused,1,1,0,31"
    );
    assert_eq!(rt;
        line(rt.alloc(), jobs::tidy(rt.alloc(), &mut out, &mut said, cut))?.as_str(),
        "refused,1,1,0,31"
    );
    assert!(rt; out.is_empty() && said.is_empty());
    Ok(())
}

#[test]
fn limits_input(rt: HostRuntime) -> Result<(), Fail> {
    let most = vec![in rt.alloc(); 0u8; 65_536]?;
    let more = vec![in rt.alloc(); 0u8; 65_537]?;
    assert!(rt; jobs::input(rt.alloc(), most.as_slice()).is_ok());
    assert_eq!(rt;
        line(rt.alloc(), jobs::input(rt.alloc(), more.as_slice()))?.as_str(),
        "refused,1,16,0,0"
    );
    Ok(())
}

// Takes one text, printed whole by one call, and refuses a second.
#[derive(Drop)]
struct Once {
    heap: Global,
    text: OnceCell<String>,
}

impl Once {
    fn new(heap: Global) -> Once {
        Once {
            heap,
            text: OnceCell::new(),
        }
    }

    fn text(&self) -> Option<&str> {
        self.text.get().map(|text| text.as_str())
    }
}

impl Print for Once {
    fn print<D: Display + Drop>(&self, value: D) -> io::Result<()> {
        let text = format!(in self.heap; "{value}")?;
        self.text
            .set(text)
            .map_err(|_| io::ErrorKind::AlreadyExists.into())
    }

    fn println<D: Display + Drop>(&self, value: D) -> io::Result<()> {
        self.print(format_args!("{value}\n"))
    }

    fn write_all(&self, _bytes: &[u8]) -> io::Result<()> {
        Err(io::ErrorKind::Unsupported.into())
    }
}

#[test]
fn says_what_is_wrong(rt: HostRuntime) -> Result<(), Fail> {
    let out = Once::new(rt.alloc());
    let said = Once::new(rt.alloc());
    let fault = Layer::File.refuses(Refusal::StuckClock, 85);
    jobs::refuse(&out, &said, fault)?;
    assert_eq!(rt; out.text(), Some("refused,1,3,0,85\n"));
    assert_eq!(rt; said.text(), Some("trace: stuck clock, at byte 85\n"));
    Ok(())
}

#[test]
fn a_fault_is_its_numbers(rt: HostRuntime) -> Result<(), Fail> {
    let fault = Layer::Writer.refuses(Refusal::OutOfTurn(Ground::SwitchInPass), 7);
    let numbers = Parts {
        layer: 5,
        number: 7,
        ground: 109,
        place: 7,
    };
    assert_eq!(rt; fault.parts(), numbers);
    let words = format!(in rt.alloc(); "{fault:?}")?;
    assert_eq!(rt;
        words.as_str(),
        "Parts { layer: 5, number: 7, ground: 109, place: 7 }"
    );
    Ok(())
}

// A failure that is no refusal is reported in its own words.
fn told<E: Display + Drop + Into<Stop>>(
    rt: &impl Abort,
    heap: Global,
    error: E,
) -> Result<(), Fail> {
    let words = format!(in heap; "{error}")?;
    let stop: Stop = error.into();
    assert_eq!(rt; format!(in heap; "{stop}")?.as_str(), words.as_str());
    Ok(())
}

#[test]
fn tells_of_io_and_memory(rt: HostRuntime) -> Result<(), Fail> {
    told(&rt, rt.alloc(), io::Error::from(io::ErrorKind::TimedOut))?;
    told(&rt, rt.alloc(), AllocError)
}
