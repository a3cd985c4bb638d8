// The events of a trace: the command table, which gives each its byte, its name and its operand.
ghost use Rattle.std.specs.Prelude.{◌≡◌, Some};
ghost use Rattle.trace_file.specs.Event.{command, name, with, shown};

use crate::identifier::Identifier;
use std::fmt;

// An event whose interrupt identifier is an `I`.
#[derive(Clone, Copy, Debug, PartialEq, Eq)]
pub enum Event<I> {
    NmiEntry,
    NmiExit,
    IrqEntry(I),
    IrqExit,
    LocalIrqDisable,
    LocalIrqEnable,
    PreemptDisable,
    PreemptEnable,
    PreemptDisableSched,
    ScheduleEntry,
    SchedSwitch(u16),
    ScheduleExit,
    PreemptEnableSched,
    NeedResched,
    SchedWaking(u16),
}

// What follows the gap of an event command.
#[derive(Clone, Copy, Debug, PartialEq, Eq)]
pub enum Operand<I> {
    Nothing,
    Identifier(I),
    Thread(u16),
}

impl<I: Copy> Event<I> {
    // The event's command byte and operand. The byte stays a number: whoever asks for it puts it into a file.
    pub fn command(self) -> (u8, Operand<I>)
        ensures { result ≡ command self }
    {
        match self {
            Event::NmiEntry => (0x01, Operand::Nothing),
            Event::NmiExit => (0x02, Operand::Nothing),
            Event::IrqEntry(id) => (0x03, Operand::Identifier(id)),
            Event::IrqExit => (0x04, Operand::Nothing),
            Event::LocalIrqDisable => (0x05, Operand::Nothing),
            Event::LocalIrqEnable => (0x06, Operand::Nothing),
            Event::PreemptDisable => (0x07, Operand::Nothing),
            Event::PreemptEnable => (0x08, Operand::Nothing),
            Event::PreemptDisableSched => (0x09, Operand::Nothing),
            Event::ScheduleEntry => (0x0a, Operand::Nothing),
            Event::SchedSwitch(thread) => (0x0b, Operand::Thread(thread)),
            Event::ScheduleExit => (0x0c, Operand::Nothing),
            Event::PreemptEnableSched => (0x0d, Operand::Nothing),
            Event::NeedResched => (0x0e, Operand::Nothing),
            Event::SchedWaking(thread) => (0x0f, Operand::Thread(thread)),
        }
    }

    pub fn name(self) -> &'static str
        ensures { result.now ≡ name self }
    {
        match self {
            Event::NmiEntry => "nmi_entry",
            Event::NmiExit => "nmi_exit",
            Event::IrqEntry(_) => "irq_entry",
            Event::IrqExit => "irq_exit",
            Event::LocalIrqDisable => "local_irq_disable",
            Event::LocalIrqEnable => "local_irq_enable",
            Event::PreemptDisable => "preempt_disable",
            Event::PreemptEnable => "preempt_enable",
            Event::PreemptDisableSched => "preempt_disable_sched",
            Event::ScheduleEntry => "schedule_entry",
            Event::SchedSwitch(_) => "sched_switch",
            Event::ScheduleExit => "schedule_exit",
            Event::PreemptEnableSched => "preempt_enable_sched",
            Event::NeedResched => "need_resched",
            Event::SchedWaking(_) => "sched_waking",
        }
    }
}

// An event that was read, with the number of its identifier. No `map` with a closure, which would have to ask that it may be
// called.
impl From<Event<Identifier<'_>>> for Event<u32> {
    ghost from_gives = { λ read event. event ≡ with (λ i. i.number) read };

    fn from(read: Event<Identifier<'_>>) -> Event<u32> {
        match read {
            Event::NmiEntry => Event::NmiEntry,
            Event::NmiExit => Event::NmiExit,
            Event::IrqEntry(identifier) => Event::IrqEntry(identifier.number),
            Event::IrqExit => Event::IrqExit,
            Event::LocalIrqDisable => Event::LocalIrqDisable,
            Event::LocalIrqEnable => Event::LocalIrqEnable,
            Event::PreemptDisable => Event::PreemptDisable,
            Event::PreemptEnable => Event::PreemptEnable,
            Event::PreemptDisableSched => Event::PreemptDisableSched,
            Event::ScheduleEntry => Event::ScheduleEntry,
            Event::SchedSwitch(thread) => Event::SchedSwitch(thread),
            Event::ScheduleExit => Event::ScheduleExit,
            Event::PreemptEnableSched => Event::PreemptEnableSched,
            Event::NeedResched => Event::NeedResched,
            Event::SchedWaking(thread) => Event::SchedWaking(thread),
        }
    }
}

// An event is written as its name and, after a comma, its operand.
impl<I: Copy + fmt::Display> fmt::Display for Event<I> {
    ghost output = { shown I.output };

    fn fmt<W: fmt::Write>(&self, f: &mut fmt::Formatter<W>) -> fmt::Result {
        let name = self.name();
        let (_, operand) = self.command();
        match operand {
            Operand::Nothing => write!(f, "{name}"),
            Operand::Identifier(identifier) => write!(f, "{name},{identifier}"),
            Operand::Thread(thread) => write!(f, "{name},{thread}"),
        }
    }
}

// An event with the ticks since the event before it.
#[derive(Clone, Copy, Debug, PartialEq, Eq)]
pub struct Timed<I> {
    pub gap: u32,
    pub event: Event<I>,
}
