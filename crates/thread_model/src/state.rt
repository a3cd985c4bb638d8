// What is known of the processor between two events.

// What runs: the innermost of what has been entered and not left.
#[derive(Clone, Copy, Debug, PartialEq, Eq)]
pub enum Context {
    Thread,
    Handler,
    Nmi,
}

#[derive(Clone, Copy, Debug, PartialEq, Eq)]
pub enum Preemption {
    On,
    OffByThread,
    OffByHandler,
    OffToSchedule,
}

// How far a pass of the scheduler has come, named by the latest of its events. The last of them leads outside.
#[derive(Clone, Copy, Debug, PartialEq, Eq)]
pub enum Step {
    Outside,
    PreemptionOff,
    Entered,
    IrqsOff,
    Switched,
    IrqsOn,
    Left,
}

#[derive(Clone, Copy, Debug, PartialEq, Eq)]
pub struct State {
    pub nmi: bool,
    pub handler: bool,
    // IRQs are disabled by a thread.
    pub masked: bool,
    pub preemption: Preemption,
    // A thread has been called and no switch has come since.
    pub resched: bool,
    pub step: Step,
}
