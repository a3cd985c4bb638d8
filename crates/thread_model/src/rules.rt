// The verdict on each event, and the state after it.
ghost use Rattle.std.specs.Prelude.{◌≡◌};
ghost use Rattle.thread_model.specs.Rules.{verdict};
ghost use Rattle.thread_model.specs.State.{context, start, next, step_after};

use crate::state::{Context, Preemption, State, Step};
use trace_file::event::Event;
use trace_file::fault::Ground;

impl Step {
    // The step after an event: the pass goes on at its next event alone.
    fn after<I: Copy>(self, event: Event<I>) -> Step
        ensures { result ≡ step_after event self }
    {
        match (self, event) {
            (Step::Outside, Event::PreemptDisableSched) => Step::PreemptionOff,
            (Step::PreemptionOff, Event::ScheduleEntry) => Step::Entered,
            (Step::Entered, Event::LocalIrqDisable) => Step::IrqsOff,
            (Step::IrqsOff, Event::SchedSwitch(_)) => Step::Switched,
            (Step::Switched, Event::LocalIrqEnable) => Step::IrqsOn,
            (Step::IrqsOn, Event::ScheduleExit) => Step::Left,
            (Step::Left, Event::PreemptEnableSched) => Step::Outside,
            (step, _) => step,
        }
    }
}

impl State {
    // In a thread, everything enabled, no thread called, no pass under way. No derived `Default`: it would say this in three places.
    pub fn start() -> State
        ensures { result ≡ start }
    {
        State {
            nmi: false,
            handler: false,
            masked: false,
            preemption: Preemption::On,
            resched: false,
            step: Step::Outside,
        }
    }

    pub fn context(&self) -> Context
        ensures { result ≡ context self.now }
    {
        if self.nmi {
            Context::Nmi
        } else if self.handler {
            Context::Handler
        } else {
            Context::Thread
        }
    }

    // The ground on which the event is denied, if it is.
    pub fn denial<I: Copy>(&self, event: Event<I>) -> Option<Ground>
        ensures verdict { result ≡ verdict self.now event }
    {
        match (self.context(), self.step, self.preemption, event) {
            // In an NMI, and NMIs outside one.
            (Context::Nmi, _, _, Event::NmiEntry) => Some(Ground::NmiInTurn),
            (Context::Nmi, _, _, Event::NmiExit) => None,
            (Context::Nmi, _, _, _) => Some(Ground::NothingInNmi),
            (_, _, _, Event::NmiExit) => Some(Ground::NmiInTurn),
            (_, _, _, Event::NmiEntry) => None,
            // In a handler.
            (Context::Handler, _, _, Event::IrqEntry(_)) => Some(Ground::HandlersInTurn),
            (Context::Handler, _, _, Event::LocalIrqDisable | Event::LocalIrqEnable) => Some(
                Ground::OneMaskOfIrqs,
            ),
            (
                Context::Handler,
                _,
                _,
                Event::PreemptDisableSched
                | Event::ScheduleEntry
                | Event::SchedSwitch(_)
                | Event::ScheduleExit
                | Event::PreemptEnableSched,
            ) => Some(Ground::NoSchedulingInHandler),
            (Context::Handler, _, Preemption::On, Event::PreemptDisable) => None,
            (Context::Handler, _, _, Event::PreemptDisable) => Some(Ground::PreemptionInTurn),
            (Context::Handler, _, Preemption::OffByHandler, Event::PreemptEnable) => None,
            (Context::Handler, _, _, Event::PreemptEnable) => Some(Ground::PreemptionInTurn),
            (Context::Handler, _, Preemption::On, Event::NeedResched | Event::SchedWaking(_)) =>
                Some(Ground::WakingWithPreemptionOff),
            (Context::Handler, _, Preemption::OffByHandler, Event::IrqExit) => Some(
                Ground::PreemptionHandedBack,
            ),
            (Context::Handler, _, _, _) => None,
            // Handlers, in a thread.
            (_, _, _, Event::IrqExit) => Some(Ground::HandlersInTurn),
            (_, _, _, Event::IrqEntry(_)) if self.masked => Some(Ground::OneMaskOfIrqs),
            (_, _, _, Event::IrqEntry(_)) => None,
            // A thread has been called, and nothing keeps the scheduler off.
            (_, Step::Outside, Preemption::On, Event::PreemptDisableSched)
                if self.resched && !self.masked => None,
            (_, Step::Outside, Preemption::On, _) if self.resched && !self.masked => Some(
                Ground::FlagLeadsToSwitch,
            ),
            // In a pass.
            (
                _,
                Step::PreemptionOff
                | Step::Entered
                | Step::IrqsOff
                | Step::Switched
                | Step::IrqsOn
                | Step::Left,
                _,
                Event::PreemptDisable | Event::PreemptEnable,
            ) => Some(Ground::PreemptionKeptInPass),
            (_, Step::PreemptionOff, _, Event::ScheduleEntry) => None,
            (_, Step::Entered, _, Event::LocalIrqDisable) => None,
            (_, Step::IrqsOff, _, Event::SchedSwitch(_)) => None,
            (_, Step::Switched, _, Event::LocalIrqEnable) => None,
            (_, Step::IrqsOn, _, Event::ScheduleExit) => None,
            (_, Step::Left, _, Event::PreemptEnableSched) => None,
            (_, Step::IrqsOff | Step::Switched, _, Event::NeedResched | Event::SchedWaking(_)) =>
                None,
            (
                _,
                Step::PreemptionOff | Step::Entered | Step::IrqsOn | Step::Left,
                _,
                Event::NeedResched | Event::SchedWaking(_),
            ) => Some(Ground::WakingWithIrqsMasked),
            (_, Step::PreemptionOff, _, _) => Some(Ground::PassCallsScheduler),
            (_, Step::Entered | Step::IrqsOff, _, _) => Some(Ground::SchedulerSwitches),
            (_, Step::Switched, _, _) => Some(Ground::SchedulerWithIrqsOn),
            (_, Step::IrqsOn | Step::Left, _, _) => Some(Ground::SchedulerWithPreemptionOff),
            // In a thread outside a pass.
            (_, _, Preemption::On, Event::PreemptDisable) => None,
            (_, _, _, Event::PreemptDisable) => Some(Ground::PreemptionInTurn),
            (_, _, Preemption::On, Event::PreemptEnable) => Some(Ground::PreemptionInTurn),
            (_, _, _, Event::PreemptEnable) => None,
            (_, _, _, Event::LocalIrqDisable) if self.masked => Some(Ground::ThreadIrqsInTurn),
            (_, _, _, Event::LocalIrqDisable) => None,
            (_, _, _, Event::LocalIrqEnable) if !self.masked => Some(Ground::ThreadIrqsInTurn),
            (_, _, _, Event::LocalIrqEnable) => None,
            (
                _,
                _,
                Preemption::OffByThread | Preemption::OffByHandler | Preemption::OffToSchedule,
                Event::PreemptDisableSched,
            ) => Some(Ground::PreemptionInTurn),
            (_, _, _, Event::PreemptDisableSched) if self.masked => Some(
                Ground::SchedulerWithIrqsOn,
            ),
            (_, _, _, Event::PreemptDisableSched) => None,
            (_, _, _, Event::ScheduleEntry) => Some(Ground::SchedulerWithPreemptionOff),
            (_, _, _, Event::SchedSwitch(_)) => Some(Ground::SwitchInPass),
            (_, _, _, Event::ScheduleExit) => Some(Ground::SchedulerInTurn),
            (_, _, _, Event::PreemptEnableSched) => Some(Ground::PreemptionInTurn),
            (_, _, Preemption::On, Event::NeedResched | Event::SchedWaking(_)) => Some(
                Ground::WakingWithPreemptionOff,
            ),
            (_, _, _, Event::NeedResched | Event::SchedWaking(_)) if !self.masked => Some(
                Ground::WakingWithIrqsMasked,
            ),
            (_, _, _, Event::NeedResched | Event::SchedWaking(_)) => None,
        }
    }

    // The state that an allowed event leads to.
    pub fn after<I: Copy>(&self, event: Event<I>) -> State
        ensures { result ≡ next self.now event }
    {
        let mut state = *self;
        state.step = self.step.after(event);
        match event {
            Event::NmiEntry => state.nmi = true,
            Event::NmiExit => state.nmi = false,
            Event::IrqEntry(_) => state.handler = true,
            Event::IrqExit => state.handler = false,
            Event::LocalIrqDisable => state.masked = true,
            Event::LocalIrqEnable => state.masked = false,
            Event::PreemptDisable if self.handler => state.preemption = Preemption::OffByHandler,
            Event::PreemptDisable => state.preemption = Preemption::OffByThread,
            Event::PreemptDisableSched => state.preemption = Preemption::OffToSchedule,
            Event::PreemptEnable | Event::PreemptEnableSched => state.preemption = Preemption::On,
            Event::NeedResched => state.resched = true,
            Event::SchedSwitch(_) => state.resched = false,
            Event::ScheduleEntry | Event::ScheduleExit | Event::SchedWaking(_) => {}
        }
        state
    }
}
