// What a refusal carries: the layer that met it, which refusal it is and on what ground, and its place.
ghost use Rattle.std.specs.Prelude.{◌≡◌, Some};
ghost use Rattle.trace_file.specs.Fault.{layer_number, ground_number, refusal_number, refusal_word, refusal_law, parts, line_of};

use std::error::Error;
use std::fmt;

// The part of the product that refuses.
#[derive(Clone, Copy, Debug, PartialEq, Eq)]
pub enum Layer {
    File = 1,
    Rules = 2,
    Recording = 3,
    Bound = 4,
    Writer = 5,
}

impl Layer {
    // What this layer refuses, at a place.
    pub fn refuses(self, refusal: Refusal, place: usize) -> Fault
        ensures { result ≡ record { layer = self; refusal = refusal; place = place } }
    {
        Fault {
            layer: self,
            refusal,
            place,
        }
    }
}

// The cast is what reads the number off an enum, here and below.
impl From<Layer> for u8 {
    ghost from_gives = { λ layer n. n ≡ layer_number layer };

    fn from(layer: Layer) -> u8 {
        layer as u8
    }
}

// The law of the kernel that an event out of turn would break.
#[derive(Clone, Copy, Debug, PartialEq, Eq)]
pub enum Ground {
    NmiInTurn = 1,
    ThreadIrqsInTurn = 2,
    HandlersInTurn = 3,
    PreemptionInTurn = 6,
    SchedulerInTurn = 7,
    NothingInNmi = 102,
    NoSchedulingInHandler = 103,
    OneMaskOfIrqs = 104,
    SchedulerWithIrqsOn = 105,
    SchedulerWithPreemptionOff = 106,
    PreemptionKeptInPass = 107,
    SwitchInPass = 109,
    WakingWithPreemptionOff = 110,
    WakingWithIrqsMasked = 111,
    PassCallsScheduler = 112,
    SchedulerSwitches = 113,
    FlagLeadsToSwitch = 114,
    PreemptionHandedBack = 201,
}

impl From<Ground> for u8 {
    ghost from_gives = { λ law n. n ≡ ground_number law };

    fn from(law: Ground) -> u8 {
        law as u8
    }
}

#[derive(Clone, Copy, Debug, PartialEq, Eq)]
pub enum Refusal {
    Truncated,
    UnknownCommand,
    StuckClock,
    BadIdentifier,
    Miscount,
    Trailing,
    OutOfTurn(Ground),
    Overlong,
    LogFull,
    TooMany,
    NoSuchModel,
    BadHorizon,
    NoPass,
    NoBound,
    NoSpace,
    Oversize,
}

impl Refusal {
    // The word, for whoever wants it as a text; `Display` prints it.
    pub fn word(self) -> &'static str
        ensures { result.now ≡ refusal_word self }
    {
        match self {
            Refusal::Truncated => "truncated",
            Refusal::UnknownCommand => "unknown",
            Refusal::StuckClock => "stuck clock",
            Refusal::BadIdentifier => "identifier",
            Refusal::Miscount => "miscount",
            Refusal::Trailing => "trailing",
            Refusal::OutOfTurn(_) => "out of turn",
            Refusal::Overlong => "overlong",
            Refusal::LogFull => "log full",
            Refusal::TooMany => "too many",
            Refusal::NoSuchModel => "model",
            Refusal::BadHorizon => "horizon",
            Refusal::NoPass => "no pass",
            Refusal::NoBound => "no bound",
            Refusal::NoSpace => "no space",
            Refusal::Oversize => "oversize",
        }
    }

    // The law that an event out of turn would break. No other refusal has one.
    fn ground(self) -> Option<Ground>
        ensures { result ≡ refusal_law self }
    {
        match self {
            Refusal::OutOfTurn(law) => Some(law),
            _ => None,
        }
    }
}

impl From<Refusal> for u8 {
    ghost from_gives = { λ refusal n. n ≡ refusal_number refusal };

    fn from(refusal: Refusal) -> u8 {
        match refusal {
            Refusal::Truncated => 1,
            Refusal::UnknownCommand => 2,
            Refusal::StuckClock => 3,
            Refusal::BadIdentifier => 4,
            Refusal::Miscount => 5,
            Refusal::Trailing => 6,
            Refusal::OutOfTurn(_) => 7,
            Refusal::Overlong => 8,
            Refusal::LogFull => 9,
            Refusal::TooMany => 10,
            Refusal::NoSuchModel => 11,
            Refusal::BadHorizon => 12,
            Refusal::NoPass => 13,
            Refusal::NoBound => 14,
            Refusal::NoSpace => 15,
            Refusal::Oversize => 16,
        }
    }
}

impl fmt::Display for Refusal {
    ghost output = { λ refusal. Some (refusal_word refusal) };

    fn fmt<W: fmt::Write>(&self, f: &mut fmt::Formatter<W>) -> fmt::Result {
        f.write_str(self.word())
    }
}

// A refusal, with the layer that met it and its place.
#[derive(Clone, Copy, PartialEq, Eq)]
pub struct Fault {
    pub layer: Layer,
    pub refusal: Refusal,
    pub place: usize,
}

// A fault in numbers.
#[derive(Clone, Copy, Debug, PartialEq, Eq)]
pub struct Parts {
    pub layer: u8,
    pub number: u8,
    pub ground: u8,
    pub place: usize,
}

impl From<Fault> for Parts {
    ghost from_gives = { λ fault p. p ≡ parts fault };

    fn from(fault: Fault) -> Parts {
        Parts {
            layer: fault.layer.into(),
            number: fault.refusal.into(),
            ground: fault.refusal.ground().map_or(0, u8::from),
            place: fault.place,
        }
    }
}

impl Fault {
    // The fault in numbers: `Parts::from`, as a method.
    pub fn parts(self) -> Parts
        ensures { result ≡ parts self }
    {
        Parts::from(self)
    }
}

impl fmt::Display for Fault {
    ghost output = { λ f. Some (line_of (parts f)) };

    fn fmt<W: fmt::Write>(&self, f: &mut fmt::Formatter<W>) -> fmt::Result {
        let Parts {
            layer,
            number,
            ground,
            place,
        } = Parts::from(*self);
        write!(f, "refused,{layer},{number},{ground},{place}")
    }
}

// By its numbers, as all else that is printed of a fault.
impl fmt::Debug for Fault {
    fn fmt<W: fmt::Write>(&self, f: &mut fmt::Formatter<W>) -> fmt::Result {
        Parts::from(*self).fmt(f)
    }
}

impl Error for Fault {}
