// trace: looks at a trace on standard input, says what is wrong with it, and tidies it.
#![tactic(auto)]

#[cfg(test)]
mod cases;
mod jobs;

use jobs::Stop;
use std::env;
use std::io::{BufWriter, Write};
use std::process::ExitCode;

const USAGE: &str = "usage: trace check | show | tidy, with the trace on standard input

  check   prints the number of events
  show    prints a line for each event: stamp, name and operand
  tidy    writes the trace again with every identifier as four digits

A trace that is refused prints refused,LAYER,NUMBER,GROUND,PLACE and ends with status 1.";

fn run(rt: &HostRuntime) -> Result<(), Stop> {
    let mut words = env::args(rt)?.skip(1);
    let (Some(word), None) = (words.next(), words.next()) else {
        return Err(Stop::Usage);
    };
    let heap = rt.alloc();
    let mut out = BufWriter::new(heap, rt.stdout())?;
    // A match and no table of jobs: `tidy` takes memory and standard error too, and the help reads no input.
    match word.as_str() {
        "check" => jobs::count(&mut out, jobs::input(heap, rt.stdin())?.as_slice())?,
        "show" => jobs::show(&mut out, jobs::input(heap, rt.stdin())?.as_slice())?,
        "tidy" => jobs::tidy(
            heap,
            &mut out,
            &mut rt.stderr(),
            jobs::input(heap, rt.stdin())?.as_slice(),
        )?,
        "help" | "--help" | "-h" => writeln!(out, "{USAGE}")?,
        _ => return Err(Stop::Usage),
    }
    out.flush()?;
    Ok(())
}

// A refusal and a wrong call say why themselves, and only another failure is reported as an error.
fn main(rt: HostRuntime) -> anyhow::Result<ExitCode> {
    match run(&rt) {
        Ok(()) => Ok(ExitCode::SUCCESS),
        Err(Stop::Refused(fault)) => {
            jobs::refuse(&rt.stdout(), &rt.stderr(), fault)?;
            Ok(ExitCode::FAILURE)
        }
        Err(Stop::Usage) => {
            eprintln!(rt; "{USAGE}")?;
            Ok(ExitCode::FAILURE)
        }
        Err(stop) => Err(stop.into()),
    }
}
