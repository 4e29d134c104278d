//! The program `norigully`: it prints nextest's console report of a run.
//!
//! With a file alone it does what `report` does. With `--follow` as its first word it reports each line of a scene
//! before it reads more, and with `--recorded` a recorded run. Its status is then that of the run: 0 for a success, 100
//! for a failure, 4 if no test ran, and 3 for a run that did not end, so that a producer that died does not look like a
//! success. An error is one line on standard error and a status.
#![tactic(auto)]

ghost use Rattle.std.specs.Prelude.{◌≡◌, codes, IfErr, IfOk};
ghost use Rattle.command_line.specs.Faults.{status_of};
ghost use Rattle.command_line.specs.declared.fault.ReportProgram.TheVariants.{Follow, Replay};
ghost use Rattle.norigully.specs.declared.Request.TheVariants.{Run};
ghost use Rattle.scene_follower.specs.Outcomes.{status_of_outcome};

mod follow;
mod replay;

use command_line::fault::{Fault, ReportProgram};
use scene_follower::follow::RunOutcome;
use scene_follower::process::{arguments, fill_standard_descriptors, print_error, report_fault};
use scenes::process::report_file;
use std::process::ExitCode;

const VERSION: &str = "norigully 0.2.0\n";

const HELP: &str = "usage: norigully [OPTIONS] FILE
       norigully --follow [OPTIONS] [FILE]
       norigully --recorded [OPTIONS] DIR

Prints nextest's console report of the run in FILE, of its lines as they come, or of the recorded run in DIR.
OPTIONS: [--color] [--counter] [--replay] [--unload] [--level L] [--store PATH] [--store-success] [--store-failure]
";

fn main(rt: HostRuntime) -> ExitCode {
    fill_standard_descriptors(&rt);
    let status = match arguments(&rt) {
        Ok(args) => start(&rt, args),
        Err(fault) => report_fault(&rt, ReportProgram::Report, fault),
    };
    ExitCode::from(status)
}

// What the first word asks for.
enum Request {
    Run(ReportProgram),
    Text(&'static str),
}

// Only the first word asks for another run than that of a file.
fn request_of(first: &str, is_alone: bool) -> Request
    ensures follow { first.now ≡ codes "--follow" → result ≡ Run Follow }
    ensures recorded { first.now ≡ codes "--recorded" → result ≡ Run Replay }
{
    match first {
        "--follow" => Request::Run(ReportProgram::Follow),
        "--recorded" => Request::Run(ReportProgram::Replay),
        "--help" | "-h" if is_alone => Request::Text(HELP),
        "--version" | "-V" if is_alone => Request::Text(VERSION),
        _ => Request::Run(ReportProgram::Report),
    }
}

// Does what the words ask for, and returns the status.
fn start(rt: &HostRuntime, args: Vec<String>) -> u8 {
    let mut args = args;
    if args.is_empty() {
        return report_fault(rt, ReportProgram::Report, Fault::Usage);
    }
    let request = request_of(args[0].as_str(), args.len() == 1);
    match request {
        Request::Text(text) => match print!(rt; "{text}") {
            Ok(()) => 0,
            Err(_) => report_fault(rt, ReportProgram::Report, Fault::WriteFailed),
        },
        Request::Run(ReportProgram::Report) => match report_file(rt, args.as_slice()) {
            Ok(()) => 0,
            Err(fault) => report_fault(rt, ReportProgram::Report, fault),
        },
        Request::Run(ReportProgram::Follow) => {
            let _mode = args.remove(0);
            end(
                rt,
                ReportProgram::Follow,
                follow::follow_file(rt, &mut args),
            )
        }
        Request::Run(ReportProgram::Replay) => {
            let _mode = args.remove(0);
            end(
                rt,
                ReportProgram::Replay,
                replay::replay_folder(rt, args.as_slice()),
            )
        }
    }
}

// The exit status of a run, or of the fault that stopped it. If the run did not end, it also prints a line.
fn end(rt: &HostRuntime, program: ReportProgram, outcome: Result<RunOutcome, Fault<'_>>) -> u8
    ensures outcome { IfOk outcome.entry (λ run. result ≡ status_of_outcome run) }
    ensures fault { IfErr outcome.entry (λ fault. result ≡ status_of fault) }
{
    match outcome {
        Ok(outcome) => {
            if outcome == RunOutcome::NotEnded {
                print_error(rt, not_ended(program));
            }
            outcome.status()
        }
        Err(fault) => report_fault(rt, program, fault),
    }
}

fn not_ended(program: ReportProgram) -> &'static str {
    match program {
        ReportProgram::Report => "report: the run did not end",
        ReportProgram::Follow => "follow: the run did not end",
        ReportProgram::Replay => "replay: the run did not end",
    }
}
