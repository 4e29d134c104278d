//! The program `report`: it reads a scene, which is a run written as text, and prints nextest's console report of it.
//!
//! With `--store PATH` it writes a record of each finished test to that file. What goes wrong is one line on standard
//! error and the status, and standard output stays empty unless the whole scene was accepted and PATH was created or
//! emptied.
#![tactic(auto)]

use command_line::fault::ReportProgram;
use scene_follower::process::{arguments, fill_standard_descriptors, report_fault};
use scenes::process::report_file;
use std::process::ExitCode;

fn main(rt: HostRuntime) -> ExitCode {
    fill_standard_descriptors(&rt);
    let status = match arguments(&rt) {
        Ok(args) => match report_file(&rt, args.as_slice()) {
            Ok(()) => 0,
            Err(fault) => report_fault(&rt, ReportProgram::Report, fault),
        },
        Err(fault) => report_fault(&rt, ReportProgram::Report, fault),
    };
    ExitCode::from(status)
}
