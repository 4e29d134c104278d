//! How an attempt ended, as shown after its output: a signal with a name, of a process that left handles open. No scene
//! can spell that.

ghost use Rattle.std.specs.Prelude.{◌≡◌, IfOk, true};
ghost use Rattle.run_model.specs.Outputs.{has_loaded_output};

use crate::testing::{expect_text, settings};
use bytes::Bytes;
use run_model::abort::{AbortDescription, DescriptionText};
use run_model::boxed::Boxed;
use run_model::output::{
    ChildExecutionOutputDescription, ChildOutputDescription, ChildSingleOutput, LiveSpec,
};
use run_model::status::{ExecutionResultDescription, FailureDescription};
use std::alloc::Global;
use std::test::Fail;
use text_parts::attempt_output::write_test_execute_status;

// A process that wrote a line on both streams together.
fn written(alloc: Global) -> Result<ChildExecutionOutputDescription<LiveSpec>, Fail>
    ensures { IfOk result (λ output. has_loaded_output output ≡ true) }
{
    Ok(ChildExecutionOutputDescription::Output {
        result: None,
        output: ChildOutputDescription::Combined {
            output: ChildSingleOutput::new(alloc, Bytes::from_static(b"boom\n"))?,
        },
        errors: None,
        highlight: None,
    })
}

#[test]
fn a_signal_has_its_name_and_its_leak(rt: HostRuntime) -> Result<(), Fail> {
    let alloc = rt.alloc();
    let mut settings = settings(alloc, false)?;
    settings.no_output_indent = true;
    let abort = AbortDescription::UnixSignal {
        signal: 9,
        name: Some(DescriptionText::new(alloc, "KILL")?),
    };
    let outcome = ExecutionResultDescription::Fail {
        failure: FailureDescription::Abort {
            abort: Boxed::new(alloc, abort)?,
        },
        leaked: true,
    };
    let mut text = String::new(alloc);
    write_test_execute_status(&mut text, &settings, false, &outcome, &written(alloc)?)?;
    expect_text(
        &rt,
        text.as_str(),
        "-- output --\nboom\n\n    (test aborted with signal 9: SIGKILL (leaked handles))\n\n",
    );
    Ok(())
}
