//! The line below the line of a test that was aborted, for a Windows status without a message: in a scene it always has
//! one.

use crate::testing::expect_text;
use report_text::helpers::display_abort_status;
use run_model::abort::AbortDescription;
use run_model::boxed::Boxed;
use run_model::status::{ExecutionResultDescription, FailureDescription};
use std::test::Fail;
use styled_text::style::Styles;
use text_parts::abort_line::write_abort_line;

#[test]
fn a_status_may_have_no_message(rt: HostRuntime) -> Result<(), Fail> {
    let alloc = rt.alloc();
    let abort = AbortDescription::WindowsNtStatus {
        code: -1_073_741_510,
        message: None,
    };
    let status = display_abort_status(alloc, &abort)?;
    expect_text(&rt, status.as_str(), "aborted with code 0xc000013a");
    let outcome = ExecutionResultDescription::Fail {
        failure: FailureDescription::Abort {
            abort: Boxed::new(alloc, abort)?,
        },
        leaked: false,
    };
    let mut text = String::new(alloc);
    write_abort_line(&mut text, &Styles::default(), &outcome)?;
    expect_text(&rt, text.as_str(), "           - with code 0xc000013a\n");
    Ok(())
}
