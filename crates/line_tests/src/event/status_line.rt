//! The line of a finished test in the summary, with a bar in place of its counter: no scene leads to one.

use crate::testing::expect_text;
use report_text::helpers::DisplayCounterIndex;
use run_model::name::{RustBinaryId, TestCaseName, TestInstanceId};
use run_model::status::{
    ExecutionResultDescription, FlakyResult, RetryData, StatusCase, StatusSummary,
};
use run_model::stress::StressIndex;
use run_model::time::Nanos;
use std::test::Fail;
use styled_text::style::Styles;
use test_text::status_line::{StatusLine, StatusLineKind, write_status_line};
use text_parts::instance::CountedInstance;

// A success at the second of two attempts, which took two seconds.
fn flaky() -> StatusSummary {
    StatusSummary {
        case: StatusCase::Flaky {
            result: FlakyResult::Pass,
        },
        retry_data: RetryData {
            attempt: 2,
            total_attempts: 2,
        },
        result: ExecutionResultDescription::Pass,
        time_taken: Nanos(2_000_000_000),
        is_slow: false,
    }
}

#[test]
fn an_iteration_comes_before_a_bar(rt: HostRuntime) -> Result<(), Fail> {
    let alloc = rt.alloc();
    let binary_id = RustBinaryId::new(alloc, "my-binary-id")?;
    let test_name = TestCaseName::new(alloc, "test1")?;
    let instance = TestInstanceId {
        binary_id: &binary_id,
        test_name: &test_name,
    };
    let endless = StressIndex {
        current: 1,
        total: None,
    };
    let test = CountedInstance {
        stress_index: Some(endless),
        counter: Some(DisplayCounterIndex::new_padded('\u{2500}', 4)),
        instance,
    };
    let summary = flaky();
    let line = StatusLine::of_summary(&summary);
    let mut text = String::new(alloc);
    write_status_line(
        &mut text,
        &Styles::default(),
        StatusLineKind::Final,
        &test,
        line,
    )?;
    expect_text(
        &rt,
        text.as_str(),
        "   FLAKY 2/2 [   2.000s] [2] \
         (\u{2500}\u{2500}\u{2500}\u{2500}\u{2500}\u{2500}\u{2500}\u{2500}\u{2500}) my-binary-id test1\n",
    );
    Ok(())
}
