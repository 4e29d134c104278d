//! The line of a unit that waits for its next attempt, without the number of the attempt, which the response of a test
//! shows.

use crate::testing::{expect_text, settings};
use info_text::state::{InfoUnit, write_state};
use run_model::config::NextestRunMode;
use run_model::info::UnitState;
use run_model::status::ExecutionResultDescription;
use run_model::time::Nanos;
use run_model::unit::UnitKind;
use std::test::Fail;

#[test]
fn the_style_of_a_delay_goes_by_its_own_flag(rt: HostRuntime) -> Result<(), Fail> {
    let alloc = rt.alloc();
    let mut settings = settings(alloc, true)?;
    settings.mode = NextestRunMode::Benchmark;
    for (previous_slow, style) in [(false, "\x1b[32;1m"), (true, "\x1b[33;1m")] {
        let unit = InfoUnit {
            kind: UnitKind::Test,
            attempt: None,
            has_errors: false,
        };
        let state = UnitState::DelayBeforeNextAttempt {
            previous_result: ExecutionResultDescription::Pass,
            previous_slow,
            waiting_duration: Nanos(200_000_000),
            remaining: Nanos(800_000_000),
        };
        let mut text = String::new(alloc);
        write_state(&mut text, &settings, unit, &state)?;
        let want = format!(in alloc;
            "\x1b[1mstatus\x1b[0m: benchmark {style}passed\x1b[0m, currently \x1b[1mwaiting\x1b[0m before next attempt
\x1b[1mnote\x1b[0m:   waited 0.200s so far, will wait another 0.800s before retrying benchmark
"
        )?;
        expect_text(&rt, text.as_str(), want.as_str());
    }
    Ok(())
}
