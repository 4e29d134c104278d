//! The header of a replay, with a fraction of a second, which a header of a scene never has.

use crate::testing::expect_text;
use jiff::civil::DateTime;
use run_model::abort::DescriptionText;
use run_model::replay::ReplayHeader;
use run_text::header::write_replay_header;
use std::test::Fail;
use styled_text::style::Styles;
use uuid::Uuid;

#[test]
fn a_second_that_is_nearly_over_is_not_rounded_up(rt: HostRuntime) -> Result<(), Fail> {
    let alloc = rt.alloc();
    let header = ReplayHeader {
        run_id: Uuid::from_u128(1),
        unique_prefix: None,
        started_at: DateTime::new(2024, 12, 31, 23, 59, 59, 999_999_999)?,
        status: DescriptionText::new(alloc, "ok")?,
    };
    let mut text = String::new(alloc);
    write_replay_header(&mut text, &Styles::default(), &header)?;
    let want = "   Replaying recorded run 00000000-0000-0000-0000-000000000001
     Started 2024-12-31 23:59:59  status: ok
";
    expect_text(&rt, text.as_str(), want);
    Ok(())
}
