//! The note of outstanding tests that were not seen, with a count of 0: in a scene, 0 means that there is no note.

use crate::testing::{expect_text, settings};
use run_model::not_seen::{NotSeen, TestInstanceList};
use run_text::not_seen::write_not_seen;
use std::test::Fail;

#[test]
fn a_note_of_no_test_is_not_written(rt: HostRuntime) -> Result<(), Fail> {
    let alloc = rt.alloc();
    let outstanding = Some(NotSeen {
        not_seen: TestInstanceList::new(alloc, Vec::new(alloc))?,
        total_not_seen: 0,
    });
    let mut text = String::new(alloc);
    write_not_seen(&mut text, &settings(alloc, false)?, &outstanding)?;
    expect_text(&rt, text.as_str(), "");
    Ok(())
}
