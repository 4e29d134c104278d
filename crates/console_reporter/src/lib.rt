//! The console report of a test run.
//!
//! A reporter gets the events of a run, in order, and writes a text for each, which depends on the event, the
//! configuration and the calls before. See [`imp::run_report`].
//!
//! # The way of an event
//!
//! A call of `write_event` passes these crates:
//!
//! 1. `reporter_state`: the decider says from the event's metadata whether it is refused, which changes nothing.
//! 2. `console_reporter`: `imp::event_text` picks the function that writes the text. Those of tests are in
//!    `test_text`, of a run and of its setup scripts in `run_text`, of responses of units in `info_text`.
//! 3. All of these use `text_parts` for what several events have in common, `unit_report` for captured output,
//!    `report_text` and `report_words` for names, counters and words, and `styled_text` for styles, numbers and cut
//!    lines.
//! 4. `writers`: the `TextBuffer` gathers the text and delivers it.
//! 5. `reporter_state`: keeps the entry that a later summary lists.
//! 6. `store_text`: writes the record of a finished test, if there is a store, and delivers it.
//!
//! A line of a scene passes others before that:
//!
//! 1. `command_line`: takes the next whole lines of the file.
//! 2. `scene_reader`: reads the line into a call of the reporter, field by field with `scene_fields`.
//! 3. `scene_follower`, `SceneReporter`: makes the call. `report` gathers its text until all lines are accepted.
#![tactic(auto)]

pub mod error;
pub mod imp;
pub mod laws;
pub mod prelude;

pub use report_text::helpers;
pub use run_model as model;
pub use styled_text::{escapes, indenter, reporter_helpers, style, write_str};
pub use unit_report::{config, formatters, unit_output};
