//! The reporter: what it is built from, its calls, and the run of a list of calls.
//!
//! - `builder`: the configuration. A call is `run_model::call::ReportCall`.
//! - `reporter`: the calls, and `run`: a whole list of them.
//! - `event_text`: the text of an event, by functions of the crates `test_text`, `run_text` and `info_text`.
//! - `store`: where records go. The crate `store_text` writes them.
//! - `unload`: leaves out the outputs that a replay need not load.
//!
//! What is known of the calls before, and what is decided about the next one, is in the crate `reporter_state`.
//!
//! ```
//! run_report(alloc, builder, &mut out, true, false, false, false, &calls)?;
//! assert!(out.as_str().starts_with("        PASS [   0.020s] (1/1) alpha t1\n"));
//! ```

mod builder;
mod event_text;
mod reporter;
mod run;
mod store;
mod unload;

pub use builder::{DisplayReporterBuilder, Surroundings};
pub use reporter::{ConsoleReporter, DisplayReporter};
pub use reporter_state::decider::{OutputLoadDecider, first_refused};
pub use reporter_state::faults::{RunFault, WriteEventError};
pub use run::{give_back, run_report, run_report_with_store};
pub use run_model::call::ReportCall;
pub use store::Store;
pub use store_text::config::StoreConfig;
pub use unit_report::unit_output::DisplayerKind;
pub use unload::unload_skipped;
