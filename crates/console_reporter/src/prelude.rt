//! What most callers need of this crate and of those below, in one module.
//!
//! ```
//! use console_reporter::prelude::*;
//! let passed = ExecutionStatuses::single(alloc, ExecuteStatus::passed(Nanos::from_millis(20)));
//! assert!(passed.last_status().result.is_success());
//! ```
//!
//! The other types of events are in [`crate::model`], the crate `run_model`.

pub use crate::error::ReportError;
pub use crate::imp::{
    ConsoleReporter, DisplayReporter, DisplayReporterBuilder, DisplayerKind, OutputLoadDecider,
    ReportCall, RunFault, StoreConfig, Surroundings, WriteEventError, first_refused, run_report,
    run_report_with_store, unload_skipped,
};
pub use bytes::Bytes;
pub use run_model::abort::{AbortDescription, DescriptionText};
pub use run_model::boxed::Boxed;
pub use run_model::command::CommandLine;
pub use run_model::config::{NextestRunMode, TestOutputDisplay};
pub use run_model::event::{SkipCounts, TestCounts, TestEvent, TestEventKind};
pub use run_model::level::{CancelReason, FinalStatusLevel, StatusLevel};
pub use run_model::memory::OutOfMemory;
pub use run_model::name::{
    OwnedTestInstanceId, ProfileName, RustBinaryId, TestCaseName, TestInstanceId,
};
pub use run_model::output::{ChildOutputDescription, ErrorChain, LiveSpec};
pub use run_model::output_event::LoadOutput;
pub use run_model::stats::RunStats;
pub use run_model::status::{
    ExecuteStatus, ExecutionResultDescription, ExecutionStatuses, FailureDescription, FlakyResult,
    LeakTimeoutResult, RetryData, SlowTimeoutResult,
};
pub use run_model::time::Nanos;
pub use styled_text::indenter::indented;
pub use unit_report::config::{DisplayConfig, ShowProgress};
pub use uuid::Uuid;
pub use writers::write_str::{RetryInterrupted, TextBuffer, WriteStr};
