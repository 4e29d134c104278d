//! The output that a store keeps: the decoded text, with its escape sequences.

ghost use Rattle.std.specs.Prelude.{◌≡◌, ◌++◌};
ghost use Rattle.{writers.specs.Writer.Puts, store_text.specs.Netstring.netstring};
ghost use Rattle.store_text.specs.StoredOutput.{captured_text, stored_output, stored_stream, written_text};

use crate::config::StoreConfig;
use crate::netstring::write_joined_netstring;
use run_model::output::{
    ChildExecutionOutputDescription, ChildOutputDescription, ChildSingleOutput, LiveSpec,
};
use run_model::status::ExecutionStatuses;
use writers::write_str::{WriteFault, WriteStr};

/// Writes the output that the store keeps of a test as a netstring: that of the last attempt, if the store keeps it,
/// standard output and then standard error, or both streams as they came. It allocates nothing.
///
/// ```
/// let (stdout, stderr) = (Bytes::from_static("é\n".as_bytes()), Bytes::from_static(b"x"));
/// let output = ChildOutputDescription::split(alloc, stdout, stderr)?;
/// let failed = ExecutionStatuses::single(alloc, ExecuteStatus::failed(1, time).with_output(output));
/// write_stored_output(&mut out, store, &failed)?;
/// assert_eq!(out.as_str(), "4:é\nx,");
/// ```
///
/// # Errors
///
/// The writer's fault. It has accepted a prefix of the text.
pub fn write_stored_output<W: WriteStr>(
    w: &mut W,
    store: StoreConfig,
    statuses: &ExecutionStatuses<LiveSpec>,
) -> Result<(), WriteFault>
    ensures { Puts W.meaning w.old (netstring (stored_output store statuses.now)) result w.new }
{
    let (front, back) = stored_texts(store, statuses);
    write_joined_netstring(w, front, back)
}

// The output that the store keeps, in two parts.
#[tactic(auto, unfolding(crate::specs::StoredOutput::stored_output))]
fn stored_texts(store: StoreConfig, statuses: &ExecutionStatuses<LiveSpec>) -> (&str, &str)
    ensures { result.0.now ++ result.1.now ≡ stored_output store statuses.now }
{
    if store.stores_output(statuses.describe().is_success_for_output()) {
        written_texts(&statuses.last_status().output)
    } else {
        ("", "")
    }
}

// A process that could not be started wrote nothing.
fn written_texts(output: &ChildExecutionOutputDescription<LiveSpec>) -> (&str, &str)
    ensures { result.0.now ++ result.1.now ≡ written_text output.now }
{
    match output {
        ChildExecutionOutputDescription::Output { output, .. } => captured_texts(output),
        ChildExecutionOutputDescription::StartError(_) => ("", ""),
    }
}

fn captured_texts(output: &ChildOutputDescription) -> (&str, &str)
    ensures { result.0.now ++ result.1.now ≡ captured_text output.now }
{
    match output {
        ChildOutputDescription::Split { stdout, stderr } => (text_of(stdout), text_of(stderr)),
        ChildOutputDescription::Combined { output } => (output.as_str(), ""),
        ChildOutputDescription::NotLoaded => ("", ""),
    }
}

fn text_of(stream: &Option<ChildSingleOutput>) -> &str
    ensures { result.now ≡ stored_stream stream.now }
{
    match stream {
        Some(stream) => stream.as_str(),
        None => "",
    }
}
