//! The record of a finished test.

ghost use Rattle.{text_parts.specs.ResultWords.short_word, writers.specs.Writer.Puts};
ghost use Rattle.{store_text.specs.Netstring.netstring, store_text.specs.Record.record_text};

use crate::config::StoreConfig;
use crate::netstring::{write_joined_netstring, write_netstring};
use crate::stored_output::write_stored_output;
use itoa::Buffer;
use run_model::name::TestInstanceId;
use run_model::output::LiveSpec;
use run_model::status::{ExecutionResultDescription, ExecutionStatuses};
use text_parts::result_words::short_status_str;
use writers::write_str::{WriteFault, WriteStr};

/// Writes the record of a finished test: its binary's id, its name, the short word of its last result, and its output
/// if the store keeps it, each as a netstring, and a line feed. It allocates nothing.
///
/// ```
/// write_record(&mut out, store, test.as_ref(), &statuses)?;
/// assert_eq!(out.as_str(), "5:alpha,2:t1,4:PASS,0:,\n");
/// ```
///
/// # Errors
///
/// The writer's fault. It has accepted a prefix of the record.
#[tactic(auto, unfolding(crate::specs::Record::record_text))]
pub fn write_record<W: WriteStr>(
    w: &mut W,
    store: StoreConfig,
    test: TestInstanceId<'_>,
    statuses: &ExecutionStatuses<LiveSpec>,
) -> Result<(), WriteFault>
    ensures { Puts W.meaning w.old (record_text store test.entry statuses.now) result w.new }
{
    write_netstring(w, test.binary_id.as_str())?;
    write_netstring(w, test.test_name.as_str())?;
    write_outcome(w, &statuses.last_status().result)?;
    write_stored_output(w, store, statuses)?;
    w.write_str("\n")
}

fn write_outcome<W: WriteStr>(
    w: &mut W,
    outcome: &ExecutionResultDescription,
) -> Result<(), WriteFault>
    ensures { Puts W.meaning w.old (netstring (short_word outcome.now)) result w.new }
{
    let mut number = Buffer::new();
    let word = short_status_str(outcome, &mut number);
    write_joined_netstring(w, word.front, word.back)
}
