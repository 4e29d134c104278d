//! The devices of a report, each behind a buffer: one for the text, and one for the records if the options ask for
//! them.

ghost use Rattle.std.specs.Prelude.{◌≡◌, [], IfErr, IfOk};
ghost use Rattle.scene_follower.specs.Devices.{IsRecordDevice};

use command_line::args::Options;
use console_reporter::write_str::TextBuffer;
use std::alloc::{AllocError, Global};
use std::io::Write;
use store_text::config::StoreConfig;

/// The device that records go to.
pub(crate) enum RecordDevice<S: Write> {
    /// No records are asked for: the device without a buffer.
    Unused(S),
    /// The device behind a buffer, and which outputs the records hold.
    Buffered(TextBuffer<S>, StoreConfig),
}

/// Puts a buffer before the device of a report, and before that of its records where the options ask for these. Where
/// memory is refused it gives both devices back as they were.
pub(crate) fn buffered<W: Write, S: Write>(
    alloc: Global,
    options: &Options<'_>,
    writer: W,
    store_writer: S,
) -> Result<(TextBuffer<W>, RecordDevice<S>), (W, S)>
    ensures ok { IfOk result
        (λ devices. (devices.0.writer ≡ writer) × (devices.0.pending ≡ [])
        × IsRecordDevice options.now store_writer devices.1) }
    ensures err { IfErr result (λ refused. refused ≡ (writer, store_writer)) }
{
    let out = match TextBuffer::new(alloc, writer) {
        Ok(out) => out,
        Err((AllocError, writer)) => return Err((writer, store_writer)),
    };
    let Some(store) = options.store else {
        return Ok((out, RecordDevice::Unused(store_writer)));
    };
    match TextBuffer::new(alloc, store_writer) {
        Ok(records) => Ok((out, RecordDevice::Buffered(records, store.config))),
        Err((AllocError, store_writer)) => {
            let (writer, _pending) = out.into_inner();
            Err((writer, store_writer))
        }
    }
}
