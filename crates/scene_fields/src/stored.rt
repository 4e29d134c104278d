//! The stored outputs of a recorded run, as the fields of a line spell them, and their positions in that line.

ghost use Rattle.std.specs.Prelude.{◌≡◌};
ghost use Rattle.scene_fields.specs.Stored.{field_of, is_reference, stored_output_in, stored_stream_in};
ghost use Rattle.scene_fields.specs.Stored.{stream_in_field};

use super::reference::{Reference, read_reference};

/// A stream of an output in a recorded run.
#[derive(Clone, Copy, Debug, PartialEq, Eq)]
pub enum StoredStream {
    /// It was not captured.
    NotCaptured,
    /// It was captured and is empty.
    Empty,
    /// Its bytes are in the file of outputs.
    At(Reference),
}

/// An output of a recorded run, with at least one stream in the file of outputs.
#[derive(Clone, Copy, Debug, PartialEq, Eq)]
pub enum StoredOutput {
    /// Standard output and standard error, each by itself.
    Split {
        /// Standard output.
        stdout: StoredStream,
        /// Standard error.
        stderr: StoredStream,
    },
    /// Both streams together, in the order in which they were written.
    Combined {
        /// The bytes of both.
        output: Reference,
    },
}

/// One of the two fields of an output that hold its streams.
#[derive(Clone, Copy, Debug, PartialEq, Eq)]
pub enum StreamField {
    /// Standard output, or both streams together.
    First,
    /// Standard error.
    Second,
}

/// A stored output, and its position in its line.
#[derive(Clone, Copy)]
pub struct PlacedOutput {
    /// The index of its attempt, from 0. The only output of an event has the index 0.
    pub place: usize,
    /// The number of the field of its first stream, from 1 for the event's name.
    pub field: usize,
    /// What is stored.
    pub output: StoredOutput,
}

impl StoredStream {
    // Reads the field of a stream that is stored, empty or not captured.
    fn read(field: &str) -> Option<StoredStream>
        ensures { result ≡ stored_stream_in field.now }
    {
        match field {
            "" => Some(StoredStream::Empty),
            "-" => Some(StoredStream::NotCaptured),
            _ => Some(StoredStream::At(read_reference(field)?)),
        }
    }

    // Whether its bytes are in the file of outputs.
    fn is_reference(&self) -> bool
        ensures { result ≡ is_reference self.now }
    {
        matches!(self, StoredStream::At(_))
    }
}

impl StoredOutput {
    /// Reads an output from the fields of its form and of its streams. `None` means that none of it is stored.
    ///
    /// ```
    /// assert_eq!(StoredOutput::read("split", "it failed", ""), None);
    /// ```
    pub fn read(form: &str, first: &str, second: &str) -> Option<StoredOutput>
        ensures { result ≡ stored_output_in form.now first.now second.now }
    {
        match form {
            "split" => {
                let stdout = StoredStream::read(first)?;
                let stderr = StoredStream::read(second)?;
                if !stdout.is_reference() && !stderr.is_reference() {
                    return None;
                }
                Some(StoredOutput::Split { stdout, stderr })
            }
            "comb" => {
                if second != "-" {
                    return None;
                }
                let output = read_reference(first)?;
                Some(StoredOutput::Combined { output })
            }
            _ => None,
        }
    }

    /// The stream in one of its two fields. Streams that were captured together are in the first.
    ///
    /// ```
    /// let stored = StoredOutput::read("comb", "\\@7:7:ee2a98c236301c76", "-").ok_or("no output")?;
    /// assert_eq!(stored.stream(StreamField::Second), StoredStream::NotCaptured);
    /// ```
    pub fn stream(&self, field: StreamField) -> StoredStream
        ensures { result ≡ stream_in_field field self.now }
    {
        match (field, self) {
            (StreamField::First, StoredOutput::Split { stdout, .. }) => *stdout,
            (StreamField::Second, StoredOutput::Split { stderr, .. }) => *stderr,
            (StreamField::First, StoredOutput::Combined { output }) => StoredStream::At(*output),
            (StreamField::Second, StoredOutput::Combined { .. }) => StoredStream::NotCaptured,
        }
    }
}

impl PlacedOutput {
    /// The number of the field of one of its streams, counted from 1 for the event's name. It stops at `usize::MAX`.
    pub fn field_of(&self, stream: StreamField) -> usize
        ensures { result ≡ field_of self.now stream }
    {
        match stream {
            StreamField::First => self.field,
            StreamField::Second => self.field.saturating_add(1),
        }
    }
}
