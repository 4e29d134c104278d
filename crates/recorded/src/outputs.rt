//! The outputs of a recorded run. A stream is loaded by its reference, and an output by its stored form. Only their
//! bytes are read, and these are never spelled as text.

ghost use Rattle.std.specs.Prelude.{◌≡◌, ◌≤◌, ◌↔◌, false, IsTrue, IfErr, IfOk, IfSome};
ghost use Rattle.std.specs.Prelude.{OnOk, if◌then◌else◌, is_ok, length};
ghost use Rattle.std.specs.Prelude.{vec_len};
ghost use Rattle.{std.specs.Option.ForSome, scene_fields.specs.References.end_of};
ghost use Rattle.recorded.specs.Names.{IsCaptured, IsCapturedStream, IsCountedOf, IsCountedOfStream, HasSum, IsCounted};
ghost use Rattle.recorded.specs.Names.{IsLoaded, counted, HasRead};

use super::read_at::ReadAt;
use bytes::Bytes;
use run_model::memory::OutOfMemory;
use run_model::output::{ChildOutputDescription, ChildSingleOutput};
use scene_fields::reference::Reference;
use scene_fields::stored::{StoredOutput, StoredStream, StreamField};
use std::alloc::Global;
use std::io;
use std::io::ErrorKind;
use thiserror::Error;

/// Why a stream was not loaded.
#[derive(Clone, Copy, Debug, PartialEq, Eq, Error)]
pub enum LoadFault {
    /// The outputs could not be read, with the system's error.
    #[error("the outputs cannot be read")]
    CannotRead(ErrorKind),
    /// Not all of its bytes are there.
    #[error("the output lies past the end")]
    PastEnd,
    /// The bytes at its place have a different sum.
    #[error("the output has another sum")]
    WrongSum,
    /// Memory was refused.
    #[error("out of memory")]
    OutOfMemory,
}

impl From<io::Error> for LoadFault {
    ghost use Rattle.std.specs.{Prelude.◌≡◌, IoError.error_kind};
    ghost use Rattle.recorded.specs.declared.outputs.LoadFault.{LoadFault};

    ghost from_gives = { λ error fault. fault ≡ LoadFault.CannotRead (error_kind error) };

    fn from(error: io::Error) -> LoadFault {
        LoadFault::CannotRead(error.kind())
    }
}

impl From<OutOfMemory> for LoadFault {
    ghost use Rattle.std.specs.Prelude.{◌≡◌};
    ghost use Rattle.recorded.specs.declared.outputs.LoadFault.{LoadFault};

    ghost from_gives = { λ _ fault. fault ≡ LoadFault.OutOfMemory };

    fn from(_refused: OutOfMemory) -> LoadFault {
        LoadFault::OutOfMemory
    }
}

/// Which stream of an output could not be loaded, and why.
#[derive(Clone, Copy, Debug, PartialEq, Eq, Error)]
#[error("{fault}")]
pub struct StreamFault {
    /// The stream.
    pub stream: StreamField,
    /// Why.
    pub fault: LoadFault,
}

/// The outputs of a recorded run.
#[derive(Drop)]
pub struct RecordedOutputs<O: ReadAt> {
    source: O,
    // The length when it was last requested.
    len: u64,
    ghost known: { ForSome (O.recorded source) (λ all. len ≡ length all) },
}

impl<O: ReadAt + Drop> RecordedOutputs<O> {
    /// The outputs in this source. It requests their length and reads nothing.
    ///
    /// # Errors
    ///
    /// The error of the request for the length. The source is dropped.
    pub fn new(mut source: O) -> io::Result<RecordedOutputs<O>>
        ensures recorded { IfOk result (λ outputs. O.recorded outputs.source ≡ O.recorded source) }
        ensures count { IfOk result (λ outputs. O.count outputs.source ≡ O.count source) }
    {
        let len = source.len()?;
        Ok(RecordedOutputs { source, len })
    }

    /// How many bytes of the source were read. The count saturates at `u64::MAX`.
    pub fn bytes_read(&self) -> u64
        ensures { result ≡ O.count self.now.source }
    {
        self.source.bytes_read()
    }

    /// Whether all bytes of a reference are there. It reads none of them. If they end beyond the known length, it
    /// requests the length again, since a run that is still being recorded writes more.
    ///
    /// # Errors
    ///
    /// The error of the request for the length.
    pub fn holds(&mut self, reference: &Reference) -> io::Result<bool>
        ensures holds { IfSome (O.recorded self.old.source)
            (λ all. IfOk result (λ holds. IsTrue holds ↔ (end_of reference.now ≤ length all))) }
        ensures asked { IfOk result (λ holds. holds ≡ false → O.asked self.old.source self.new.source) }
        ensures unasked { end_of reference.now ≤ self.old.len → self.new ≡ self.old }
        ensures failed { IfErr result (O.len_failed self.old.source) }
        ensures kept { O.recorded self.new.source ≡ O.recorded self.old.source }
        ensures count { O.count self.new.source ≡ O.count self.old.source }
    {
        if !reference.ends_within(self.len) {
            self.len = self.source.len()?;
        }
        Ok(reference.ends_within(self.len))
    }

    /// Reads the bytes of a reference, and no others, into memory of exactly their size, and checks their sum.
    ///
    /// ```
    /// use scene_fields::reference::read_reference;
    /// let reference = read_reference("\\@7:7:ee2a98c236301c76").ok_or("no reference")?;
    /// let mut outputs = RecordedOutputs::new(Metered::new(b"passed\nfailed\n".as_slice()))?;
    /// let stream = outputs.load(alloc, &reference)?;
    /// assert_eq!(stream.as_slice(), b"failed\n".as_slice());
    /// assert_eq!(outputs.bytes_read(), 7);
    /// ```
    ///
    /// # Errors
    ///
    /// Why the bytes were not loaded; see [`LoadFault`]. If they are not all there, no memory is requested.
    #[tactic(auto, using(crate::proofs::lemmas::Streams::not_there, crate::proofs::lemmas::Streams::same_read, crate::proofs::lemmas::Streams::other_read))]
    pub fn load(&mut self, alloc: Global, reference: &Reference) -> Result<Bytes, LoadFault>
        ensures loaded { IfSome (O.recorded self.old.source) (λ all. IsLoaded all reference.now result) }
        ensures sum { IfOk result (HasSum reference.now) }
        ensures kept { O.recorded self.new.source ≡ O.recorded self.old.source }
        ensures count { IsCounted (O.count self.old.source) reference.now result (O.count self.new.source) }
    {
        if !self.holds(reference)? {
            return Err(LoadFault::PastEnd);
        }
        let mut bytes = vec![in alloc; 0u8; reference.len].map_err(
            |_refused| LoadFault::OutOfMemory,
        )?;
        self.fill(reference.offset, &mut bytes)?;
        if !reference.has_sum_of(bytes.as_slice()) {
            return Err(LoadFault::WrongSum);
        }
        Ok(Bytes::from_vec(bytes).map_err(|_refused| LoadFault::OutOfMemory)?)
    }

    // Fills a vector with the bytes from this place on.
    fn fill(&mut self, offset: u64, bytes: &mut Vec<u8>) -> io::Result<()>
        ensures read { OnOk result (IfSome (O.recorded self.old.source) (HasRead offset bytes.new.items)) }
        ensures len { OnOk result (vec_len bytes.new ≡ vec_len bytes.old) }
        ensures kept { O.recorded self.new.source ≡ O.recorded self.old.source }
        ensures count { O.count self.new.source
            ≡ (if is_ok result then counted (O.count self.old.source) (vec_len bytes.old) else O.count
            self.old.source) }
    {
        self.source.read_at(offset, bytes.as_mut_slice())
    }

    /// Loads a stored output. It reads the bytes of its streams and no others, and allocates for these.
    ///
    /// ```
    /// use scene_fields::stored::StoredOutput;
    /// let reference = "\\@7:7:ee2a98c236301c76";
    /// let stored = StoredOutput::read("comb", reference, "-").ok_or("no output")?;
    /// let mut outputs = RecordedOutputs::new(Metered::new(b"passed\nfailed\n".as_slice()))?;
    /// assert!(outputs.load_output(alloc, &stored)?.is_loaded());
    /// assert_eq!(outputs.bytes_read(), 7);
    /// ```
    ///
    /// # Errors
    ///
    /// The first stream that was not loaded, and why. Standard output comes first.
    pub fn load_output(
        &mut self,
        alloc: Global,
        stored: &StoredOutput,
    ) -> Result<ChildOutputDescription, StreamFault>
        ensures loaded { IfSome (O.recorded self.old.source) (λ all. IsCaptured all stored.now result) }
        ensures kept { O.recorded self.new.source ≡ O.recorded self.old.source }
        ensures count { IsCountedOf (O.count self.old.source) stored.now result (O.count self.new.source) }
    {
        match stored {
            StoredOutput::Split { stdout, stderr } => {
                let stdout = self
                    .load_stream(alloc, stdout)
                    .map_err(|fault| StreamFault {
                        stream: StreamField::First,
                        fault,
                    })?;
                let stderr = self
                    .load_stream(alloc, stderr)
                    .map_err(|fault| StreamFault {
                        stream: StreamField::Second,
                        fault,
                    })?;
                Ok(ChildOutputDescription::Split { stdout, stderr })
            }
            StoredOutput::Combined { output } => {
                let output = self
                    .load_single(alloc, output)
                    .map_err(|fault| StreamFault {
                        stream: StreamField::First,
                        fault,
                    })?;
                Ok(ChildOutputDescription::Combined { output })
            }
        }
    }

    // Loads a stream, if it was captured.
    fn load_stream(
        &mut self,
        alloc: Global,
        stored: &StoredStream,
    ) -> Result<Option<ChildSingleOutput>, LoadFault>
        ensures loaded { IfSome (O.recorded self.old.source) (λ all. IsCapturedStream all stored.now result) }
        ensures kept { O.recorded self.new.source ≡ O.recorded self.old.source }
        ensures count { IsCountedOfStream (O.count self.old.source) stored.now result (O.count self.new.source) }
    {
        match stored {
            StoredStream::NotCaptured => Ok(None),
            StoredStream::Empty => Ok(Some(ChildSingleOutput::empty())),
            StoredStream::At(reference) => Ok(Some(self.load_single(alloc, reference)?)),
        }
    }

    // Loads the bytes that a reference names, as the output of one stream or of both together.
    fn load_single(
        &mut self,
        alloc: Global,
        reference: &Reference,
    ) -> Result<ChildSingleOutput, LoadFault>
        ensures loaded { IfSome (O.recorded self.old.source) (λ all. IsLoaded all reference.now result) }
        ensures kept { O.recorded self.new.source ≡ O.recorded self.old.source }
        ensures count { IsCounted (O.count self.old.source) reference.now result (O.count self.new.source) }
    {
        let bytes = self.load(alloc, reference)?;
        Ok(ChildSingleOutput::new(alloc, bytes)?)
    }
}
