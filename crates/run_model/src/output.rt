//! What a test or a setup script wrote, as it was captured, and what went wrong with it.

ghost use Rattle.std.specs.Prelude.{◌≡◌, [], length, ◌==◌, is_ok, true, IfOk, IsOk};
ghost use Rattle.{std.specs.Cow.cow_str_bytes, std.specs.Cow.IsOwnedStr};
ghost use Rattle.{std.specs.Str.encode_utf8_all, bstr.specs.Utf8.lossy_chars};
ghost use Rattle.run_model.specs.Names.{execution_with_output, silent_execution, decoded_text};
ghost use Rattle.run_model.specs.Names.{subslice_value, stdout_slice, stderr_slice, combined_slice, has_errors};
ghost use Rattle.run_model.specs.Names.{has_loaded_output};
ghost use Rattle.run_model.specs.Names.{is_loaded, recorded_execution, recorded_member, recorded_output};
ghost use Rattle.run_model.specs.Names.{unloaded_output};

use crate::decode::push_lossy;
use crate::status::ExecutionResultDescription;
use bytes::{ByteStr, Bytes};
use run_names::abort::DescriptionText;
use run_names::boxed::Boxed;
use run_names::memory::{OutOfMemory, TooManyOwners};
use std::alloc::Global;
use std::borrow::CowStr;
use std::fmt;
use std::marker::Model;
use std::sync::Arc;

/// Where captured output is held: in memory, or by name in the archive of a recorded run.
pub trait OutputSpec {
    /// The captured output of a child process.
    type ChildOutput: fmt::Debug + Drop;
}

/// Output of a live run, held in memory.
#[derive(Clone, Copy, Debug, PartialEq, Eq)]
pub struct LiveSpec;

impl OutputSpec for LiveSpec {
    type ChildOutput = ChildOutputDescription;
}

/// Output of a recorded run, held by name in its archive.
#[derive(Clone, Copy, Debug, PartialEq, Eq)]
pub struct RecordingSpec;

impl OutputSpec for RecordingSpec {
    type ChildOutput = RecordedOutput;
}

/// The bytes of one stream, or of several that were captured together. Contracts see the bytes.
///
/// An empty stream, as most are, holds no memory. Any other is decoded once, when it is made, and its copies share its
/// memory.
///
/// ```
/// let output = ChildSingleOutput::new(alloc, Bytes::from_static(b"a\xffb"))?;
/// assert_eq!(output.as_str(), "a\u{fffd}b");
/// assert_eq!(output.as_bytes(), b"a\xffb".as_slice());
/// ```
#[derive(Debug, Drop)]
pub struct ChildSingleOutput {
    captured: Captured,
}

#[derive(Debug, Drop)]
enum Captured {
    Nothing,
    // UTF-8 from `from_vec`. It takes less memory than `Shared`.
    Text(Arc<String>),
    Shared(Arc<CapturedText>),
}

// The text, and the bytes if they are not UTF-8.
#[derive(Debug, Drop)]
struct CapturedText {
    text: ByteStr,
    other_bytes: Option<Box<Bytes>>,
}

impl Model for CapturedText {
    ghost use Rattle.std.specs.Prelude.{List, ℕ, ◌≡◌};
    ghost use Rattle.{std.specs.Option.option_map_or, run_model.specs.Decoded.decoded_text};

    ghost Value = { List ℕ };

    ghost view = { λ c. option_map_or (λ b. b.value) c.other_bytes c.text };

    ghost invariant = { λ c. c.text ≡ decoded_text (option_map_or (λ b. b.value) c.other_bytes c.text) };
}

impl CapturedText {
    #[tactic(auto, using(crate::proofs::lemmas::Decoded::decoded_laws))]
    fn new(alloc: Global, bytes: Bytes) -> Result<CapturedText, OutOfMemory>
        ensures { IfOk result (λ c. c ≡ bytes) }
    {
        match ByteStr::from_utf8(bytes) {
            Ok(text) => Ok(CapturedText {
                text,
                other_bytes: None,
            }),
            Err(error) => CapturedText::decode(alloc, error.bytes),
        }
    }

    // For bytes that are not UTF-8.
    #[tactic(auto, unfolding(crate::specs::Decoded::decoded_text))]
    fn decode(alloc: Global, bytes: Bytes) -> Result<CapturedText, OutOfMemory>
        ensures { IfOk result (λ c. c ≡ bytes) }
    {
        let mut text = String::new(alloc);
        push_lossy(bytes.as_slice(), &mut text)?;
        Ok(CapturedText {
            text: ByteStr::from_string(text)?,
            other_bytes: Some(Box::new(alloc, bytes)?),
        })
    }

    fn as_bytes(&self) -> &[u8]
        ensures { result.now ≡ self.now }
    {
        match &self.other_bytes {
            Some(bytes) => bytes.as_slice(),
            None => self.text.as_str().as_bytes(),
        }
    }

    fn as_str(&self) -> &str
        ensures { result.now ≡ decoded_text self.now }
    {
        self.text.as_str()
    }
}

impl Model for ChildSingleOutput {
    ghost use Rattle.{std.specs.Prelude.List, std.specs.Prelude.ℕ, run_model.specs.Captured.captured_bytes};

    ghost Value = { List ℕ };

    ghost view = { λ output. captured_bytes output.captured };
}

impl ChildSingleOutput {
    /// The output with these bytes. It allocates unless there are none.
    ///
    /// # Errors
    ///
    /// Memory was refused. Without bytes there is no error.
    pub fn new(alloc: Global, bytes: Bytes) -> Result<Self, OutOfMemory>
        ensures bytes { IfOk result (λ output. output ≡ bytes) }
        ensures free { bytes ≡ [] → IsOk result }
    {
        if bytes.is_empty() {
            return Ok(ChildSingleOutput::empty());
        }
        let text = CapturedText::new(alloc, bytes)?;
        Ok(ChildSingleOutput {
            captured: Captured::Shared(Arc::new(alloc, text)?),
        })
    }

    /// Like [`new`](Self::new), from bytes that nothing else shares. UTF-8 takes less memory this way.
    ///
    /// ```
    /// let output = ChildSingleOutput::from_vec(alloc, Vec::from_slice(alloc, b"a\xffb")?)?;
    /// assert_eq!(output.as_str(), "a\u{fffd}b");
    /// ```
    ///
    /// # Errors
    ///
    /// Memory was refused. The bytes are dropped.
    pub fn from_vec(alloc: Global, bytes: Vec<u8>) -> Result<Self, OutOfMemory>
        ensures { IfOk result (λ output. output ≡ bytes.items) }
    {
        let captured = match String::from_utf8(bytes) {
            Ok(text) => Captured::Text(Arc::new(alloc, text)?),
            Err(error) => {
                // A block of bytes may be four times as large as the bytes in it.
                let mut bytes = error.into_bytes();
                bytes.shrink_to_fit();
                let text = CapturedText::decode(alloc, Bytes::from_vec(bytes)?)?;
                Captured::Shared(Arc::new(alloc, text)?)
            }
        };
        Ok(ChildSingleOutput { captured })
    }

    /// The output of no bytes.
    ///
    /// ```
    /// assert!(ChildSingleOutput::empty().is_empty());
    /// ```
    pub fn empty() -> Self
        ensures { result ≡ [] }
    {
        ChildSingleOutput {
            captured: Captured::Nothing,
        }
    }

    /// The bytes.
    pub fn as_bytes(&self) -> &[u8]
        ensures { result.now ≡ self.now }
    {
        match &self.captured {
            Captured::Nothing => &[],
            Captured::Text(text) => text.as_str().as_bytes(),
            Captured::Shared(captured) => captured.as_bytes(),
        }
    }

    /// Whether there are no bytes.
    pub fn is_empty(&self) -> bool
        ensures { result ≡ (length self.now == 0) }
    {
        self.as_bytes().is_empty()
    }

    /// The text of the bytes, with U+FFFD in place of what is not UTF-8.
    #[tactic(auto, using(crate::proofs::lemmas::Decoded::decoded_laws))]
    pub fn as_str(&self) -> &str
        ensures { result.now ≡ decoded_text self.now }
    {
        match &self.captured {
            Captured::Nothing => "",
            Captured::Text(text) => text.as_str(),
            Captured::Shared(captured) => captured.as_str(),
        }
    }

    /// [`as_str`](Self::as_str) by nextest's name. nextest decodes at each call; this text is borrowed.
    ///
    /// # Errors
    ///
    /// There is none: the text is borrowed.
    #[tactic(auto, unfolding(crate::specs::Decoded::decoded_text))]
    pub fn as_str_lossy(&self, _alloc: Global) -> Result<CowStr<'_, Global>, OutOfMemory>
        ensures text { IfOk result (λ t. cow_str_bytes t ≡ encode_utf8_all (lossy_chars self.now)) }
        ensures borrowed { (is_ok result ≡ true) × IfOk result (λ t. IsOwnedStr t → ⊥) }
    {
        Ok(CowStr::Borrowed(self.as_str()))
    }

    /// A copy that shares the same bytes. It allocates nothing.
    ///
    /// # Errors
    ///
    /// The shared bytes have as many owners as their counter can hold.
    pub fn try_clone(&self) -> Result<Self, TooManyOwners>
        ensures { IfOk result (λ output. output ≡ self.now) }
    {
        let captured = match &self.captured {
            Captured::Nothing => Captured::Nothing,
            Captured::Text(text) => Captured::Text(Arc::try_clone(text)?),
            Captured::Shared(captured) => Captured::Shared(Arc::try_clone(captured)?),
        };
        Ok(ChildSingleOutput { captured })
    }
}

/// What a process wrote, as it was captured.
///
/// ```
/// let stdout = Some(ChildSingleOutput::from_vec(alloc, Vec::from_slice(alloc, b"done\n")?)?);
/// let output = ChildOutputDescription::Split { stdout, stderr: None };
/// assert!(output.is_loaded());
/// ```
#[derive(Debug, Drop)]
pub enum ChildOutputDescription {
    /// Standard output and standard error, each by itself.
    Split {
        /// Standard output, if it was captured.
        stdout: Option<ChildSingleOutput>,
        /// Standard error, if it was captured.
        stderr: Option<ChildSingleOutput>,
    },
    /// Both streams together, in the order in which they were written.
    Combined {
        /// Their bytes.
        output: ChildSingleOutput,
    },
    /// Not loaded, because no report shows it.
    NotLoaded,
}

impl ChildOutputDescription {
    /// The output of two streams that were captured separately. It allocates unless both are empty.
    ///
    /// ```
    /// let stderr = Bytes::from_static(b"no such file\n");
    /// let output = ChildOutputDescription::split(alloc, Bytes::new(), stderr)?;
    /// assert!(output.is_loaded());
    /// ```
    ///
    /// # Errors
    ///
    /// Memory was refused. Where both streams are empty there is no error.
    pub fn split(alloc: Global, stdout: Bytes, stderr: Bytes) -> Result<Self, OutOfMemory>
        ensures streams { IfOk result (λ output. output ≡ ChildOutputDescription.Split (Some stdout) (Some stderr)) }
        ensures free { stdout ≡ [] → stderr ≡ [] → IsOk result }
    {
        Ok(ChildOutputDescription::Split {
            stdout: Some(ChildSingleOutput::new(alloc, stdout)?),
            stderr: Some(ChildSingleOutput::new(alloc, stderr)?),
        })
    }

    /// The output of both streams captured together. It allocates unless that is empty.
    ///
    /// ```
    /// let output = ChildOutputDescription::combined(alloc, Bytes::from_static(b"both streams\n"))?;
    /// assert!(output.is_loaded());
    /// ```
    ///
    /// # Errors
    ///
    /// Memory was refused. Without bytes there is no error.
    pub fn combined(alloc: Global, output: Bytes) -> Result<Self, OutOfMemory>
        ensures streams { IfOk result (λ captured. captured ≡ ChildOutputDescription.Combined output) }
        ensures free { output ≡ [] → IsOk result }
    {
        Ok(ChildOutputDescription::Combined {
            output: ChildSingleOutput::new(alloc, output)?,
        })
    }

    /// Whether the output is loaded: it is not `NotLoaded`.
    ///
    /// ```
    /// assert!(!ChildOutputDescription::NotLoaded.is_loaded());
    /// ```
    pub fn is_loaded(&self) -> bool
        ensures { result ≡ is_loaded self.now }
    {
        !matches!(self, ChildOutputDescription::NotLoaded)
    }

    /// A copy that shares the same bytes. It allocates nothing.
    ///
    /// # Errors
    ///
    /// The shared bytes have as many owners as their counter can hold.
    pub fn try_clone(&self) -> Result<Self, TooManyOwners>
        ensures { IfOk result (λ output. output ≡ self.now) }
    {
        Ok(match self {
            ChildOutputDescription::Split { stdout, stderr } => ChildOutputDescription::Split {
                stdout: copy_stream(stdout)?,
                stderr: copy_stream(stderr)?,
            },
            ChildOutputDescription::Combined { output } => ChildOutputDescription::Combined {
                output: output.try_clone()?,
            },
            ChildOutputDescription::NotLoaded => ChildOutputDescription::NotLoaded,
        })
    }

    // The output in the form of a recorded run, with empty names of the archive's members.
    fn recorded(&self, alloc: Global) -> Result<RecordedOutput, OutOfMemory>
        ensures { IfOk result (λ output. output ≡ recorded_output self.now) }
    {
        Ok(match self {
            ChildOutputDescription::Split { stdout, stderr } => RecordedOutput::Split {
                stdout: recorded_member(alloc, stdout)?,
                stderr: recorded_member(alloc, stderr)?,
            },
            ChildOutputDescription::Combined { .. } => RecordedOutput::Combined {
                output: DescriptionText::new(alloc, "")?,
            },
            ChildOutputDescription::NotLoaded => RecordedOutput::NotLoaded,
        })
    }
}

// The empty member name of a stream, if it was captured.
fn recorded_member(
    alloc: Global,
    stream: &Option<ChildSingleOutput>,
) -> Result<Option<DescriptionText>, OutOfMemory>
    ensures { IfOk result (λ name. name ≡ recorded_member stream.now) }
{
    match stream {
        Some(_) => Ok(Some(DescriptionText::new(alloc, "")?)),
        None => Ok(None),
    }
}

// A copy of the stream that shares its bytes, if there is one.
fn copy_stream(
    stream: &Option<ChildSingleOutput>,
) -> Result<Option<ChildSingleOutput>, TooManyOwners>
    ensures { IfOk result (λ s. s ≡ stream.now) }
{
    match stream {
        Some(stream) => Ok(Some(stream.try_clone()?)),
        None => Ok(None),
    }
}

/// Where the archive of a recorded run holds what a process wrote.
#[derive(Debug, Drop)]
pub enum RecordedOutput {
    /// Standard output and standard error, each by itself.
    Split {
        /// The member name of standard output, if it was captured.
        stdout: Option<DescriptionText>,
        /// The member name of standard error, if it was captured.
        stderr: Option<DescriptionText>,
    },
    /// Both streams together.
    Combined {
        /// The name of their member.
        output: DescriptionText,
    },
    /// Not loaded.
    NotLoaded,
}

/// What an attempt wrote, or why it could not be started.
#[derive(Debug, Drop)]
pub enum ChildExecutionOutputDescription<S: OutputSpec> {
    /// The process was started.
    Output {
        /// How it ended, if it has.
        result: Option<ExecutionResultDescription>,
        /// What it wrote.
        output: S::ChildOutput,
        /// What went wrong while it was run.
        errors: Option<ErrorChain>,
        /// The part of the output to highlight.
        highlight: Option<Boxed<Highlight>>,
    },
    /// The process could not be started.
    StartError(ErrorChain),
}

impl<S: OutputSpec> ChildExecutionOutputDescription<S> {
    /// Whether something went wrong: a start error, errors while it was run, or a result that is no success.
    ///
    /// ```
    /// let failed = ExecutionResultDescription::failed(101);
    /// assert!(ChildExecutionOutputDescription::silent(failed).has_errors());
    /// ```
    pub fn has_errors(&self) -> bool
        ensures { result ≡ has_errors self.now }
    {
        match self {
            ChildExecutionOutputDescription::StartError(_) => true,
            ChildExecutionOutputDescription::Output { result, errors, .. } => {
                errors.is_some()
                    || match result {
                        Some(result) => !result.is_success(),
                        None => false,
                    }
            }
        }
    }
}

impl ChildExecutionOutputDescription<LiveSpec> {
    /// A process that ended with this result and wrote nothing on either stream.
    ///
    /// ```
    /// let output = ChildExecutionOutputDescription::silent(ExecutionResultDescription::Pass);
    /// assert!(!output.has_errors());
    /// ```
    pub fn silent(outcome: ExecutionResultDescription) -> Self
        ensures { result ≡ silent_execution outcome }
    {
        ChildExecutionOutputDescription::Output {
            result: Some(outcome),
            output: ChildOutputDescription::Split {
                stdout: Some(ChildSingleOutput::empty()),
                stderr: Some(ChildSingleOutput::empty()),
            },
            errors: None,
            highlight: None,
        }
    }

    /// Sets what the process wrote. One that could not be started wrote nothing, and does not change.
    pub fn with_output(self, captured: ChildOutputDescription) -> Self
        ensures { result ≡ execution_with_output self captured }
    {
        match self {
            ChildExecutionOutputDescription::Output {
                result,
                errors,
                highlight,
                ..
            } => ChildExecutionOutputDescription::Output {
                result,
                output: captured,
                errors,
                highlight,
            },
            not_started => not_started,
        }
    }

    /// Copies its texts, which allocates. The copy shares the bytes of the output.
    ///
    /// # Errors
    ///
    /// Memory was refused, or shared bytes have as many owners as their counter can hold.
    pub fn try_clone(&self, alloc: Global) -> Result<Self, OutOfMemory>
        ensures { IfOk result (λ output. output ≡ self.now) }
    {
        Ok(match self {
            ChildExecutionOutputDescription::Output {
                result,
                output,
                errors,
                highlight,
            } => ChildExecutionOutputDescription::Output {
                result: copy_result(alloc, result)?,
                output: output.try_clone()?,
                errors: copy_errors(errors)?,
                highlight: copy_highlight(alloc, highlight)?,
            },
            ChildExecutionOutputDescription::StartError(errors) =>
                ChildExecutionOutputDescription::StartError(errors.try_clone()?),
        })
    }

    /// Whether it can be shown: its output is loaded, or the process could not be started.
    pub fn has_loaded_output(&self) -> bool
        ensures { result ≡ has_loaded_output self.now }
    {
        match self {
            ChildExecutionOutputDescription::Output { output, .. } => output.is_loaded(),
            ChildExecutionOutputDescription::StartError(_) => true,
        }
    }

    /// Replaces the captured output by `NotLoaded`. All else stays, and so does a start error.
    pub fn unload(&mut self)
        ensures { self.new ≡ unloaded_output self.old }
    {
        match self {
            ChildExecutionOutputDescription::Output { output, .. } => {
                *output = ChildOutputDescription::NotLoaded;
            }
            ChildExecutionOutputDescription::StartError(_) => {}
        }
    }

    /// The execution in the form of a recorded run, with empty names of the archive's members. It copies the texts.
    ///
    /// # Errors
    ///
    /// Memory was refused.
    pub fn recorded(
        &self,
        alloc: Global,
    ) -> Result<ChildExecutionOutputDescription<RecordingSpec>, OutOfMemory>
        ensures { IfOk result (λ output. output ≡ recorded_execution self.now) }
    {
        Ok(match self {
            ChildExecutionOutputDescription::Output {
                result,
                output,
                errors,
                highlight,
            } => ChildExecutionOutputDescription::Output {
                result: copy_result(alloc, result)?,
                output: output.recorded(alloc)?,
                errors: copy_errors(errors)?,
                highlight: copy_highlight(alloc, highlight)?,
            },
            ChildExecutionOutputDescription::StartError(errors) =>
                ChildExecutionOutputDescription::StartError(errors.try_clone()?),
        })
    }
}

// Copies the result, if there is one; allocates only if it holds text.
fn copy_result(
    alloc: Global,
    outcome: &Option<ExecutionResultDescription>,
) -> Result<Option<ExecutionResultDescription>, OutOfMemory>
    ensures { IfOk result (λ r. r ≡ outcome.now) }
{
    match outcome {
        Some(outcome) => Ok(Some(outcome.try_clone(alloc)?)),
        None => Ok(None),
    }
}

// A copy that shares the error, if there is one.
fn copy_errors(errors: &Option<ErrorChain>) -> Result<Option<ErrorChain>, TooManyOwners>
    ensures { IfOk result (λ e. e ≡ errors.now) }
{
    match errors {
        Some(errors) => Ok(Some(errors.try_clone()?)),
        None => Ok(None),
    }
}

// A copy of the highlight that shares its bytes, if there is one.
fn copy_highlight(
    alloc: Global,
    highlight: &Option<Boxed<Highlight>>,
) -> Result<Option<Boxed<Highlight>>, OutOfMemory>
    ensures { IfOk result (λ h. h ≡ highlight.now) }
{
    match highlight {
        Some(highlight) => Ok(Some(Boxed::new(alloc, highlight.get().try_clone()?)?)),
        None => Ok(None),
    }
}

/// An error, and its causes from the nearest to the farthest, which copies share.
///
/// ```
/// let causes = vec![in alloc; DescriptionText::new(alloc, "no such file")?]?;
/// let chain = ErrorChain::new(alloc, DescriptionText::new(alloc, "cannot spawn")?, causes)?;
/// assert_eq!(chain.message(), "cannot spawn");
/// ```
#[derive(Debug, Drop)]
pub struct ErrorChain {
    parts: Arc<ErrorParts>,
}

// The parts of an error chain.
#[derive(Debug, Drop)]
struct ErrorParts {
    message: DescriptionText,
    causes: Vec<DescriptionText>,
}

impl Model for ErrorChain {
    ghost use Rattle.run_names.specs.ErrorChains.{MessageAndCauses};

    ghost Value = { MessageAndCauses };

    ghost view = { λ chain. record { message = chain.parts.value.message; causes = chain.parts.value.causes.items } };
}

impl ErrorChain {
    /// The error with this message and these causes. It allocates.
    ///
    /// ```
    /// let chain = ErrorChain::new(alloc, DescriptionText::new(alloc, "timed out")?, Vec::new(alloc))?;
    /// assert!(chain.causes().is_empty());
    /// ```
    ///
    /// # Errors
    ///
    /// Memory was refused. The texts are dropped.
    pub fn new(
        alloc: Global,
        message: DescriptionText,
        causes: Vec<DescriptionText>,
    ) -> Result<Self, OutOfMemory>
        ensures message { IfOk result (λ chain. chain.message ≡ message) }
        ensures causes { IfOk result (λ chain. chain.causes ≡ causes.items) }
    {
        Ok(ErrorChain {
            parts: Arc::new(alloc, ErrorParts { message, causes })?,
        })
    }

    /// What went wrong.
    pub fn message(&self) -> &str
        ensures { result.now ≡ self.now.message }
    {
        self.parts.message.as_str()
    }

    /// Why, from the nearest cause on.
    ///
    /// ```
    /// let causes = vec![in alloc; DescriptionText::new(alloc, "no such file")?]?;
    /// let chain = ErrorChain::new(alloc, DescriptionText::new(alloc, "cannot spawn")?, causes)?;
    /// assert_eq!(chain.causes()[0].as_str(), "no such file");
    /// ```
    pub fn causes(&self) -> &[DescriptionText]
        ensures { result.now ≡ self.now.causes }
    {
        self.parts.causes.as_slice()
    }

    /// A copy that shares the same error. It allocates nothing.
    ///
    /// # Errors
    ///
    /// The shared error has as many owners as its counter can hold.
    pub fn try_clone(&self) -> Result<Self, TooManyOwners>
        ensures { IfOk result (λ chain. chain ≡ self.now) }
    {
        Ok(ErrorChain {
            parts: Arc::try_clone(&self.parts)?,
        })
    }
}

/// The stream of a highlight.
#[derive(Clone, Copy, Debug, PartialEq, Eq)]
pub enum HighlightStream {
    /// Standard output.
    Stdout,
    /// Standard error.
    Stderr,
    /// Both, captured together.
    Combined,
}

/// A part of the captured output to highlight, such as the message of a panic.
///
/// ```
/// let slice = Bytes::from_static(b"thread 't1' panicked");
/// let highlight = Highlight { stream: HighlightStream::Stderr, start: 0, slice };
/// assert!(highlight.stderr_subslice().is_some());
/// ```
#[derive(Debug, Drop)]
pub struct Highlight {
    /// The stream that it is in.
    pub stream: HighlightStream,
    /// The index of its first byte in the stream.
    pub start: usize,
    /// The bytes of the stream that it highlights.
    pub slice: Bytes,
}

/// A part of some bytes.
#[derive(Clone, Copy, Debug, PartialEq, Eq)]
pub struct ByteSubslice<'a> {
    /// The bytes of the part.
    pub slice: &'a [u8],
    /// The index of the first one.
    pub start: usize,
}

impl Highlight {
    /// The part, if it is in standard output.
    pub fn stdout_subslice(&self) -> Option<ByteSubslice<'_>>
        ensures { subslice_value result ≡ stdout_slice self.now }
    {
        match self.stream {
            HighlightStream::Stdout => Some(self.subslice()),
            HighlightStream::Stderr | HighlightStream::Combined => None,
        }
    }

    /// The part, if it is in standard error.
    pub fn stderr_subslice(&self) -> Option<ByteSubslice<'_>>
        ensures { subslice_value result ≡ stderr_slice self.now }
    {
        match self.stream {
            HighlightStream::Stderr => Some(self.subslice()),
            HighlightStream::Stdout | HighlightStream::Combined => None,
        }
    }

    /// The part, if it is in streams that were captured together.
    pub fn combined_subslice(&self) -> Option<ByteSubslice<'_>>
        ensures { subslice_value result ≡ combined_slice self.now }
    {
        match self.stream {
            HighlightStream::Combined => Some(self.subslice()),
            HighlightStream::Stdout | HighlightStream::Stderr => None,
        }
    }

    /// A copy that shares the same bytes.
    ///
    /// # Errors
    ///
    /// Memory was refused, or the shared bytes have as many owners as their counter can hold.
    pub fn try_clone(&self) -> Result<Self, OutOfMemory>
        ensures { IfOk result (λ h. h ≡ self.now) }
    {
        Ok(Highlight {
            stream: self.stream,
            start: self.start,
            slice: self.slice.clone()?,
        })
    }

    // The part, in any stream.
    fn subslice(&self) -> ByteSubslice<'_>
        ensures start { result.start ≡ self.now.start }
        ensures slice { result.slice.now ≡ self.now.slice }
    {
        ByteSubslice {
            slice: self.slice.as_slice(),
            start: self.start,
        }
    }
}
