//! A recorded run as a source of lines.

ghost use Rattle.std.specs.Prelude.{◌≡◌, ◌++◌, ℕ, List, map, None, Some, IfErr, IfOk, refl};
ghost use Rattle.std.specs.Io.Buffered.{reader_remaining};
ghost use Rattle.recorded.specs.Names.{counted, lines_inline, lines_replayed, needed_bytes, replayed, IsLeft, AreBytes};
ghost use Rattle.recorded.specs.Names.{ended_lines, line_replayed, scene_spelled};
ghost use Rattle.scene_follower.specs.Names.{StopsBy, OfLines, OfText, Begins, Prints, PrintsFollowed, device};

use super::loading::Loading;
use super::outputs::RecordedOutputs;
use super::read_at::ReadAt;
use command_line::args::Options;
use command_line::fault::Fault;
use command_line::pieces::next_piece;
use run_model::memory::OutOfMemory;
use scene_follower::follow::{RunOutcome, follow_source};
use scene_follower::read::RunSource;
use scene_reader::reader::{CallSink, LinesRead};
use std::alloc::Global;
use std::io::{BufReader, Read, Write};

/// How many bytes of the lines are read at once.
const BYTES_AT_ONCE: usize = 16_384;

/// A recorded run: its lines, and its outputs. Those that the decider skips are not read.
///
/// ```
/// use command_line::args::words;
/// use scene_follower::follow::RunOutcome;
/// let given = [String::from_str(alloc, "DIR")?];
/// let options = words(&given).ok_or("no options")?;
/// let lines = "done\t-\talpha\tt1\tnever\tnever\tpass\tinitial=1 finished=1 passed=1\t1\t\
///     pass\t5000000\t0\tcomb\t\\@0:7:62cd0a585dc2fe91\t-\t-\t-\n";
/// let outputs = RecordedOutputs::new(Metered::new(b"passed\n".as_slice()))?;
/// let mut run = RecordedRun::new(alloc, options, lines.as_bytes(), outputs)?;
/// let (outcome, printed, _records) = run.replay(alloc, Vec::new(alloc), Vec::new(alloc));
/// assert!(outcome? == RunOutcome::NotEnded);
/// assert!(!printed.is_empty());
/// assert_eq!(run.bytes_read(), 0); // the decider skips the output of a test that passed
/// ```
#[derive(Drop)]
pub struct RecordedRun<'a, R, O: ReadAt> {
    options: Options<'a>,
    reader: BufReader<R>,
    outputs: RecordedOutputs<O>,
}

impl<'a, R: Read + Drop, O: ReadAt + Drop> RecordedRun<'a, R, O> {
    /// The run with the lines of this reader and these outputs. It is reported as nextest shows a recorded run,
    /// whether or not the options say so.
    ///
    /// # Errors
    ///
    /// Memory was refused. The reader and the outputs are dropped.
    pub fn new(
        alloc: Global,
        options: Options<'a>,
        reader: R,
        outputs: RecordedOutputs<O>,
    ) -> Result<RecordedRun<'a, R, O>, OutOfMemory>
        ensures options { IfOk result (λ run. run.options ≡ replayed options.entry) }
        ensures lines { IfOk result (λ run. reader_remaining R.remaining run.reader ≡ R.remaining reader) }
        ensures outputs { IfOk result (λ run. run.outputs ≡ outputs) }
    {
        let Ok(reader) = BufReader::with_capacity(alloc, BYTES_AT_ONCE, reader) else {
            return Err(OutOfMemory);
        };
        Ok(RecordedRun {
            options: Options {
                is_replay: true,
                ..options
            },
            reader,
            outputs,
        })
    }

    /// How many bytes of outputs were read. The count saturates at `u64::MAX`.
    pub fn bytes_read(&self) -> u64
        ensures { result ≡ O.count self.now.outputs.source }
    {
        self.outputs.bytes_read()
    }

    /// Prints the report of the run, each line as soon as it was read, and its records to a second device, if the
    /// options ask for them. Both devices are returned.
    ///
    /// On `Ok` the first device has what `follow` prints for the scene in which each reference is replaced by its
    /// bytes (`spelled`), or for the events with every output in them (`ok`). The outputs that the report does not
    /// show were not read (`reads`, about the count of the outputs' source).
    ///
    /// # Errors
    ///
    /// The fault of the first line that is wrong or of the file of the lines, after which the report of the lines
    /// before it is complete; or a failed device, or refused memory, after which each device has a prefix.
    pub fn replay<W: Write, S: Write>(
        &mut self,
        alloc: Global,
        writer: W,
        store_writer: S,
    ) -> (Result<RunOutcome, Fault<'a>>, W, S)
        ensures ok { (text all : List ℕ) → reader_remaining R.remaining self.old.reader ≡ Some text
            → O.recorded self.old.outputs.source ≡ Some all
            → IfOk result.0 (λ come_to. OfLines (lines_inline all text)
            (PrintsFollowed device device self.old.options (W.contents writer, S.contents store_writer)
            (W.contents result.1, S.contents result.2) come_to)) }
        // Proofs see the outputs as numbers, and this says that each is a byte.
        ensures spelled { (text all : List ℕ) → reader_remaining R.remaining self.old.reader ≡ Some text
            → O.recorded self.old.outputs.source ≡ Some all → AreBytes all
            → IfOk result.0 (λ come_to. OfText (scene_spelled all text)
            (PrintsFollowed device device self.old.options (W.contents writer, S.contents store_writer)
            (W.contents result.1, S.contents result.2) come_to)) }
        ensures err { (text all : List ℕ) → reader_remaining R.remaining self.old.reader ≡ Some text
            → O.recorded self.old.outputs.source ≡ Some all
            → IfErr result.0 (StopsBy self.old.options (lines_replayed self.old.options all text)
            (Prints device device self.old.options (W.contents writer, S.contents store_writer)
            (W.contents result.1, S.contents result.2))
            (Begins device device self.old.options (W.contents writer, S.contents store_writer)
            (W.contents result.1, S.contents result.2))) }
        ensures reads { (text all : List ℕ) → reader_remaining R.remaining self.old.reader ≡ Some text
            → O.recorded self.old.outputs.source ≡ Some all
            → IfOk result.0 (λ _. O.count self.new.outputs.source
            ≡ counted (O.count self.old.outputs.source) (needed_bytes self.old.options text)) }
        ensures no_store { self.old.options.store ≡ None → result.2 ≡ store_writer }
    {
        let options = self.options;
        let followed = follow_source(alloc, &options, self, writer, store_writer);
        let _count = self.bytes_read(); // it is a `u64`, which a proof learns by reading it
        followed
    }
}

impl<'o, R: Read, O: ReadAt + Drop> RunSource for RecordedRun<'o, R, O> {
    ghost left = { λ total run. IsLeft total run.options (O.recorded run.outputs.source)
        (reader_remaining R.remaining run.reader) (O.count run.outputs.source) };

    ghost texts = { λ total run text others before lines h. (
      line_replayed run.options h.all text,
      map (line_replayed run.options h.all) (others ++ ended_lines h.text),
      h.is,
      refl,
    ) };

    // Bytes after the last line feed are not a line.
    fn next_piece<'a>(&mut self, file: &'a str, piece: &mut Vec<u8>) -> Result<bool, Fault<'a>> {
        next_piece(file, &mut self.reader, piece)
    }

    fn pass_line<'a, 't, K: CallSink>(
        &mut self,
        alloc: Global,
        file: &'a str,
        read: &mut LinesRead,
        line: &'t [u8],
        texts: &mut Vec<&'t str>,
        sink: &mut K,
    ) -> Result<(), Fault<'a>> {
        let outputs = &mut self.outputs;
        let mut loading = Loading {
            options: &self.options,
            config: read.config,
            outputs,
            sink,
        };
        read.pass_recorded_line(alloc, file, line, texts, &mut loading)
    }

    fn pass_large_line<'a, K: CallSink>(
        &mut self,
        alloc: Global,
        file: &'a str,
        read: &mut LinesRead,
        line: Vec<u8>,
        sink: &mut K,
    ) -> Result<(), Fault<'a>> {
        self.pass_line(
            alloc,
            file,
            read,
            line.as_slice(),
            &mut Vec::new(alloc),
            sink,
        )
    }
}
