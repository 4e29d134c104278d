//! Where the lines of a run come from: a file that is read piece by piece, as in `report` and `follow`, or another
//! source.

ghost use Rattle.std.specs.Prelude.{◌≡◌, ◌≤◌, ◌∷◌, ◌++◌, ℕ, List, [], IfErr, IfOk, MatchResult, Ok, OnOk, Some};
ghost use Rattle.std.specs.Prelude.{drop, false, length, map, refl, true};
ghost use Rattle.std.specs.{Bool.OnTrue, Io.Buffered.reader_remaining, Option.ForSome};
ghost use Rattle.scene_reader.specs.Names.{ParsedLines, RunLine, before_next, lines_before, no_lines, plain_line};
ghost use Rattle.scene_reader.specs.Names.{split_on};
ghost use Rattle.scene_follower.specs.Names.{IsUnread};
ghost use Rattle.scene_follower.specs.Read.{ConfiguresPiece, HasConfigured, HasNext, HasText, PassesAll};
ghost use Rattle.scene_follower.specs.Read.{PassesNext, PassesSome, TakesNone};
ghost use Rattle.scene_follower.specs.Sources.{AreLeftIn, IsWholeScene};

use command_line::fault::Fault;
use command_line::pieces::next_piece;
use console_reporter::imp::ReportCall;
use memchr::memchr;
use run_model::memory::OutOfMemory;
use scene_fields::split::first_line;
use scene_fields::stored::PlacedOutput;
use scene_reader::reader::{CallSink, LARGE, LinesRead, is_configuration};
use std::alloc::Global;
use std::io::{BufReader, Read};
use std::mem;

/// How many bytes of a file are read at once.
const BYTES_AT_ONCE: usize = 16_384;

/// Room for the fields of most lines: of a finished test with up to two attempts.
const FIELDS: usize = 32;

/// Where the lines of a run come from.
pub trait RunSource {
    // These lines are left after those before, and these texts are read next. Once all are read, this many bytes of
    // outputs were read.
    ghost left: { ℕ → Self → List (List ℕ) → ParsedLines → List RunLine → Type 0 };

    /// Replaces the piece by the next lines of this file, and returns whether there were any.
    fn next_piece<'a>(&mut self, file: &'a str, piece: &mut Vec<u8>) -> Result<bool, Fault<'a>>
        ensures piece { (total : ℕ) (before : ParsedLines) (lines : List RunLine) → left total self.old [] before lines
            → IfOk result (HasNext piece.new.items (λ texts. left total self.new texts before) lines) }
        ensures fault { IfErr result (IsUnread file.now) };

    /// Reads the next line of a piece, and passes its call to the sink. The list is for its fields.
    fn pass_line<'a, 't, K: CallSink>(
        &mut self,
        alloc: Global,
        file: &'a str,
        read: &mut LinesRead,
        line: &'t [u8],
        texts: &mut Vec<&'t str>,
        sink: &mut K,
    ) -> Result<(), Fault<'a>>
        ensures { (total : ℕ) (others : List (List ℕ)) (before : ParsedLines) (lines : List RunLine)
            → before_next read.old ≡ lines_before before → left total self.old (line.now ∷ others) before lines
            → PassesNext K.takes file.now before lines (left total self.new others) read.old sink.old result
            read.new sink.new };

    /// Reads a line that is a whole piece. It may take the memory of the piece.
    fn pass_large_line<'a, K: CallSink>(
        &mut self,
        alloc: Global,
        file: &'a str,
        read: &mut LinesRead,
        line: Vec<u8>,
        sink: &mut K,
    ) -> Result<(), Fault<'a>>
        ensures { (total : ℕ) (others : List (List ℕ)) (before : ParsedLines) (lines : List RunLine)
            → before_next read.old ≡ lines_before before → left total self.old (line.items ∷ others) before lines
            → PassesNext K.takes file.now before lines (left total self.new others) read.old sink.old
            result read.new sink.new };

    // The next text is that of the next line.
    ghost texts: { (total : ℕ) (s : Self) (text : List ℕ) (others : List (List ℕ)) (before : ParsedLines)
        (lines : List RunLine) → left total s (text ∷ others) before lines → HasText text lines };
}

/// The text of a scene. It is read piece by piece.
#[derive(Drop)]
pub struct SceneSource<R> {
    reader: BufReader<R>,
    // Whether the end of the text was read. The reader is not asked again after that.
    is_ended: bool,
}

impl<R: Read + Drop> SceneSource<R> {
    /// The scene in this reader. It allocates the memory for one piece.
    pub fn new(alloc: Global, reader: R) -> Result<SceneSource<R>, OutOfMemory>
        ensures { IfOk result (IsWholeScene R.remaining reader) }
    {
        let Ok(reader) = BufReader::with_capacity(alloc, BYTES_AT_ONCE, reader) else {
            return Err(OutOfMemory);
        };
        Ok(SceneSource {
            reader,
            is_ended: false,
        })
    }
}

impl<R: Read> RunSource for SceneSource<R> {
    // The outputs of a scene are in its lines.
    ghost left = { λ total s texts before. AreLeftIn R.remaining s texts };

    ghost texts = { λ total s text others before lines h.
        (plain_line text, map plain_line others ++ h.0.0, h.0.1, refl) };

    // After the end nothing is read: a terminal would ask again, and a file may have grown.
    fn next_piece<'a>(&mut self, file: &'a str, piece: &mut Vec<u8>) -> Result<bool, Fault<'a>>
        ensures piece { (total : ℕ) (before : ParsedLines) (lines : List RunLine)
            → AreLeftIn R.remaining self.old [] lines
            → IfOk result (HasNext piece.new.items (AreLeftIn R.remaining self.new) lines) }
        ensures fault { IfErr result (IsUnread file.now) }
        ensures unread { self.old.is_ended ≡ true → (self.new ≡ self.old) × (result ≡ Ok false) }
        ensures none_left { IfOk result (λ is_more. is_more ≡ false → self.new.is_ended ≡ true) }
        // Even if the last line does not end in a line feed.
        ensures last_line { (text : List ℕ) → reader_remaining R.remaining self.old.reader ≡ Some text
            → OnOk result (text ≡ piece.new.items → self.new.is_ended ≡ true) }
    {
        if self.is_ended {
            return Ok(false);
        }
        let is_before_feed = next_piece(file, &mut self.reader, piece)?;
        if is_before_feed {
            return Ok(true);
        }
        self.is_ended = true;
        // What follows the last line feed is a line, too.
        Ok(!piece.is_empty())
    }

    #[inline(always)]
    fn pass_line<'a, 't, K: CallSink>(
        &mut self,
        alloc: Global,
        file: &'a str,
        read: &mut LinesRead,
        line: &'t [u8],
        texts: &mut Vec<&'t str>,
        sink: &mut K,
    ) -> Result<(), Fault<'a>> {
        read.pass_line(alloc, file, line, texts, sink)
    }

    fn pass_large_line<'a, K: CallSink>(
        &mut self,
        alloc: Global,
        file: &'a str,
        read: &mut LinesRead,
        line: Vec<u8>,
        sink: &mut K,
    ) -> Result<(), Fault<'a>> {
        read.pass_owned_line(alloc, file, line, sink)
    }
}

/// The lines of a run while they are read. Those of one piece are buffered.
#[derive(Drop)]
pub struct Reading {
    pub read: LinesRead,
    piece: Vec<u8>,
    // The index of the first buffered line in the piece.
    next: Option<usize>,
    ghost within: { ForSome next (λ at. at ≤ length piece.items) },
}

impl Reading {
    ghost use Rattle.scene_follower.specs.Read.{StopsConfiguring};
    ghost use Rattle.scene_follower.specs.Reading.{IsConfigured, IsFilled, IsNothingRead, buffered};

    /// Reads the lines that configure the report. What follows them is an event, or nothing.
    pub fn begin<'a, L: RunSource>(
        alloc: Global,
        file: &'a str,
        source: &mut L,
    ) -> Result<Reading, Fault<'a>>
        ensures { (total : ℕ) (all : List RunLine) → L.left total source.old [] no_lines all
            → MatchResult result (IsConfigured all (L.left total source.new)) (StopsConfiguring file.now all) }
    {
        let mut reading = Reading {
            read: LinesRead::new(alloc),
            piece: Vec::new(alloc),
            next: None,
        };
        match reading.configure(alloc, file, source) {
            Ok(()) => Ok(reading),
            Err(fault) => Err(fault),
        }
    }

    // Reads the lines that configure the report.
    fn configure<'a, L: RunSource>(
        &mut self,
        alloc: Global,
        file: &'a str,
        source: &mut L,
    ) -> Result<(), Fault<'a>>
        ensures { (total : ℕ) (all : List RunLine) → IsNothingRead self.old → L.left total source.old [] no_lines all
            → MatchResult result (λ _. IsConfigured all (L.left total source.new) self.new)
            (StopsConfiguring file.now all) }
    {
        for _turn in 0..u64::MAX {
            match self.fill(file, source) {
                Ok(true) => {}
                Ok(false) => return Ok(()),
                Err(fault) => return Err(fault),
            }
            let Some(at) = self.next else {
                continue;
            };
            let piece = self.piece.as_slice();
            match configure_piece(alloc, file, source, &mut self.read, piece, at) {
                Ok(next) => self.next = next,
                Err(fault) => return Err(fault),
            }
            if self.next.is_some() {
                return Ok(());
            }
        }
        Err(Fault::CannotRead { file })
    }

    /// Reads lines ahead if none are buffered. It returns whether there are any.
    pub fn fill<'a, L: RunSource>(
        &mut self,
        file: &'a str,
        source: &mut L,
    ) -> Result<bool, Fault<'a>>
        ensures read { self.new.read ≡ self.old.read }
        ensures left { (total : ℕ) (run : ParsedLines) (lines : List RunLine)
            → L.left total source.old (buffered self.old) run lines
            → IfOk result (IsFilled (λ texts. L.left total source.new texts run) lines self.new) }
        ensures fault { IfErr result (IsUnread file.now) }
    {
        if self.next.is_none() && source.next_piece(file, &mut self.piece)? {
            self.next = Some(0);
        }
        Ok(self.next.is_some())
    }

    /// Reads the remaining lines, and passes their calls to the sink.
    pub fn pass_to<'a, L: RunSource, K: CallSink>(
        &mut self,
        alloc: Global,
        file: &'a str,
        source: &mut L,
        sink: &mut K,
    ) -> Result<(), Fault<'a>>
        ensures { (total : ℕ) (run : ParsedLines) (lines : List RunLine)
            → before_next self.old.read ≡ lines_before run → L.left total source.old (buffered self.old) run lines
            → PassesAll K.takes file.now (L.left total source.new []) self.old.read.next run lines sink.old result
            sink.new }
    {
        for _turn in 0..u64::MAX {
            match self.fill(file, source) {
                Ok(true) => {}
                Ok(false) => return Ok(()),
                Err(fault) => return Err(fault),
            }
            match self.pass_piece(alloc, file, source, sink) {
                Ok(()) => {}
                Err(fault) => return Err(fault),
            }
        }
        Err(Fault::CannotRead { file })
    }

    // Reads the lines of the piece. A piece that is one large line gives its memory to the output in it.
    fn pass_piece<'a, L: RunSource, K: CallSink>(
        &mut self,
        alloc: Global,
        file: &'a str,
        source: &mut L,
        sink: &mut K,
    ) -> Result<(), Fault<'a>>
        ensures { (total : ℕ) (run : ParsedLines) (lines : List RunLine)
            → before_next self.old.read ≡ lines_before run → L.left total source.old (buffered self.old) run lines
            → PassesSome K.takes file.now (L.left total source.new (buffered self.new)) self.old.read.next run lines
            sink.old result self.new.read sink.new }
    {
        let Some(at) = self.next else {
            return Ok(());
        };
        self.next = None;
        if at == 0 && is_large_line(&self.piece) {
            let line = mem::replace(&mut self.piece, Vec::new(alloc));
            return source.pass_large_line(alloc, file, &mut self.read, line, sink);
        }
        pass_lines(alloc, file, source, &mut self.read, &self.piece[at..], sink)
    }
}

// Whether a piece is one line with a large field.
fn is_large_line(piece: &[u8]) -> bool
    ensures { OnTrue result (split_on 10 piece.now ≡ piece.now ∷ []) }
{
    piece.len() >= LARGE && has_large_field(piece) && memchr(b'\n', piece).is_none()
}

// Whether some block of half that size has no tab: each field of that size contains one.
fn has_large_field(line: &[u8]) -> bool {
    line.chunks_exact(LARGE / 2)
        .any(|block| memchr(b'\t', block).is_none())
}

// Reads the lines of a piece from this place on, as long as they configure the report, and returns the place of the
// next line.
fn configure_piece<'a, L: RunSource>(
    alloc: Global,
    file: &'a str,
    source: &mut L,
    read: &mut LinesRead,
    piece: &[u8],
    at: usize,
) -> Result<Option<usize>, Fault<'a>>
    requires { at ≤ length piece.now }
    ensures within { IfOk result (λ next. ForSome next (λ at. at ≤ length piece.now)) }
    ensures left { (total : ℕ) (all : List RunLine)
        → HasConfigured all (L.left total source.old (split_on 10 (drop at piece.now))) read.old
        → ConfiguresPiece file.now all piece.now (L.left total source.new) result read.new }
{
    let mut texts = Vec::new(alloc);
    let mut at = at;
    for _turn in 0..u64::MAX {
        let (line, after) = first_line(&piece[at..]);
        if !is_configuration(line) {
            return Ok(Some(at));
        }
        match source.pass_line(alloc, file, read, line, &mut texts, &mut NoCalls) {
            Ok(()) => {}
            Err(fault) => return Err(fault),
        }
        match after {
            Some(after) => at = piece.len() - after.len(),
            None => return Ok(None),
        }
    }
    Err(Fault::CannotRead { file })
}

// Reads the lines of a text, and passes their calls to the sink.
fn pass_lines<'a, L: RunSource, K: CallSink>(
    alloc: Global,
    file: &'a str,
    source: &mut L,
    read: &mut LinesRead,
    text: &[u8],
    sink: &mut K,
) -> Result<(), Fault<'a>>
    ensures { (total : ℕ) (run : ParsedLines) (lines : List RunLine) → before_next read.old ≡ lines_before run
        → L.left total source.old (split_on 10 text.now) run lines
        → PassesSome K.takes file.now (L.left total source.new []) read.old.next run lines sink.old result read.new
        sink.new }
{
    let Ok(mut texts) = Vec::with_capacity(alloc, FIELDS) else {
        return Err(Fault::OutOfMemory);
    };
    let mut rest = Some(text);
    for _turn in 0..u64::MAX {
        let Some(left) = rest else {
            return Ok(());
        };
        let (line, after) = first_line(left);
        match source.pass_line(alloc, file, read, line, &mut texts, sink) {
            Ok(()) => rest = after,
            Err(fault) => return Err(fault),
        }
    }
    Err(Fault::CannotRead { file })
}

/// A sink for lines without calls. It refuses every call.
#[derive(Drop)]
struct NoCalls;

impl CallSink for NoCalls {
    ghost takes = { λ old file number stored call result new. TakesNone file result };

    fn take<'a>(
        &mut self,
        _alloc: Global,
        file: &'a str,
        _number: u64,
        _stored: &[PlacedOutput],
        _call: &mut ReportCall<'_>,
    ) -> Result<(), Fault<'a>> {
        Err(Fault::CannotRead { file })
    }
}
