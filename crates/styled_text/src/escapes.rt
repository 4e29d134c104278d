//! Escape sequences, and texts without them.
//!
//! Every escape character that is not inside a sequence begins one:
//!
//! - `ESC [`, parameters, intermediates and one final byte, a control sequence such as a colour;
//! - `ESC ]` up to BEL or `ESC \`, a command; any other control character ends it before itself, so
//!   none crosses a line;
//! - ESC, intermediates and one final byte; or ESC alone.
//!
//! A sequence that is not finished ends before the first character that does not fit. All else is text. A text is
//! scanned once, and its pieces are slices of it.

ghost use Rattle.std.specs.Prelude.{◌≡◌, ℕ, false, [], ◌∷◌, List, IfOk, IfSome, MatchOption, string_bytes};
ghost use Rattle.styled_text.specs.Names.{YieldsFirstBy, item_count, sequence_len, csi_len, front_len, is_within};
ghost use Rattle.styled_text.specs.Names.{is_visible, is_parameter, pieces, visible, HasNoEscape, piece_text};
ghost use Rattle.styled_text.specs.Names.{rest_len, is_before_backslash, StepCounts, step_of, short_step_of};
ghost use Rattle.styled_text.specs.Names.{final_step_of, advanced, Puts};
ghost use Rattle.styled_text.specs.declared.escapes.Mode.TheVariants.{Text};
ghost use Rattle.styled_text.specs.declared.escapes.State.TheVariants.{Parameters, Intermediates, Command, Short};

use crate::blocks::{parameters_in_block, stretch_in_block};
use memchr::memchr;
use out_of_memory::OutOfMemory;
use std::alloc::Global;
use std::marker::Model;
use writers::write_str::{WriteFault, WriteStr};

/// The character that begins a sequence.
pub const ESCAPE: u8 = 0x1B;

/// A piece of a text.
///
/// ```
/// let sequences = pieces("\x1b[1mhi\x1b[0m").filter(|piece| matches!(piece, Piece::Sequence(_)));
/// assert_eq!(sequences.count(), 2);
/// ```
#[derive(Clone, Copy, Debug, Drop)]
pub enum Piece<'a> {
    /// A sequence.
    Sequence(&'a str),
    /// The text up to the next sequence or the end.
    Stretch(&'a str),
}

/// An iterator over the pieces of a text.
#[derive(Debug, Drop)]
pub struct Scanner<'a> {
    rest: &'a str,
}

impl<'a> Model for Scanner<'a> {
    ghost use Rattle.{std.specs.Prelude.List, styled_text.specs.Escapes.PieceText, styled_text.specs.Escapes.pieces};

    ghost Value = { List PieceText };

    ghost view = { λ s. pieces s.rest.now };
}

/// The sequences of a text and the stretches between them, in order. Joined they are the text. It allocates nothing.
///
/// ```
/// let mut scanner = pieces("\x1b[1mhi");
/// assert!(matches!(scanner.next(), Some(Piece::Sequence("\x1b[1m"))));
/// assert!(matches!(scanner.next(), Some(Piece::Stretch("hi"))));
/// ```
pub fn pieces(text: &str) -> Scanner<'_>
    ensures { result ≡ pieces text.now }
{
    Scanner { rest: text }
}

impl<'a> Iterator for Scanner<'a> {
    type Item = Piece<'a>;

    ghost next_gives = { YieldsFirstBy piece_text (λ s. s) };

    ghost remaining = { item_count (λ s. s) };

    fn next(&mut self) -> Option<Piece<'a>> {
        let (piece, rest) = split_piece(self.rest)?;
        self.rest = rest;
        Some(piece)
    }
}

/// The text without its sequences, as a new text.
/// ```
/// assert_eq!(strip(alloc, "a\x1b[31\nb")?.as_str(), "a\nb");
/// ```
///
/// # Errors
///
/// Memory was refused.
#[tactic(auto, using(crate::proofs::lemmas::Pieces::visible_laws))]
pub fn strip(alloc: Global, text: &str) -> Result<String, OutOfMemory>
    ensures visible { IfOk result (λ s. string_bytes s ≡ visible text.now) }
    ensures free { IfOk result (λ s. HasNoEscape (string_bytes s)) }
    ensures again { IfOk result (λ s. visible (string_bytes s) ≡ string_bytes s) }
    ensures kept { HasNoEscape text.now → IfOk result (λ s. string_bytes s ≡ text.now) }
{
    let mut stripped = String::with_capacity(alloc, text.len())?;
    match write_stripped(&mut stripped, text) {
        Ok(()) => Ok(stripped),
        Err(_) => Err(OutOfMemory),
    }
}

/// Writes the text without its sequences. The text between them is passed on without a copy.
///
/// ```
/// write_stripped(&mut out, "\x1b[31mred\x1b[0m, plain")?;
/// assert_eq!(out.as_str(), "red, plain");
/// ```
///
/// # Errors
///
/// The writer's fault. It has accepted a prefix of the text.
pub fn write_stripped<W: WriteStr>(w: &mut W, text: &str) -> Result<(), WriteFault>
    ensures { Puts W.meaning w.old (visible text.now) result w.new }
{
    for piece in pieces(text) {
        if let Piece::Stretch(stretch) = piece {
            w.write_str(stretch)?;
        }
    }
    Ok(())
}

// The first piece of a text, and what follows it.
#[tactic(auto, using(crate::proofs::lemmas::Pieces::first_piece))]
fn split_piece(text: &str) -> Option<(Piece<'_>, &str)>
    ensures { MatchOption result (pieces text.now ≡ []) (λ x. pieces text.now ≡ piece_text x.0 ∷ pieces x.1.now) }
{
    let Some((&first, after)) = text.as_bytes().split_first() else {
        return None;
    };
    if first == ESCAPE {
        let count = sequence_len(after);
        let (sequence, rest) = text.split_at(count + 1);
        return Some((Piece::Sequence(sequence), rest));
    }
    let count = stretch_len(after);
    let (stretch, rest) = text.split_at(count + 1);
    Some((Piece::Stretch(stretch), rest))
}

/// How many bytes at the front are outside sequences.
#[inline(always)]
#[tactic(auto, using(crate::proofs::lemmas::Pieces::stretch_at, crate::proofs::lemmas::Pieces::stretch_whole))]
pub(crate) fn stretch_len(bytes: &[u8]) -> usize
    ensures { result ≡ front_len is_visible bytes.now }
{
    if let Some(&ESCAPE) = bytes.first() {
        return 0;
    }
    if let Some(count) = stretch_in_block(bytes) {
        return count;
    }
    match memchr(ESCAPE, bytes) {
        Some(place) => place,
        None => bytes.len(),
    }
}

/// How many bytes after an escape character belong to its sequence.
#[tactic(auto, using(crate::proofs::lemmas::Pieces::len_laws), unfolding(crate::specs::Escapes::sequence_len))]
#[inline(always)]
pub(crate) fn sequence_len(after: &[u8]) -> usize
    ensures { result ≡ sequence_len after.now }
{
    match after.split_first() {
        Some((b'[', parameters)) => match colour_len(parameters) {
            Some(len) => len + 1,
            None if parameters.first() == Some(&ESCAPE) => 1,
            None => stepwise_len(after),
        },
        _ => stepwise_len(after),
    }
}

// `sequence_len`, one step at a time.
#[inline(never)]
#[tactic(auto, using(crate::proofs::lemmas::Cuts::ended))]
fn stepwise_len(after: &[u8]) -> usize
    ensures { result ≡ sequence_len after.now }
{
    let mut state = State::Start;
    let mut rest = after;
    let mut count = 0;
    while let Some((&byte, tail)) = rest.split_first() {
        match next_step(state, u32::from(byte), tail.first() == Some(&b'\\')) {
            Step::Inside(next) => state = next,
            Step::Ends(more) => return count + more,
        }
        count += 1;
        rest = tail;
    }
    count
}

// How many bytes of what follows `ESC [` belong to its sequence, if no intermediates come before
// its final byte, as in a colour.
#[inline(always)]
#[tactic(auto, using(crate::proofs::lemmas::Pieces::len_laws))]
fn colour_len(after: &[u8]) -> Option<usize>
    ensures { IfSome result (λ len. len ≡ csi_len after.now) }
{
    let parameters = parameters_len(after);
    let (_, rest) = after.split_at(parameters);
    match rest.first() {
        Some(0x40..=0x7E) => Some(parameters + 1),
        _ => None,
    }
}

// The number of parameters at the front.
#[inline(always)]
fn parameters_len(bytes: &[u8]) -> usize
    ensures { result ≡ front_len is_parameter bytes.now }
{
    match parameters_in_block(bytes) {
        Some(count) => count,
        None => run_len(bytes, 0x30, 0x3F),
    }
}

// How many bytes at the front lie from low to high.
#[inline(never)]
#[tactic(auto, using(crate::proofs::lemmas::Pieces::runs))]
fn run_len(bytes: &[u8], low: u8, high: u8) -> usize
    ensures { result ≡ front_len (is_within low high) bytes.now }
{
    for (place, &byte) in bytes.iter().enumerate() {
        if !is_within(low, high, byte) {
            return place;
        }
    }
    bytes.len()
}

// Whether the byte lies from low to high.
fn is_within(low: u8, high: u8, byte: u8) -> bool
    ensures { result ≡ is_within low high byte }
{
    low <= byte && byte <= high
}

/// The state of a scan of a sequence, after its escape character.
#[derive(Clone, Copy)]
pub(crate) enum State {
    /// No further character was read.
    Start,
    /// In a control sequence, parameters may come.
    Parameters,
    /// In a control sequence, intermediates may come.
    Intermediates,
    /// In a command.
    Command,
    /// In any other sequence.
    Short,
}

// What a character does to a scan of a sequence.
enum Step {
    // The character belongs to the sequence, which goes on.
    Inside(State),
    // This many further characters belong to the sequence, this one included.
    Ends(usize),
}

// A step of a scan.
#[tactic(auto, using(crate::proofs::lemmas::Cuts::steps), unfolding(crate::specs::Escapes::sequence_len))]
fn next_step(state: State, code: u32, precedes_backslash: bool) -> Step
    ensures counts { (t : List ℕ) → precedes_backslash ≡ is_before_backslash t
        → StepCounts result (rest_len state (code ∷ t)) t }
    ensures table { result ≡ step_of state code precedes_backslash }
{
    match state {
        State::Start => match code {
            0x5B => Step::Inside(State::Parameters),
            0x5D => Step::Inside(State::Command),
            _ => short_step(code),
        },
        State::Parameters => parameter_step(code),
        State::Intermediates => final_step(code),
        State::Command => command_step(code, precedes_backslash),
        State::Short => short_step(code),
    }
}

// A step where a parameter may come.
#[tactic(auto, using(crate::proofs::lemmas::Cuts::steps))]
fn parameter_step(code: u32) -> Step
    ensures counts { (t : List ℕ) → StepCounts result (rest_len Parameters (code ∷ t)) t }
    ensures table { result ≡ step_of Parameters code false }
{
    match code {
        0x30..=0x3F => Step::Inside(State::Parameters),
        0x20..=0x2F => Step::Inside(State::Intermediates),
        0x40..=0x7E => Step::Ends(1),
        _ => Step::Ends(0),
    }
}

// A step where an intermediate or the final character may come.
#[tactic(auto, using(crate::proofs::lemmas::Cuts::steps))]
fn final_step(code: u32) -> Step
    ensures counts { (t : List ℕ) → StepCounts result (rest_len Intermediates (code ∷ t)) t }
    ensures table { result ≡ final_step_of code }
{
    match code {
        0x20..=0x2F => Step::Inside(State::Intermediates),
        0x40..=0x7E => Step::Ends(1),
        _ => Step::Ends(0),
    }
}

// A step of a command.
#[tactic(auto, using(crate::proofs::lemmas::Cuts::steps))]
fn command_step(code: u32, precedes_backslash: bool) -> Step
    ensures counts { (t : List ℕ) → precedes_backslash ≡ is_before_backslash t
        → StepCounts result (rest_len Command (code ∷ t)) t }
    ensures table { result ≡ step_of Command code precedes_backslash }
{
    match code {
        0x07 => Step::Ends(1),
        0x1B if precedes_backslash => Step::Ends(2),
        0x00..=0x1F | 0x7F => Step::Ends(0),
        _ => Step::Inside(State::Command),
    }
}

// A step of any other sequence.
#[tactic(auto, using(crate::proofs::lemmas::Cuts::steps))]
fn short_step(code: u32) -> Step
    ensures counts { (t : List ℕ) → StepCounts result (rest_len Short (code ∷ t)) t }
    ensures table { result ≡ short_step_of code }
{
    match code {
        0x20..=0x2F => Step::Inside(State::Short),
        0x30..=0x7E => Step::Ends(1),
        _ => Step::Ends(0),
    }
}

/// The state of a scan of a text between two characters.
#[derive(Clone, Copy)]
pub(crate) enum Mode {
    /// Outside sequences.
    Text,
    /// In a sequence.
    Sequence(State),
    /// In a command, after an escape character. A backslash ends the command.
    Terminator,
}

/// The state of a scan after a character of a sequence; `None` for a character outside sequences. So a text can be
/// scanned in pieces, each from the state after the one before.
pub(crate) fn advance(mode: Mode, c: char) -> Option<Mode>
    ensures { result ≡ advanced mode c }
{
    let state = match mode {
        Mode::Text => return begin(c),
        Mode::Terminator if c == '\\' => return Some(Mode::Text),
        Mode::Terminator => State::Start,
        Mode::Sequence(State::Command) if c == '\x1b' => return Some(Mode::Terminator),
        Mode::Sequence(state) => state,
    };
    match next_step(state, u32::from(c), false) {
        Step::Inside(next) => Some(Mode::Sequence(next)),
        Step::Ends(0) => begin(c),
        Step::Ends(_) => Some(Mode::Text),
    }
}

// The mode after a character that may begin a sequence.
fn begin(c: char) -> Option<Mode>
    ensures { result ≡ advanced Text c }
{
    if c == '\x1b' {
        Some(Mode::Sequence(State::Start))
    } else {
        None
    }
}
