//! How a process ended, in words.

ghost use Rattle.std.specs.Prelude.{◌≡◌, ◌<◌, ◌∷◌, [], IfOk, string_bytes};
ghost use Rattle.report_text.specs.Failure.{abort_details, abort_text, abort_words, exit_details, exit_text};
ghost use Rattle.report_text.specs.Failure.{exit_words, hex_digit, last_hex_digits, message_text, nt_status_text};
ghost use Rattle.report_text.specs.Failure.{signal_name_text};
ghost use Rattle.writers.specs.Writer.{Puts};

use itoa::Buffer;
use run_names::abort::{AbortDescription, DescriptionText};
use run_names::memory::OutOfMemory;
use std::alloc::Global;
use writers::text::WriteText;
use writers::write_str::{WriteFault, WriteStr};

/// How a process ended.
#[derive(Debug, Drop)]
pub enum ExitDescription {
    /// With a code.
    Code(i32),
    /// It was terminated by a signal, or by its equivalent on Windows.
    Abort(AbortDescription),
    /// The system does not say.
    Unknown,
}

/// How a process ended.
///
/// ```
/// let text = display_exited_with(alloc, &ExitDescription::Code(3))?;
/// assert_eq!(text.as_str(), "exited with exit code 3");
/// ```
///
/// # Errors
///
/// Memory was refused. [`write_exited_with`] writes the same without allocating.
pub fn display_exited_with(alloc: Global, exit: &ExitDescription) -> Result<String, OutOfMemory>
    ensures { IfOk result (λ text. string_bytes text ≡ exit_text exit.now) }
{
    let mut text = String::new(alloc);
    match write_exited_with(&mut text, exit) {
        Ok(()) => Ok(text),
        Err(_) => Err(OutOfMemory),
    }
}

/// Writes how a process ended.
///
/// ```
/// write_exited_with(&mut out, &ExitDescription::Code(3))?;
/// assert_eq!(out.as_str(), "exited with exit code 3");
/// ```
///
/// # Errors
///
/// The writer's fault. It has accepted a prefix of the text.
#[tactic(auto, unfolding(crate::specs::Failure::exit_text))]
pub fn write_exited_with<W: WriteStr>(w: &mut W, exit: &ExitDescription) -> Result<(), WriteFault>
    ensures { Puts W.meaning w.old (exit_text exit.now) result w.new }
{
    exit_words(exit).write_to(w)?;
    write_exit_details(w, exit)
}

#[tactic(auto, unfolding(crate::specs::Failure::exit_words))]
fn exit_words(exit: &ExitDescription) -> &'static str
    ensures { result.now ≡ exit_words exit.now }
{
    match exit {
        ExitDescription::Code(_) => "exited with exit code ",
        ExitDescription::Abort(_) => "",
        ExitDescription::Unknown => "exited with an unknown error",
    }
}

#[tactic(auto, unfolding(crate::specs::Failure::exit_details))]
fn write_exit_details<W: WriteStr>(w: &mut W, exit: &ExitDescription) -> Result<(), WriteFault>
    ensures { Puts W.meaning w.old (exit_details exit.now) result w.new }
{
    match exit {
        ExitDescription::Code(code) => Buffer::new().format(*code).write_to(w),
        ExitDescription::Abort(abort) => write_abort_status(w, abort),
        ExitDescription::Unknown => Ok(()),
    }
}

/// How a process was ended from outside.
///
/// ```
/// use run_names::abort::AbortDescription;
/// let name = Some(DescriptionText::new(alloc, "SEGV")?);
/// let text = display_abort_status(alloc, &AbortDescription::UnixSignal { signal: 11, name })?;
/// assert_eq!(text.as_str(), "aborted with signal 11 (SIGSEGV)");
/// ```
///
/// # Errors
///
/// Memory was refused. [`write_abort_status`] writes the same without allocating.
pub fn display_abort_status(alloc: Global, abort: &AbortDescription) -> Result<String, OutOfMemory>
    ensures { IfOk result (λ text. string_bytes text ≡ abort_text abort.now) }
{
    let mut text = String::new(alloc);
    match write_abort_status(&mut text, abort) {
        Ok(()) => Ok(text),
        Err(_) => Err(OutOfMemory),
    }
}

/// Writes how a process was ended from outside.
///
/// ```
/// use run_names::abort::AbortDescription;
/// write_abort_status(&mut out, &AbortDescription::UnixSignal { signal: 9, name: None })?;
/// assert_eq!(out.as_str(), "aborted with signal 9");
/// ```
///
/// # Errors
///
/// The writer's fault. It has accepted a prefix of the text.
#[tactic(auto, unfolding(crate::specs::Failure::abort_text))]
pub fn write_abort_status<W: WriteStr>(
    w: &mut W,
    abort: &AbortDescription,
) -> Result<(), WriteFault>
    ensures { Puts W.meaning w.old (abort_text abort.now) result w.new }
{
    abort_words(abort).write_to(w)?;
    write_abort_details(w, abort)
}

#[tactic(auto, unfolding(crate::specs::Failure::abort_words))]
fn abort_words(abort: &AbortDescription) -> &'static str
    ensures { result.now ≡ abort_words abort.now }
{
    match abort {
        AbortDescription::UnixSignal { .. } => "aborted with signal ",
        AbortDescription::WindowsNtStatus { .. } => "aborted with code ",
        AbortDescription::WindowsJobObject => "terminated via job object",
    }
}

#[tactic(auto, unfolding(crate::specs::Failure::abort_details))]
fn write_abort_details<W: WriteStr>(w: &mut W, abort: &AbortDescription) -> Result<(), WriteFault>
    ensures { Puts W.meaning w.old (abort_details abort.now) result w.new }
{
    match abort {
        AbortDescription::UnixSignal { signal, name } => {
            Buffer::new().format(*signal).write_to(w)?;
            write_signal_name(w, name)
        }
        AbortDescription::WindowsNtStatus { code, message } => {
            write_nt_status(w, *code)?;
            write_message(w, message)
        }
        AbortDescription::WindowsJobObject => Ok(()),
    }
}

#[tactic(auto, unfolding(crate::specs::Failure::signal_name_text))]
fn write_signal_name<W: WriteStr>(
    w: &mut W,
    name: &Option<DescriptionText>,
) -> Result<(), WriteFault>
    ensures { Puts W.meaning w.old (signal_name_text name.now) result w.new }
{
    match name {
        None => Ok(()),
        Some(name) => (" (SIG", name.as_str(), ")").write_to(w),
    }
}

#[tactic(auto, unfolding(crate::specs::Failure::message_text))]
fn write_message<W: WriteStr>(
    w: &mut W,
    message: &Option<DescriptionText>,
) -> Result<(), WriteFault>
    ensures { Puts W.meaning w.old (message_text message.now) result w.new }
{
    match message {
        None => Ok(()),
        Some(message) => (": ", message.as_str()).write_to(w),
    }
}

/// Writes a status of Windows as `0x` and eight digits in base 16, in lower case.
///
/// ```
/// write_nt_status(&mut out, -1073741819)?;
/// assert_eq!(out.as_str(), "0xc0000005");
/// ```
///
/// # Errors
///
/// The writer's fault. It has accepted a prefix of the text.
#[tactic(auto, unfolding(crate::specs::Failure::hex_text))]
pub fn write_nt_status<W: WriteStr>(w: &mut W, code: i32) -> Result<(), WriteFault>
    ensures { Puts W.meaning w.old (nt_status_text code) result w.new }
{
    "0x".write_to(w)?;
    write_hex_digits(w, 8, code.cast_unsigned())
}

#[tactic(auto, unfolding(crate::specs::Failure::last_hex_digits))]
fn write_hex_digits<W: WriteStr>(w: &mut W, count: usize, n: u32) -> Result<(), WriteFault>
    ensures { Puts W.meaning w.old (last_hex_digits count n) result w.new }
{
    if count == 0 {
        return Ok(());
    }
    write_hex_digits(w, count - 1, n / 16)?;
    w.write_str(hex_digit_str(n % 16))
}

fn hex_digit_str(digit: u32) -> &'static str
    requires { digit < 16 }
    ensures { result.now ≡ hex_digit digit ∷ [] }
{
    match digit {
        0 => "0",
        1 => "1",
        2 => "2",
        3 => "3",
        4 => "4",
        5 => "5",
        6 => "6",
        7 => "7",
        8 => "8",
        9 => "9",
        10 => "a",
        11 => "b",
        12 => "c",
        13 => "d",
        14 => "e",
        15 => "f",
        _ => unreachable!(),
    }
}
