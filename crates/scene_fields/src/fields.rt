//! A line of a scene, taken apart from left to right.

ghost use Rattle.std.specs.Prelude.{◌≡◌, ◌+◌, ◌-◌, ◌++◌, ◌≤◌, ◌%◌, ◌^◌, ◌==◌, ◌&&◌, [], ◌∷◌, MatchOption, MatchResult};
ghost use Rattle.std.specs.Prelude.{None, OnOk, Some, drop, length, nat_le, Ok};
ghost use Rattle.{std.specs.Option.ForSome, std.specs.Option.is_some, scene_fields.specs.Split.split_on};
ghost use Rattle.{scene_fields.specs.Split.field_texts, scene_fields.specs.declared.fault.LineFault.LineFault};
ghost use Rattle.scene_fields.specs.Fields.{IsRightNumber, Noted, Place, ReadsBy, TriesBy, answered, next, next_stored};
ghost use Rattle.scene_fields.specs.Fields.{none_noted, noting, noted_outputs, taken_text, with_noted};

use super::marks::{first_place, marks_from, shift_past};
use super::owned_text::OwnedText;
use super::stored::{PlacedOutput, StoredOutput};
use crate::fault::{LineError, LineFault};
use bytes::BytesMut;
use run_model::memory::OutOfMemory;
use std::alloc::Global;
use std::marker::Model;
use std::mem;

/// A line or an output of at least this many bytes keeps the memory that it was read into. A shorter one is copied.
pub const LARGE: usize = 65_536;

/// Splits a line at its tabs. The fields replace the contents of the list.
///
/// # Errors
///
/// Memory was refused. The list then has some of the fields.
#[tactic(auto, using(crate::proofs::lemmas::Marks::all_left, crate::proofs::lemmas::Marks::none_left))]
pub fn split_fields<'a>(line: &'a str, fields: &mut Vec<&'a str>) -> Result<(), OutOfMemory>
    ensures { OnOk result (field_texts fields.new.items ≡ split_on 9 line.now) }
{
    fields.clear();
    let bytes = line.as_bytes();
    let mut start = 0;
    let mut from = 0;
    while from < bytes.len() {
        let mut tabs = marks_from(b'\t', bytes, from);
        let mut at = from;
        while tabs != 0 {
            let place = first_place(tabs);
            let tab = at + place;
            fields.push(&line[start..tab])?;
            start = tab + 1;
            at = start;
            tabs = shift_past(tabs, place, 1);
        }
        from += 32;
    }
    fields.push(&line[start..])?;
    Ok(())
}

// How many outputs of a line were read, and which of them are stored.
#[derive(Drop)]
struct NotedOutputs {
    outputs: usize,
    stored: Vec<PlacedOutput>,
}

impl Model for NotedOutputs {
    ghost Value = { Noted };

    ghost view = { λ n. record { outputs = n.outputs; stored = n.stored.items } };
}

impl NotedOutputs {
    // Counts an output whose first stream is the field with this number, and notes it if it is stored.
    fn add(&mut self, field: usize, output: Option<StoredOutput>) -> Result<(), OutOfMemory>
        ensures { OnOk result (Some self.new ≡ with_noted output field (Some self.old)) }
    {
        let place = self.outputs;
        // no line has that many outputs
        self.outputs = place.checked_add(1).ok_or(OutOfMemory)?;
        if let Some(output) = output {
            self.stored.push(PlacedOutput {
                place,
                field,
                output,
            })?;
        }
        Ok(())
    }

    // The stored outputs.
    fn into_stored(self) -> Vec<PlacedOutput>
        ensures { result.items ≡ self.stored }
    {
        self.stored
    }
}

/// The fields of a line, which are taken one after the other. Contracts see how many were taken, which are left, and
/// which outputs are stored.
#[derive(Drop)]
pub struct Fields<'a> {
    left: &'a [&'a str],
    // The fields of a large line. Borrowed fields are never followed by owned ones.
    owned: &'a mut [OwnedText],
    // How many fields the line has.
    total: usize,
    // Set for a line whose outputs may be stored. No field of such a line has its own memory.
    noted: Option<NotedOutputs>,
    ghost counted: { length left.now + length owned.now ≤ total × total ≤ 2 ^ 63 },
    ghost borrowed: { ForSome noted (λ _. owned.now ≡ []) },
}

impl<'a> Model for Fields<'a> {
    ghost Value = { Place };

    ghost view = { λ f. record {
      number = f.total - (length f.left.now + length f.owned.now);
      left = field_texts f.left.now ++ f.owned.now;
      noted = f.noted;
    } };
}

impl<'a> Fields<'a> {
    /// The fields of a line, before any is taken.
    pub fn new(fields: &'a [&'a str]) -> Fields<'a>
        ensures { result ≡ record { number = 0; left = field_texts fields.now; noted = None } }
    {
        Fields {
            left: fields,
            owned: &mut [],
            total: fields.len(),
            noted: None,
        }
    }

    /// The fields of a line of a recorded run, before any is taken. Its stored outputs are noted in this list, which is
    /// cleared first.
    pub fn recorded(fields: &'a [&'a str], stored: Vec<PlacedOutput>) -> Fields<'a>
        ensures { result ≡ record { number = 0; left = field_texts fields.now; noted = Some none_noted } }
    {
        let mut stored = stored;
        stored.clear();
        Fields {
            left: fields,
            owned: &mut [],
            total: fields.len(),
            noted: Some(NotedOutputs { outputs: 0, stored }),
        }
    }

    /// The fields of a large line, before any is taken.
    pub fn of_large_line(fields: &'a mut [OwnedText]) -> Fields<'a>
        ensures { result ≡ record { number = 0; left = fields.old; noted = None } }
    {
        Fields {
            left: &[],
            total: fields.len(),
            owned: fields,
            noted: None,
        }
    }

    /// Checks that this many fields are left.
    ///
    /// # Errors
    ///
    /// `WrongNumberOfFields` if another number of fields is left.
    pub fn exactly(&self, count: usize) -> Result<(), LineFault>
        ensures { IsRightNumber (length self.now.left == count) result }
    {
        if self.len() != count {
            return Err(LineFault::WrongNumberOfFields);
        }
        Ok(())
    }

    /// Checks that the fields left are eight and those of one or more attempts, which have eight each.
    ///
    /// # Errors
    ///
    /// `WrongNumberOfFields` if another number of fields is left.
    pub fn with_attempts(&self) -> Result<(), LineFault>
        ensures { IsRightNumber (nat_le 16 (length self.now.left) && (length self.now.left % 8 == 0)) result }
    {
        let count = self.len();
        if count < 16 || count % 8 != 0 {
            return Err(LineFault::WrongNumberOfFields);
        }
        Ok(())
    }

    /// Whether outputs of this line may be stored.
    #[inline(always)]
    pub fn notes_outputs(&self) -> bool
        ensures { result ≡ is_some self.now.noted }
    {
        self.noted.is_some()
    }

    /// The output in the next three fields, its form and two streams, if it is stored and outputs of this line may be.
    ///
    /// ```
    /// let fields = ["comb", "\\@7:7:ee2a98c236301c76", "-"];
    /// assert!(Fields::recorded(&fields, Vec::new(alloc)).next_stored().is_some());
    /// assert!(Fields::new(&fields).next_stored().is_none());
    /// ```
    pub fn next_stored(&self) -> Option<StoredOutput>
        ensures { result ≡ next_stored self.now }
    {
        if self.noted.is_none() {
            return None;
        }
        match self.left {
            [form, first, second, ..] => StoredOutput::read(form, first, second),
            _ => None,
        }
    }

    /// Counts the output that comes next, and notes it if it is stored, provided that outputs of this line may be.
    ///
    /// # Errors
    ///
    /// Memory was refused.
    #[inline(always)]
    pub fn note(&mut self, output: Option<StoredOutput>) -> Result<(), OutOfMemory>
        ensures { OnOk result (self.new ≡ noting output self.old) }
    {
        match &mut self.noted {
            Some(noted) => noted.add(self.total - self.left.len() - self.owned.len() + 2, output),
            None => Ok(()),
        }
    }

    /// The stored outputs that were noted, in order.
    pub fn into_stored(self, alloc: Global) -> Vec<PlacedOutput>
        ensures { result.items ≡ noted_outputs self.entry.noted }
    {
        let noted = self.noted;
        match noted {
            Some(noted) => noted.into_stored(),
            None => Vec::new(alloc),
        }
    }

    /// How many fields are left.
    pub fn len(&self) -> usize
        ensures { result ≡ length self.now.left }
    {
        self.left.len() + self.owned.len()
    }

    /// The fields that are left, up to those that have memory of their own.
    pub fn borrowed(&self) -> &'a [&'a str]
        ensures { self.now.left ≡ field_texts result.now ++ drop (length result.now) self.now.left }
    {
        self.left
    }

    /// Skips the given number of fields.
    pub fn pass(&mut self, count: usize)
        requires { count ≤ length self.old.left }
        ensures number { self.new.number ≡ self.old.number + count }
        ensures left { self.new.left ≡ drop count self.old.left }
        ensures noted { self.new.noted ≡ self.old.noted }
    {
        let here = count.min(self.left.len());
        self.left = &self.left[here..];
        let owned = mem::take(&mut self.owned);
        self.owned = &mut owned[count - here..];
    }

    /// Takes a field.
    ///
    /// # Errors
    ///
    /// `WrongNumberOfFields` if no field is left.
    #[inline(always)]
    pub fn take(&mut self) -> Result<&'a str, LineFault>
        ensures { next self.old ≡ answered (taken_text result) self.new }
    {
        let [field, left @ ..] = self.left else {
            let (field, owned) = first_text(mem::take(&mut self.owned))?;
            self.owned = owned;
            return Ok(field);
        };
        self.left = left;
        Ok(field)
    }

    /// Takes the memory of the next field, if it is a large field of a large line.
    pub fn take_memory(&mut self, alloc: Global) -> Option<BytesMut>
        ensures { MatchOption result (self.new ≡ self.old)
            (λ memory. (next self.old ≡ Ok (memory.items, self.new)) × (2 ≤ length memory.items)) }
    {
        if !self.left.is_empty() {
            return None;
        }
        let owned = mem::take(&mut self.owned);
        let is_large = matches!(owned.first(), Some(field) if field.len() >= LARGE);
        if !is_large {
            self.owned = owned;
            return None;
        }
        let (field, left) = owned.split_first_mut()?;
        self.owned = left;
        Some(field.take_memory(alloc))
    }

    /// The fault for the field that was taken last.
    pub fn bad_field(&self) -> LineFault
        ensures { result ≡ LineFault.BadField self.now.number }
    {
        LineFault::BadField(self.total - self.len())
    }

    /// Takes a field and reads it with a function that returns None for a bad field.
    ///
    /// # Errors
    ///
    /// `WrongNumberOfFields` if no field is left, or `BadField` with the number of the field.
    #[inline(always)]
    pub fn read<T: Drop, F: FnOnce(&'a str) -> Option<T>>(
        &mut self,
        read: F,
    ) -> Result<T, LineFault>
        requires { F.IsAlwaysCallable read }
        ensures { ReadsBy (F.post read) self.old result self.new }
    {
        let field = self.take()?;
        match read(field) {
            Some(value) => Ok(value),
            None => Err(self.bad_field()),
        }
    }

    /// Like [`Fields::read`], with a function that allocates.
    ///
    /// # Errors
    ///
    /// `WrongNumberOfFields` if no field is left, `BadField` with the number of the field, or refused memory.
    #[inline(always)]
    pub fn try_read<T: Drop, F: FnOnce(&'a str) -> Result<Option<T>, OutOfMemory>>(
        &mut self,
        read: F,
    ) -> Result<T, LineError>
        requires { F.IsAlwaysCallable read }
        ensures { TriesBy (λ t value. F.post read t (Ok value)) self.old result self.new }
    {
        let field = self.take()?;
        match read(field)? {
            Some(value) => Ok(value),
            None => Err(LineError::Fault(self.bad_field())),
        }
    }
}

// Splits off the first of these texts.
#[cold]
fn first_text(texts: &mut [OwnedText]) -> Result<(&str, &mut [OwnedText]), LineFault>
    ensures { MatchResult result (λ parts. texts.old ≡ parts.0.now ∷ parts.1.now)
        (λ fault. (texts.old ≡ []) × (fault ≡ LineFault.WrongNumberOfFields)) }
{
    match texts.split_first_mut() {
        Some((text, rest)) => Ok((text.as_str(), rest)),
        None => Err(LineFault::WrongNumberOfFields),
    }
}
