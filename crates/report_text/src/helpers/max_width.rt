//! A test that is cut to a greatest width.
//!
//! The iteration of a stress run, the counter and the binary's id come first, in this order, and are cut at their
//! ends. The name gets the columns that are left, and is cut at its beginning.

ghost use Rattle.std.specs.Prelude.{◌<◌, ◌^◌, ◌∷◌, []};
ghost use Rattle.styled_text.specs.Names.{FitsWidth, columns, shrunk_parts, Puts};
ghost use Rattle.report_text.specs.Instance.{HasPlainWords, counter_prefix, id_prefix, test_name_text, stress_prefix};

use crate::helpers::instance::{CounterPart, DisplayTestName, IdPart, StressPart};
use styled_text::fitting::{count_columns, write_back, write_front};
use writers::write_str::{WriteFault, WriteStr};

/// Writes the parts, cut to the given number of columns together.
pub(super) fn write_within<W: WriteStr>(
    w: &mut W,
    stress: &StressPart<'_>,
    counter: &CounterPart<'_>,
    id: &IdPart<'_>,
    name: &DisplayTestName<'_>,
    width: usize,
) -> Result<(), WriteFault>
    requires { columns (test_name_text name.now.styles name.now.name.now) < 2 ^ 127 }
    ensures text { Puts W.meaning w.old
        (shrunk_parts
        (stress_prefix stress.now.0.now stress.now.1.now ∷ counter_prefix counter.now.0.now
        ∷ id_prefix id.now.0.now id.now.1.now ∷ [])
        (test_name_text name.now.styles name.now.name.now) width)
        result w.new }
    ensures law { HasPlainWords counter.now.0.now id.now.1.now name.now.name.now
        → FitsWidth width
        (stress_prefix stress.now.0.now stress.now.1.now ∷ counter_prefix counter.now.0.now
        ∷ id_prefix id.now.0.now id.now.1.now ∷ [])
        (test_name_text name.now.styles name.now.name.now) }
{
    let room = width as u128;
    let stress_width = count_columns(stress);
    let counter_width = count_columns(counter);
    let id_width = count_columns(id);
    let name_width = count_columns(name);
    write_front(w, stress, stress_width, room)?;
    let room = room.saturating_sub(stress_width);
    write_front(w, counter, counter_width, room)?;
    let room = room.saturating_sub(counter_width);
    write_front(w, id, id_width, room)?;
    let room = room.saturating_sub(id_width);
    write_back(w, name, name_width, room)
}
