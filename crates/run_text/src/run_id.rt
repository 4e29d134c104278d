//! The id of a run.

ghost use Rattle.std.specs.Prelude.{◌≡◌, ◌≤◌, length};
ghost use Rattle.{report_words.specs.Parts.paint, run_text.specs.Words.run_id_text, run_text.specs.RunId.id_text};

use run_model::run_id::ShortestRunIdPrefix;
use styled_text::style::Styles;
use styled_text::text::Toned;
use uuid::Uuid;
use writers::text::WriteText;
use writers::write_str::{WriteFault, WriteStr};

/// A run's id, with its unique prefix if that is known.
///
/// ```
/// let run_id = Uuid::from_u128(1);
/// ShownRunId { styles: &styles, unique_prefix: &None, run_id: &run_id }.write_to(&mut out)?;
/// assert_eq!(out.as_str(), "00000000-0000-0000-0000-000000000001");
/// ```
#[derive(Clone, Copy)]
pub struct ShownRunId<'a> {
    /// The styles of its two parts.
    pub styles: &'a Styles,
    /// The prefix that no other run's id has, if it is known.
    pub unique_prefix: &'a Option<ShortestRunIdPrefix>,
    /// The id.
    pub run_id: &'a Uuid,
}

impl WriteText for ShownRunId<'_> {
    ghost text = { λ r. paint r.styles.now (id_text r.unique_prefix.now r.run_id.now) };

    #[tactic(auto, unfolding(crate::specs::RunId::id_text))]
    fn write_to<W: WriteStr>(&self, w: &mut W) -> Result<(), WriteFault> {
        let ShownRunId {
            styles,
            unique_prefix,
            run_id,
        } = *self;
        match unique_prefix {
            None => {
                let mut buffer = Uuid::encode_buffer();
                styles.count.write(w, run_id_str(run_id, &mut buffer))
            }
            Some(known) => {
                let prefix = Toned(styles.run_id_prefix, known.prefix());
                (prefix, Toned(styles.run_id_rest, known.rest())).write_to(w)
            }
        }
    }
}

// The run's id, hyphenated in lower case.
#[tactic(auto, unfolding(crate::specs::Words::run_id_text))]
fn run_id_str<'b>(run_id: &Uuid, buffer: &'b mut [u8]) -> &'b str
    requires { 36 ≤ length buffer.old }
    ensures { result.now ≡ run_id_text run_id.now }
{
    run_id.hyphenated().encode_lower(buffer)
}
