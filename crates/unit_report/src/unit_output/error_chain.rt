//! An error and its causes, as text.

ghost use Rattle.{styled_text.specs.Names.flat_map, styled_text.specs.Names.Puts};
ghost use Rattle.{unit_report.specs.ErrorChain.cause_text, unit_report.specs.ErrorChain.error_chain_text};

use run_model::abort::DescriptionText;
use run_model::output::ErrorChain;
use styled_text::text::IndentLater;
use writers::text::{When, WriteText};
use writers::write_str::{WriteFault, WriteStr};

/// The message, and below it each cause on a line of its own.
///
/// ```
/// use writers::text::WriteText;
/// let causes = vec![in alloc; DescriptionText::new(alloc, "no such file")?]?;
/// let chain = ErrorChain::new(alloc, DescriptionText::new(alloc, "cannot spawn")?, causes)?;
/// DisplayErrorChain(&chain).write_to(&mut out)?;
/// assert_eq!(out.as_str(), "cannot spawn\n  caused by:\n  - no such file");
/// ```
#[derive(Clone, Copy, Debug)]
pub struct DisplayErrorChain<'a>(pub &'a ErrorChain);

impl WriteText for DisplayErrorChain<'_> {
    ghost text = { λ c. error_chain_text c.0.now };

    #[tactic(auto, unfolding(crate::specs::ErrorChain::error_chain_text, crate::specs::ErrorChain::causes_text, writers::specs::Texts::plain))]
    fn write_to<W: WriteStr>(&self, w: &mut W) -> Result<(), WriteFault> {
        let causes = self.0.causes();
        let below = When(!causes.is_empty(), ("\n  caused by:", Causes(causes)));
        (self.0.message(), below).write_to(w)
    }
}

#[derive(Clone, Copy)]
struct Causes<'a>(&'a [DescriptionText]);

impl WriteText for Causes<'_> {
    ghost text = { λ c. flat_map cause_text c.0.now };

    fn write_to<W: WriteStr>(&self, w: &mut W) -> Result<(), WriteFault> {
        let Causes(causes) = *self;
        for cause in causes {
            write_cause(w, cause.as_str())?;
        }
        Ok(())
    }
}

// The later lines of a cause are aligned below its first.
#[tactic(auto, unfolding(crate::specs::ErrorChain::cause_text, writers::specs::Texts::plain))]
fn write_cause<W: WriteStr>(w: &mut W, cause: &str) -> Result<(), WriteFault>
    ensures { Puts W.meaning w.old (cause_text cause.now) result w.new }
{
    ("\n  - ", IndentLater("    ", cause)).write_to(w)
}
