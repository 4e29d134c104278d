//! Lines of a text.

ghost use Rattle.std.specs.Prelude.{◌≡◌, ◌<◌, ◌++◌, ◌∷◌, length};
ghost use Rattle.styled_text.specs.Lines.{IsOneLine, whole_lines};

use memchr::memchr;

/// The first line of a text, with its line feed if it has one, and what follows it.
///
/// ```
/// assert_eq!(split_line("a\nb\n"), ("a\n", "b\n"));
/// ```
#[tactic(auto, using(crate::proofs::lemmas::Feeds::line_laws))]
pub fn split_line(text: &str) -> (&str, &str)
    requires { 0 < length text.now }
    ensures whole { text.now ≡ result.0.now ++ result.1.now }
    ensures line { IsOneLine result.0.now }
    ensures lines { whole_lines text.now ≡ result.0.now ∷ whole_lines result.1.now }
    ensures shorter { length result.1.now < length text.now }
{
    match memchr(b'\n', text.as_bytes()) {
        Some(place) => text.split_at(place + 1),
        None => text.split_at(text.len()),
    }
}
