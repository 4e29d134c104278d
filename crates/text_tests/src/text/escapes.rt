//! The pieces of a text.

use crate::testing::expect_text;
use std::test::Fail;
use styled_text::escapes::{Piece, pieces, strip};

#[test]
fn hands_out_pieces(rt: HostRuntime) -> Result<(), Fail> {
    let text = "a\x1b[1mb\x1b]0;t\x07\x1bcd";
    let mut marked = String::new(rt.alloc());
    for piece in pieces(text) {
        let parts = match piece {
            Piece::Sequence(sequence) => ["<", sequence, ">"],
            Piece::Stretch(stretch) => ["(", stretch, ")"],
        };
        for part in parts {
            marked.push_str(part)?;
        }
    }
    expect_text(
        &rt,
        marked.as_str(),
        "(a)<\x1b[1m>(b)<\x1b]0;t\x07><\x1bc>(d)",
    );
    expect_text(&rt, strip(rt.alloc(), text)?.as_str(), "abd");
    Ok(())
}
