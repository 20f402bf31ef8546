//! Texts cut into lines.

ghost use Rattle.std.specs.Prelude.{◌≡◌, ◌<◌, ◌∷◌, ◌++◌, MatchOption};
ghost use Rattle.vx_report_line.specs.LineEnds.{HasNoEnd};

/// The first line of a text without the byte 10 that ends it, and what stands behind that byte; `None` where no byte 10
/// stands in the text.
pub fn first_line(text: &[u8]) -> Option<(&[u8], &[u8])>
    ensures { MatchOption result (HasNoEnd text.now) (λ parts. (text.now ≡ parts.0.now ++ 10 ∷ parts.1.now) × HasNoEnd parts.0.now) }
{
    for (place, byte) in text.iter().enumerate() {
        if *byte == b'\n' {
            return Some((&text[..place], &text[place + 1..]));
        }
    }
    None
}
