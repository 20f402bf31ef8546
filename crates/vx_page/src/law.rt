//! The law of escaped texts.

ghost use Rattle.vx_page.specs.Escapes.{PageIsReadBack};

/// The law of escaped texts: whatever its bytes are, an escaped text is read as the text, and nothing in it begins a tag or a
/// comment.
pub fn page_is_read_back()
    ensures { PageIsReadBack }
{}
