//! The next line of a text, and the next word of a line.

ghost use Rattle.std.specs.Prelude.{◌≡◌, ◌∷◌, [], ◌<◌, ◌≤◌, length, IfSome, IsNone, ◌↔◌, drop, take_while};
ghost use Rattle.std.specs.List.{list_all, prefix_len, position_or_len};
ghost use Rattle.vx_words.specs.Lines.{lines, words, is_blank, is_plain, is_line_feed, without_return, skip, behind_word};

/// Whether a byte is a blank: a space or a tab.
pub fn is_blank(byte: u8) -> bool
    ensures { result ≡ is_blank byte }
{
    byte == b' ' || byte == b'\t'
}

/// Whether each byte of a text is plain: a tab, or a byte from the space to `~`.
pub fn are_plain(text: &[u8]) -> bool
    ensures { result ≡ list_all is_plain text.now }
{
    text.iter().all(|b| *b == b'\t' || (32 <= *b && *b <= 126))
}

// How many bytes stand before the first line feed.
#[tactic(auto, using(crate::proofs::Parts::run_length, crate::proofs::Parts::run_within))]
fn line_length(text: &[u8]) -> usize
    ensures value { result ≡ position_or_len is_line_feed text.now }
    ensures within { result ≤ length text.now }
{
    text.iter().take_while(|b| **b != b'\n').count()
}

// How many blanks stand in front.
#[tactic(auto, using(crate::proofs::Parts::run_length, crate::proofs::Parts::run_within))]
fn blanks_in_front(line: &[u8]) -> usize
    ensures value { result ≡ prefix_len is_blank line.now }
    ensures within { result ≤ length line.now }
{
    line.iter().take_while(|b| is_blank(**b)).count()
}

// How many bytes stand before the first blank.
#[tactic(auto, using(crate::proofs::Parts::run_length, crate::proofs::Parts::run_within))]
fn word_length(line: &[u8]) -> usize
    ensures value { result ≡ position_or_len is_blank line.now }
    ensures within { result ≤ length line.now }
{
    line.iter().take_while(|b| !is_blank(**b)).count()
}

// A line without the byte 13 at its end.
fn without_return(line: &[u8]) -> &[u8]
    ensures { result.now ≡ without_return line.now }
{
    match line.last() {
        Some(b'\r') => &line[..line.len() - 1],
        _ => line,
    }
}

// What stands behind the first byte.
fn behind_first(text: &[u8]) -> &[u8]
    ensures { result.now ≡ drop 1 text.now }
{
    match text {
        [_, rest @ ..] => rest,
        [] => text,
    }
}

/// The first line of a text and the text behind it, or `None` where the text is empty. Byte 10 ends a line, and a last
/// line without it counts. A byte 13 at a line's end is dropped.
pub fn next_line(text: &[u8]) -> Option<(&[u8], &[u8])>
    ensures none { IsNone result ↔ (text.now ≡ []) }
    ensures some { IfSome result (λ r. lines text.now ≡ r.0.now ∷ lines r.1.now) }
    ensures shorter { IfSome result (λ r. length r.1.now < length text.now) }
{
    if text.is_empty() {
        return None;
    }
    let (line, rest) = text.split_at(line_length(text));
    Some((without_return(line), behind_first(rest)))
}

/// What stands behind the blanks in front of a text.
#[tactic(auto, using(crate::proofs::Parts::run_behind))]
pub fn skip_blanks(text: &[u8]) -> &[u8]
    ensures value { result.now ≡ skip is_blank text.now }
    ensures within { length result.now ≤ length text.now }
{
    let (_, rest) = text.split_at(blanks_in_front(text));
    rest
}

/// The first word of a line and what stands behind it, or `None` where there is no word.
pub fn next_word(line: &[u8]) -> Option<(&[u8], &[u8])>
    ensures none { IsNone result ↔ (words line.now ≡ []) }
    ensures some { IfSome result (λ r. words line.now ≡ r.0.now ∷ words r.1.now) }
    ensures behind { IfSome result (λ r. r.1.now ≡ behind_word line.now) }
    ensures shorter { IfSome result (λ r. length r.1.now < length line.now) }
{
    let text = skip_blanks(line);
    if text.is_empty() {
        return None;
    }
    Some(text.split_at(word_length(text)))
}
