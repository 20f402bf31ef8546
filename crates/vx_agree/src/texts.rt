//! The texts of pieces, byte by byte.

ghost use Rattle.std.specs.Prelude.{◌≡◌, drop};
ghost use Rattle.vx_agree.specs.Equal.{common, common_from};

use vx_report::Piece;
use vx_value::Stream;

/// What stands behind so many bytes.
pub fn behind(text: &[u8], count: usize) -> &[u8]
    ensures { result.now ≡ drop count text.now }
{
    text.get(count..).unwrap_or(&[])
}

/// How many bytes two texts have in common at their front.
fn common(one: &[u8], other: &[u8]) -> usize
    ensures { result ≡ common one.now other.now }
{
    let most = one.len().min(other.len());
    for place in 0..most {
        if one[place] != other[place] {
            return place;
        }
    }
    most
}

/// How many bytes of two pieces are the same from a byte of each on; none where their streams differ.
pub fn common_from(one: &Piece, from: usize, other: &Piece, other_from: usize) -> usize
    ensures { result ≡ common_from one.now from other.now other_from }
{
    match (one.stream, other.stream) {
        (Stream::Out, Stream::Out) | (Stream::Err, Stream::Err) => common(
            behind(one.text.bytes(), from),
            behind(other.text.bytes(), other_from),
        ),
        _ => 0,
    }
}
