//! How a byte stands in a text or a word: as itself, or as a backslash and two hexadecimal digits.

ghost use Rattle.std.specs.Prelude.{◌≡◌, ◌<◌, IfSome};
ghost use Rattle.vx_value.specs.Words.{hex_digit, is_plain, spelled_byte};
ghost use Rattle.vx_words.specs.Hex.{hex_value};

/// The least byte that stands for itself in a text: the space.
pub const TEXT: u8 = 32;

/// The least byte that stands for itself in a word.
pub const WORD: u8 = 33;

/// The hexadecimal digit of a number in lower case.
fn hex_digit(n: u8) -> u8
    requires { n < 16 }
    ensures { result ≡ hex_digit n }
{
    if n <= 9 { b'0' + n } else { 87 + n }
}

/// The number of a hexadecimal digit in lower case, or `None` where a byte is none.
pub fn hex_value(b: u8) -> Option<u8>
    ensures value { result ≡ hex_value b }
    ensures small { IfSome result (λ n. n < 16) }
{
    match b {
        b'0'..=b'9' => Some(b - b'0'),
        b'a'..=b'f' => Some(b - 87),
        _ => None,
    }
}

/// Whether a byte stands for itself, where the least one that does is given.
pub fn is_plain(least: u8, b: u8) -> bool
    ensures { result ≡ is_plain least b }
{
    least <= b && b <= 126 && b != b'\\'
}

/// How a byte is spelled, where the least one that stands for itself is given. The spelling stands in `room`.
pub fn spelled_byte(least: u8, b: u8, room: &mut [u8; 3]) -> &[u8]
    ensures { result.now ≡ spelled_byte least b }
{
    if is_plain(least, b) {
        *room = [b, 0, 0];
        return &room[..1];
    }
    *room = [b'\\', hex_digit(b / 16), hex_digit(b % 16)];
    &room[..]
}
