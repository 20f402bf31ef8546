//! Decimal numbers.

ghost use Rattle.std.specs.Prelude.{◌≡◌, ◌≤◌, ◌+◌, ◌-◌, ◌*◌, min, IfSome};
ghost use Rattle.std.specs.Option.{option_map};
ghost use Rattle.vx_words.specs.Decimal.{decimal, is_decimal, is_digit};
ghost use Rattle.std.specs.List.{list_all};

fn are_digits(word: &[u8]) -> bool
    ensures { result ≡ list_all is_digit word.now }
{
    word.iter().all(|b| b.is_ascii_digit())
}

// Whether a word is a decimal number without leading zeros.
fn is_decimal(word: &[u8]) -> bool
    ensures { result ≡ is_decimal word.now }
{
    match word {
        [] => false,
        [first, rest @ ..] => are_digits(word) && (*first != b'0' || rest.is_empty()),
    }
}

/// The decimal number without leading zeros that a word spells, or `None` where it spells none. A number above `cap`
/// gives `cap`.
pub fn decimal_up_to(word: &[u8], cap: u64) -> Option<u64>
    ensures value { result ≡ option_map (min cap) (decimal word.now) }
    ensures within { IfSome result (λ n. n ≤ cap) }
{
    if !is_decimal(word) {
        return None;
    }
    let mut number = 0;
    for digit in word {
        number = capped(number, *digit, cap);
    }
    Some(number)
}

// One more digit behind a number.
fn capped(number: u64, digit: u8, cap: u64) -> u64
    ensures { result ≡ min cap (10 * number + (digit - 48)) }
{
    let next = 10 * u128::from(number) + u128::from(digit.saturating_sub(b'0'));
    next.min(u128::from(cap)) as u64
}
