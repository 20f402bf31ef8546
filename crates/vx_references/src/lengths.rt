//! The lengths that arrays may have (JVMS 6.5 newarray, anewarray, multianewarray).

ghost use Rattle.std.specs.List.{list_any};
ghost use Rattle.std.specs.Prelude.{◌≡◌, ◌||◌, map, nat_lt};
ghost use Rattle.vx_java.specs.Arrays.{grid_cells};
ghost use Rattle.vx_java.specs.Machine.{length_bound};
ghost use Rattle.vx_value.specs.Arithmetic.{natural, negative};

/// The greatest length of an array, and the most cells that one instruction makes.
const BOUND: u64 = 1_048_576;

/// A length that is not negative, and 0 for a negative one.
fn natural(length: i32) -> u64
    ensures { result ≡ natural length }
{
    if length < 0 { 0 } else { length as u64 }
}

/// Whether a length is above the bound.
pub fn is_long(length: i32) -> bool
    ensures { result ≡ nat_lt length_bound (natural length) }
{
    natural(length) > BOUND
}

/// Whether a length is negative.
pub fn has_negative(lengths: &[i32]) -> bool
    ensures { result ≡ list_any negative lengths.now }
{
    lengths.iter().any(|length| *length < 0)
}

fn has_long(lengths: &[i32]) -> bool
    ensures { result ≡ list_any (λ n. nat_lt length_bound (natural n)) lengths.now }
{
    lengths.iter().any(|length| is_long(*length))
}

/// How many cells an array of these lengths has with its parts, or the greatest number where there are more.
fn cells(lengths: &[i32]) -> u64
    ensures { nat_lt length_bound result ≡ nat_lt length_bound (grid_cells (map natural lengths.now)) }
{
    let mut total = 0u64;
    let count = lengths.len();
    for inner in 0..count {
        let length = natural(lengths[count - 1 - inner]);
        total = length.saturating_add(length.saturating_mul(total));
    }
    total
}

/// Whether a length is above the bound, or there are more cells than the bound in all.
pub fn is_large(lengths: &[i32]) -> bool
    ensures { result ≡ (list_any (nat_lt length_bound) (map natural lengths.now) || nat_lt length_bound (grid_cells (map natural lengths.now))) }
{
    if has_long(lengths) {
        return true;
    }
    cells(lengths) > BOUND
}
