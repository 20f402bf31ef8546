//! Questions to texts: their hash codes and their order.

ghost use Rattle.std.specs.Prelude.{◌≡◌, ◌<◌, ◌^◌, ◌-ℤ◌, pos};
ghost use Rattle.std.specs.Int.{int_wrapping_add, int_wrapping_mul, w32};
ghost use Rattle.vx_java.specs.Texts.{hash_of, text_difference};

/// A hash code with one unit more.
fn hash_with(sum: i32, unit: u16) -> i32
    ensures { result ≡ int_wrapping_add w32 (int_wrapping_mul w32 sum (pos 31)) (pos unit) }
{
    sum.wrapping_mul(31).wrapping_add(i32::from(unit))
}

/// The hash code of a text: the sum of each unit times 31 to the power of how many units stand behind it, wrapping.
pub fn hash(units: &[u16]) -> i32
    ensures { result ≡ hash_of units.now }
{
    let mut sum = 0i32;
    for unit in units {
        sum = hash_with(sum, *unit);
    }
    sum
}

fn unit_difference(a: u16, b: u16) -> i64
    ensures { result ≡ pos a -ℤ pos b }
{
    i64::from(a) - i64::from(b)
}

fn length_difference(a: usize, b: usize) -> i64
    requires first { a < 2 ^ 63 }
    requires second { b < 2 ^ 63 }
    ensures { result ≡ pos a -ℤ pos b }
{
    a as i64 - b as i64
}

/// The difference of the first units of two texts that differ, else of their lengths.
#[tactic(auto, using(crate::proofs::Walks::longer, crate::proofs::Walks::differing, crate::proofs::Walks::like, crate::proofs::Walks::at_end))]
pub fn difference(first: &[u16], second: &[u16]) -> i64
    ensures { result ≡ text_difference first.now second.now }
{
    for place in 0..first.len() {
        if place >= second.len() {
            return length_difference(first.len(), place);
        }
        let (a, b) = (first[place], second[place]);
        if a != b {
            return unit_difference(a, b);
        }
    }
    length_difference(first.len(), second.len())
}
