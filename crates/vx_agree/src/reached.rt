//! Places that configurations have come to. Two numbers name a place: how many pieces stand before it, and how many bytes.

ghost use Rattle.std.specs.Prelude.{◌≡◌, ◌<◌, ◌≤◌, true, OnOk, length};
ghost use Rattle.vx_space.specs.Sets.{Extends, IsKnown};
ghost use Rattle.vx_agree.specs.Places.{AreKnownPlaces, IsAtPlace, IsPlaced};

use vx_space::{Space, SpaceFault};

/// The configurations that have come to a place.
#[derive(Clone, Copy)]
pub struct Reached<I> {
    pub piece: usize,
    pub byte: usize,
    pub condition: I,
}

/// Whether an entry stands before a place.
fn is_before<I: Copy>(entry: Reached<I>, piece: usize, byte: usize) -> bool {
    entry.piece < piece || (entry.piece == piece && entry.byte < byte)
}

/// How many of ascending entries stand before a place.
fn place_among<I: Copy>(reached: &[Reached<I>], piece: usize, byte: usize) -> usize
    ensures { result ≤ length reached.now }
{
    let mut low = 0;
    let mut high = reached.len();
    while low < high {
        let middle = low + (high - low) / 2;
        if is_before(reached[middle], piece, byte) {
            low = middle + 1;
        } else {
            high = middle;
        }
    }
    low
}

/// Whether the entry with this index stands at a place.
fn is_at<I: Copy>(reached: &[Reached<I>], index: usize, piece: usize, byte: usize) -> bool
    ensures { result ≡ true → IsAtPlace reached.now index piece byte }
{
    if index >= reached.len() {
        return false;
    }
    let entry = reached[index];
    entry.piece == piece && entry.byte == byte
}

/// Adds configurations to a place. Those that are there already are joined with them.
pub fn put<S: Space>(
    space: &mut S,
    reached: &mut Vec<Reached<S::Id>>,
    piece: usize,
    byte: usize,
    condition: S::Id,
) -> Result<(), SpaceFault>
    requires known { IsKnown (S.sets space.old) condition }
    requires places { AreKnownPlaces (S.sets space.old) reached.old.items }
    ensures extends { Extends (S.sets space.old) (S.sets space.new) }
    ensures placed { OnOk result (IsPlaced (S.sets space.old) (S.sets space.new) piece byte condition reached.old.items reached.new.items) }
{
    if space.is_never(condition) {
        return Ok(());
    }
    let index = place_among(reached.as_slice(), piece, byte);
    if is_at(reached.as_slice(), index, piece, byte) {
        let joined = space.or(reached[index].condition, condition)?;
        reached[index] = Reached {
            piece,
            byte,
            condition: joined,
        };
    } else {
        reached.insert(
            index,
            Reached {
                piece,
                byte,
                condition,
            },
        )?;
    }
    Ok(())
}
