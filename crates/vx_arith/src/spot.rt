//! Where an instruction stands.

ghost use Rattle.std.specs.Prelude.{◌≡◌, ◌+◌, ◌<◌};

use vx_group_states::Site;

/// Where an instruction stands: the code of the method, the place of the opcode there, and the length of the instruction.
#[derive(Drop)]
pub struct Spot<'c> {
    pub code: &'c [u8],
    pub position: u32,
    /// In bytes.
    pub size: u32,
    ghost short: { position + size < 65536 },
}

/// The spot of an instruction at a position.
pub fn spot_at<'p>(site: &Site<'p>, position: u32) -> Spot<'p>
    requires { position + site.now.size < 65536 }
    ensures code { result.code.now ≡ site.now.code.now.bytes }
    ensures position { result.position ≡ position }
    ensures size { result.size ≡ site.now.size }
{
    Spot {
        code: site.code.bytes.as_slice(),
        position,
        size: site.size,
    }
}
