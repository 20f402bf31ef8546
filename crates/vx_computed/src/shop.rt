//! A larger program.

ghost use Rattle.vx_computed.specs.Shop.{ShopReport};

/// A larger program in its 48 configurations: objects, arrays, exceptions, texts and a switch over strings. The
/// sets of the report are those of its nodes.
pub fn shop_run()
    // Its pieces and ends.
    ensures { ShopReport }
{}
