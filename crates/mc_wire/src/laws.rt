//! Laws of base64 keys and of the limits, for clients of this crate.
ghost use Rattle.mc_wire.specs.Base64Key.{Base64IsText};
ghost use Rattle.mc_wire.specs.Limits.{LimitsAre};

/// A word decodes to a key exactly if it is the canonical base64 text of 1 to `DECODED_KEY_LIMIT`
/// bytes.
pub fn base64_is_text()
    ensures { Base64IsText }
{}

/// States the values of this crate's limits.
pub fn limits()
    ensures { LimitsAre }
{}
