//! What a sample stands for.

ghost use Rattle.std.specs.Prelude.{◌≡◌};
ghost use Rattle.mls_model.specs.Samples.{unshifted};

/// How much is added to a signed value to make a shifted value of it.
const SHIFT: i32 = 32_768;

/// The value of a shifted value.
pub fn unshifted(signed: bool, shifted: u16) -> i32
    ensures { result ≡ unshifted signed shifted }
{
    if signed {
        shifted as i32 - SHIFT
    } else {
        shifted as i32
    }
}
