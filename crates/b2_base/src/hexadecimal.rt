//! Hexadecimal digits.
ghost use Rattle.std.specs.Prelude.{◌≡◌, [], ◌∷◌, IfOk, string_bytes};
ghost use Rattle.b2_base.specs.Hexadecimals.{hexadecimal};

use crate::fault::OutOfMemory;
use std::alloc::Global;

#[tactic(auto, using(std::proofs::lemmas::Fmt::hex_byte))]
fn pair_of(alloc: Global, byte: u8) -> Result<String, OutOfMemory>
    ensures { IfOk result (λ pair. string_bytes pair ≡ hexadecimal (byte ∷ [])) }
{
    Ok(format!(in alloc; "{byte:02x}")?)
}

/// Two lower-case hexadecimal digits for each byte.
pub fn hexadecimal(alloc: Global, bytes: &[u8]) -> Result<String, OutOfMemory>
    ensures { IfOk result (λ digits. string_bytes digits ≡ hexadecimal bytes.now) }
{
    let mut digits = String::new(alloc);
    for byte in bytes {
        let pair = pair_of(alloc, *byte)?;
        digits.push_str(pair.as_str())?;
    }
    Ok(digits)
}
