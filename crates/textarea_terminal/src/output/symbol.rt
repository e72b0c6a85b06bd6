//! The texts of cells, which mostly are one byte long.
ghost use Rattle.std.specs.Prelude.{◌≡◌, ◌++◌, ◌↔◌, OnOk, IsTrue};

use std::alloc::AllocError;

/// Whether two texts are equal. Compares texts of one byte without a call that compares memory.
#[inline]
pub(super) fn is_same_symbol(a: &str, b: &str) -> bool
    ensures { IsTrue result ↔ (a.now ≡ b.now) }
{
    match (a.as_bytes(), b.as_bytes()) {
        ([a], [b]) => *a == *b,
        _ => a == b,
    }
}

/// Writes the bytes of a text.
pub(super) fn write_symbol(bytes: &mut Vec<u8>, symbol: &str) -> Result<(), AllocError>
    ensures { OnOk result (bytes.new.items ≡ bytes.old.items ++ symbol.now) }
{
    match symbol.as_bytes() {
        [only] => bytes.push(*only)?,
        all => bytes.extend_from_slice(all)?,
    }
    Ok(())
}
