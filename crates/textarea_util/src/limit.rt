//! The size limit of a text. It keeps sums of bytes, columns, lines and rows in a machine word.
ghost use Rattle.std.specs.Prelude.{◌≡◌, ◌≤◌, ◌↔◌, IfOk, IsOk};
ghost use Rattle.textarea_util.specs.Limit.{size_limit};

use std::alloc::AllocError;

/// The largest sum of bytes and lines that a text may have. A larger text counts as out of memory.
pub const MAX_SIZE: usize = 0x1_0000_0000_0000;

/// Returns `size`, a text's bytes and lines summed; out of memory if it is above the limit.
pub fn within_limit(size: usize) -> Result<usize, AllocError>
    ensures size { IfOk result (λ same. same ≡ size) }
    ensures limit { IsOk result ↔ (size ≤ size_limit) }
{
    if MAX_SIZE < size {
        return Err(AllocError);
    }
    Ok(size)
}
