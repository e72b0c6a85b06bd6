//! Removals. If text is selected, each of them but `ta_clear` removes only that.
ghost use Rattle.textarea_calls.specs.declared.call.Call.TheVariants as call;
ghost use Rattle.textarea_c.specs.Calls.{Calls, MakesAttempt};

use crate::calls::on;
use crate::handle::Handle;
use std::alloc::Global;
use textarea_c_data::status::flag;

/// Removes the atomic range that ends at the cursor or strictly contains it. Otherwise removes
/// and yanks the text from the start of the word before the cursor, or from the line's start, to
/// the cursor; at column 0 it does what `ta_delete_newline` does.
///
/// Statuses: ok (text was removed), false, out of memory, empty handle.
#[unsafe(no_mangle)]
pub extern "C" fn ta_delete_word(handle: &mut Handle, alloc: Global) -> u32
    ensures { Calls handle.old.stored.content result handle.new.stored.content
        (λ a b. MakesAttempt call.DeleteWord result a b) }
{
    on!(handle, alloc, editor => flag(editor.area.delete_word()))
}

/// Removes the atomic range that starts at the cursor or strictly contains it. Otherwise removes
/// and yanks the text from the cursor to the word's end, or to the line's end; at the line's end
/// it does what `ta_delete_next_char` does.
///
/// Statuses: ok (text was removed), false, out of memory, empty handle.
#[unsafe(no_mangle)]
pub extern "C" fn ta_delete_next_word(handle: &mut Handle, alloc: Global) -> u32
    ensures { Calls handle.old.stored.content result handle.new.stored.content
        (λ a b. MakesAttempt call.DeleteNextWord result a b) }
{
    on!(handle, alloc, editor => flag(editor.area.delete_next_word()))
}
