//! Replaces items of a vector without allocating.
ghost use Rattle.std.specs.Prelude.{◌≡◌, ◌+◌, ◌-◌, ◌≤◌, ◌++◌, length, take, drop, vec_len, vec_capacity};
ghost use Rattle.textarea_util.specs.Replaced.{replaced};

/// Replaces the `count` items from `start` on by those of `new`. Items are swapped as long as both
/// have some, so a replacement by the same number of items moves no other item.
pub fn replace_items<T: Drop>(items: &mut Vec<T>, start: usize, count: usize, mut new: Vec<T>)
    requires within { start + count ≤ vec_len items.old }
    requires room { vec_len items.old + vec_len new ≤ vec_capacity items.old + count }
    ensures items { items.new.items ≡ replaced items.old.items start count new.items }
    ensures len { vec_len items.new + count ≡ vec_len items.old + vec_len new }
    ensures capacity { vec_capacity items.old ≤ vec_capacity items.new }
{
    let shared = count.min(new.len());
    swap_segments(items, start, &mut new, shared);
    remove_segment(&mut new, 0, shared);
    if shared < count {
        remove_segment(items, start + shared, start + count);
    } else if !new.is_empty() {
        let below = items.len() - (start + shared);
        let _ = items.append(&mut new);
        move_to_end(items, start + shared, below);
    }
}

// Swaps the `count` items from `start` on with the first `count` items of `new`.
fn swap_segments<T>(items: &mut Vec<T>, start: usize, new: &mut Vec<T>, count: usize)
    requires within { start + count ≤ vec_len items.old }
    requires there { count ≤ vec_len new.old }
    ensures items { items.new.items
        ≡ replaced items.old.items start count (take count new.old.items) }
    ensures rest { drop count new.new.items ≡ drop count new.old.items }
    ensures len { vec_len items.new ≡ vec_len items.old }
    ensures new_len { vec_len new.new ≡ vec_len new.old }
    ensures capacity { vec_capacity items.new ≡ vec_capacity items.old }
{
    swap_slices(items.as_mut_slice(), start, new.as_mut_slice(), count);
}

fn swap_slices<T>(items: &mut [T], start: usize, new: &mut [T], count: usize)
    requires within { start + count ≤ length items.old }
    requires there { count ≤ length new.old }
    ensures items { items.new ≡ replaced items.old start count (take count new.old) }
    ensures rest { drop count new.new ≡ drop count new.old }
{
    items[start..start + count].swap_with_slice(&mut new[..count]);
}

fn remove_segment<T: Drop>(items: &mut Vec<T>, start: usize, end: usize)
    requires ordered { start ≤ end }
    requires within { end ≤ vec_len items.old }
    ensures items { items.new.items ≡ take start items.old.items ++ drop end items.old.items }
    ensures len { vec_len items.new + (end - start) ≡ vec_len items.old }
    ensures capacity { vec_capacity items.new ≡ vec_capacity items.old }
{
    drop(items.drain(start..end));
}

// Moves the `count` items from `start` on to the end.
fn move_to_end<T>(items: &mut Vec<T>, start: usize, count: usize)
    requires { start + count ≤ vec_len items.old }
    ensures items { items.new.items
        ≡ take start items.old.items
        ++ (drop (start + count) items.old.items ++ take count (drop start items.old.items)) }
    ensures len { vec_len items.new ≡ vec_len items.old }
    ensures capacity { vec_capacity items.new ≡ vec_capacity items.old }
{
    items.as_mut_slice()[start..].rotate_left(count);
}
