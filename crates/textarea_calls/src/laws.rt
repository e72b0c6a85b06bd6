//! Laws of the two key tables. Each is the contract of a function that does nothing.

ghost use Rattle.textarea_calls.specs.Keys.{keys_with_shortcuts, keys_without_shortcuts};
ghost use Rattle.textarea_calls.specs.Table.{HasFlagsOfActions, HasNoOverlap};

/// Each input belongs to at most one case of each table.
pub fn rows_do_not_overlap()
    ensures with_shortcuts { HasNoOverlap keys_with_shortcuts }
    ensures without_shortcuts { HasNoOverlap keys_without_shortcuts }
{}

/// The result in each case is that of its action, by [`crate::Action::answer`].
pub fn flags_are_of_actions()
    ensures with_shortcuts { HasFlagsOfActions keys_with_shortcuts }
    ensures without_shortcuts { HasFlagsOfActions keys_without_shortcuts }
{}
