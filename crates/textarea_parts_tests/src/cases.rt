//! Tables of cases.
use std::alloc::{AllocError, Global};
use std::process::Abort;
use std::test::Fail;

/// Fails the test at the first case that is not met, and prints its index in the table.
pub fn check_each<T, F>(
    rt: &(impl Abort + AllocGlobal),
    cases: &[T],
    mut is_met: F,
) -> Result<(), Fail>
where
    F: FnMut(Global, &T) -> Result<bool, AllocError>,
    requires { F.IsAlwaysCallable is_met }
{
    for (index, case) in cases.iter().enumerate() {
        assert!(rt; is_met(rt.alloc(), case)?, "case {index}");
    }
    Ok(())
}
