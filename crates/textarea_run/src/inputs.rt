//! Inputs that are borrowed.
ghost use Rattle.std.specs.Prelude.{◌≡◌};

use textarea_data::input::Input;

/// Returns an input equal to a borrowed one. Allocates nothing.
pub fn copied(input: &Input) -> Input
    ensures { result ≡ input.now }
{
    Input { ..*input }
}
