// Steps that are made one after another, up to the first that fails.
ghost use Rattle.std.specs.Prelude.{Bool, is_ok};
ghost use Rattle.textarea_files.specs.MadeSteps.{AreMade};

use std::io;

// What makes the steps of a save, or of a write of a journal.
pub(super) trait MakesSteps {
    type Step: Copy;

    // What a step that is made, or that fails, may do: the value before it and after it.
    ghost leads: { Self → Self.Step → Bool → Self → Type 0 };

    fn make(&mut self, step: Self::Step) -> io::Result<()>
        ensures { leads self.old step (is_ok result) self.new };
}

// A step that failed, and why.
#[derive(Drop)]
pub(super) struct FailedStep<S: Drop> {
    pub(super) step: S,
    pub(super) error: io::Error,
}

// Makes steps in order, up to the first that fails, which is returned.
pub(super) fn make_all<M: MakesSteps>(
    maker: &mut M,
    steps: &[M::Step],
) -> Result<(), FailedStep<M::Step>>
    ensures { AreMade M.leads maker.old steps.now result maker.new }
{
    let Some((step, rest)) = steps.split_first() else {
        return Ok(());
    };
    match maker.make(*step) {
        Ok(()) => make_all(maker, rest),
        Err(error) => Err(FailedStep { step: *step, error }),
    }
}
