//! A law of painted frames, the contract of a function that does nothing.
ghost use Rattle.std.specs.Prelude.{ℕ, List, None};
ghost use Rattle.textarea_terminal.specs.Paint.{HasSize, ShowsKnown};
ghost use Rattle.textarea_terminal.specs.PaintLists.{ArePainted, PaintedStep, all_controls, last_frame};
ghost use Rattle.textarea_terminal.specs.Screen.{Terminal, run};

/// After any list of frames, with resets between them, each terminal of the family that has the
/// painter's size shows the last one, whatever it showed and in whatever modes it was.
pub fn frames_are_shown()
    ensures { (columns size : ℕ) (steps : List PaintedStep) (terminal : Terminal)
        → ArePainted columns size None steps → HasSize columns size terminal
        → ShowsKnown columns size (last_frame None steps) (run (all_controls steps) terminal) }
{}
