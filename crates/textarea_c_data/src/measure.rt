ghost use Rattle.std.specs.Prelude.{◌≡◌};
ghost use Rattle.textarea_c_data.specs.Measures.{measure_of_numbers};

use textarea_data::measure::TextAreaMeasure;

/// Measured heights, in screen rows: those of the text, or of the placeholder if that is drawn; the
/// height of the whole area that shows it, from `min_rows` to `max_rows`; and these two, which are
/// the heights that are set, or more if the block needs more.
#[repr(C)]
#[derive(Clone, Copy, Debug, PartialEq, Eq)]
pub struct Measure {
    pub content_rows: u16,
    pub preferred_rows: u16,
    pub min_rows: u16,
    pub max_rows: u16,
}

impl Measure {
    pub fn of(measure: TextAreaMeasure) -> Measure
        ensures { measure_of_numbers result ≡ measure }
    {
        Measure {
            content_rows: measure.content_rows,
            preferred_rows: measure.preferred_rows,
            min_rows: measure.min_rows,
            max_rows: measure.max_rows,
        }
    }
}
