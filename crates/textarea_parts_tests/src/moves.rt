// The written forms of moves, scrolls and modes.
use crate::written::check_forms;
use std::process::Abort;
use textarea_data::cursor::CursorMove;
use textarea_data::scroll::Scrolling;
use textarea_wrap::wrap::WrapMode;

static MOVES: [(CursorMove, &str); 16] = [
    (CursorMove::Forward, r#""Forward""#),
    (CursorMove::Back, r#""Back""#),
    (CursorMove::Up, r#""Up""#),
    (CursorMove::Down, r#""Down""#),
    (CursorMove::Head, r#""Head""#),
    (CursorMove::End, r#""End""#),
    (CursorMove::Top, r#""Top""#),
    (CursorMove::Bottom, r#""Bottom""#),
    (CursorMove::WordForward, r#""WordForward""#),
    (CursorMove::WordEnd, r#""WordEnd""#),
    (CursorMove::WordBack, r#""WordBack""#),
    (CursorMove::ParagraphForward, r#""ParagraphForward""#),
    (CursorMove::ParagraphBack, r#""ParagraphBack""#),
    (CursorMove::Jump(3, 4), r#"{"Jump":[3,4]}"#),
    (CursorMove::Jump(0, 65535), r#"{"Jump":[0,65535]}"#),
    (CursorMove::InViewport, r#""InViewport""#),
];

static NO_MOVES: [&str; 7] = [
    r#""forward""#,
    r#""Backward""#,
    r#""Jump""#,
    r#"{"Jump":[3]}"#,
    r#"{"Jump":[3,4,5]}"#,
    r#"{"Jump":[0,65536]}"#,
    r#"{"Jump":[-1,0]}"#,
];

static SCROLLS: [(Scrolling, &str); 6] = [
    (
        Scrolling::Delta { rows: 1, cols: 2 },
        r#"{"Delta":{"rows":1,"cols":2}}"#,
    ),
    (
        Scrolling::Delta {
            rows: -32768,
            cols: 32767,
        },
        r#"{"Delta":{"rows":-32768,"cols":32767}}"#,
    ),
    (Scrolling::PageDown, r#""PageDown""#),
    (Scrolling::PageUp, r#""PageUp""#),
    (Scrolling::HalfPageDown, r#""HalfPageDown""#),
    (Scrolling::HalfPageUp, r#""HalfPageUp""#),
];

static NO_SCROLLS: [&str; 5] = [
    r#""Page""#,
    r#""Delta""#,
    r#"{"Delta":1}"#,
    r#"{"Delta":{"rows":1}}"#,
    r#"{"Delta":{"rows":32768,"cols":0}}"#,
];

static MODES: [(WrapMode, &str); 4] = [
    (WrapMode::None, r#""None""#),
    (WrapMode::Word, r#""Word""#),
    (WrapMode::Glyph, r#""Glyph""#),
    (WrapMode::WordOrGlyph, r#""WordOrGlyph""#),
];

static NO_MODES: [&str; 4] = ["null", "1", r#""Words""#, r#""none""#];

pub fn check(rt: &(impl Abort + AllocGlobal)) {
    check_forms(rt, &MOVES, &NO_MOVES);
    check_forms(rt, &SCROLLS, &NO_SCROLLS);
    check_forms(rt, &MODES, &NO_MODES);
}
