use crate::area::CPadding;
use crate::style::CStyle;

/// A text in one style. `bytes` is the length of the text; the texts of several spans follow one
/// another in one slice.
#[repr(C)]
#[derive(Clone, Copy, Debug, PartialEq, Eq)]
pub struct CSpan {
    pub bytes: usize,
    pub style: CStyle,
}

/// A line of styled text. `spans` is the number of its spans; the spans of several lines follow one
/// another in one slice. The style of the line is under theirs.
#[repr(C)]
#[derive(Clone, Copy, Debug, PartialEq, Eq)]
pub struct CLine {
    pub spans: usize,
    pub style: CStyle,
}

/// A frame around an area: the sides with a border, a set of `TA_BORDER_..`; free rows and columns
/// inside; and its styles. Its title, if it has one, is in the top row. With all bytes zero it is
/// a block with no border, no padding and no title, in empty styles.
#[repr(C)]
#[derive(Clone, Copy, Debug, PartialEq, Eq)]
pub struct CBlock {
    pub borders: u8,
    pub has_title: bool,
    pub padding: CPadding,
    pub style: CStyle,
    pub border_style: CStyle,
    pub title_style: CStyle,
}
