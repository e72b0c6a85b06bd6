// Text areas created from lines, and copies of them.
use crate::texts::{are_lines, strings};
use crate::trial::{Trial, succeeds};
use std::alloc::AllocError;
use std::process::Abort;
use std::test::Fail;
use tui_textarea::TextArea;

// The texts of files, with their lines.
static FILES: [(&str, &[&str]); 6] = [
    ("", &[""]),
    ("\n", &[""]),
    ("a", &["a"]),
    ("a\r\nb\n", &["a", "b"]),
    ("\na\n\n", &["", "a", ""]),
    ("a\r", &["a\r"]),
];

// Returns whether the text area has these lines, and returns them as `into_lines`.
fn has_lines(made: Result<TextArea<'_>, AllocError>, wanted: &[&str]) -> Result<bool, AllocError> {
    let area = made?;
    let is_stored = are_lines(area.lines(), wanted);
    let lines = area.into_lines();
    Ok(is_stored && are_lines(lines.as_slice(), wanted))
}

#[test]
fn a_text_area_of_lines(rt: HostRuntime) -> Result<(), Fail> {
    let lines = strings(rt.alloc(), &["a", "b"])?;
    assert!(rt; has_lines(TextArea::new(lines), &["a", "b"])?);
    Ok(())
}

#[test]
fn an_empty_text_area(rt: HostRuntime) -> Result<(), Fail> {
    assert!(rt; has_lines(TextArea::try_default(rt.alloc()), &[""])?);
    Ok(())
}

#[test]
fn a_text_area_of_texts(rt: HostRuntime) -> Result<(), Fail> {
    let made = TextArea::from_strs(rt.alloc(), ["a", "b"].into_iter());
    assert!(rt; has_lines(made, &["a", "b"])?);
    Ok(())
}

#[test]
fn text_areas_of_strings(rt: HostRuntime) -> Result<(), Fail> {
    check_of_strings(&rt, &["x"], &["x"])?;
    check_of_strings(&rt, &[], &[""])
}

fn check_of_strings(
    rt: &(impl Abort + AllocGlobal),
    texts: &[&str],
    wanted: &[&str],
) -> Result<(), Fail> {
    let lines = strings(rt.alloc(), texts)?.into_iter();
    assert!(rt; has_lines(TextArea::from_strings(rt.alloc(), lines), wanted)?);
    Ok(())
}

#[test]
fn text_areas_of_files(rt: HostRuntime) -> Result<(), Fail> {
    for (text, wanted) in &FILES {
        assert!(rt; has_lines(TextArea::from_text(rt.alloc(), text), wanted)?);
    }
    Ok(())
}

#[test]
fn a_copy_is_independent(rt: HostRuntime) -> Result<(), Fail> {
    assert!(rt; succeeds(rt.alloc(), Trial::Copy)?);
    Ok(())
}

/// Returns whether a copy keeps its text and pattern when the original changes.
pub fn copy_is_independent(area: &mut TextArea<'_>) -> Result<bool, AllocError> {
    area.insert_char('c')?;
    let is_set = area.set_search_pattern("c").is_ok();
    Ok(is_set && copy_and_change(area)?)
}

fn copy_and_change(area: &mut TextArea<'_>) -> Result<bool, AllocError> {
    let copy = area.clone()?;
    let is_independent = change_beside(area, &copy);
    drop(copy);
    is_independent
}

fn change_beside(area: &mut TextArea<'_>, copy: &TextArea<'_>) -> Result<bool, AllocError> {
    let is_undone = area.undo()? && area.set_search_pattern("").is_ok();
    Ok(is_undone && is_so(area, "", None) && is_so(copy, "c", Some("c")))
}

// Returns whether the text is this line, and the pattern this one.
fn is_so(area: &TextArea<'_>, line: &str, pattern: Option<&str>) -> bool {
    are_lines(area.lines(), &[line]) && area.search_pattern() == pattern
}
