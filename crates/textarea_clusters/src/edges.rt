//! The columns of a line at which a grapheme cluster begins or ends.
ghost use Rattle.std.specs.Prelude.{◌≡◌, ◌<◌, ◌≤◌, ◌+◌, length, take, encode_utf8_all, true, IsCharBoundary};
ghost use Rattle.std.specs.Str.{chars};
ghost use Rattle.unicode_segmentation.specs.Grapheme.{is_grapheme_break};
ghost use Rattle.unicode_segmentation.specs.Segments.{breaks_at};
ghost use Rattle.textarea_clusters.specs.Edges.{HasNoBreak, is_cluster_edge, edge_ahead, edge_back};

use textarea_text::rows::{byte_offset, byte_offset_from, column_count};
use unicode_segmentation::GraphemeCursor;

/// Returns whether a grapheme cluster of the line begins or ends at the column, counted in
/// characters. One does at the line's start and at its end. Reads the characters around the column,
/// and before it only as far as flags, joined emoji or conjuncts go.
pub fn is_cluster_edge(line: &str, column: usize) -> bool
    requires { column ≤ length (chars line.now) }
    ensures { result ≡ is_cluster_edge (chars line.now) column }
{
    is_break(line, byte_offset(line, column))
}

/// The same, given another column with its byte offset; returns the byte offset of the column too.
/// Only the text between the two is walked to count its characters.
pub fn is_cluster_edge_from(line: &str, known: (usize, usize), column: usize) -> (bool, usize)
    requires known { known.0 ≤ length (chars line.now) }
    requires offset { known.1 ≡ length (encode_utf8_all (take known.0 (chars line.now))) }
    requires column { column ≤ length (chars line.now) }
    ensures edge { result.0 ≡ is_cluster_edge (chars line.now) column }
    ensures offset { result.1 ≡ length (encode_utf8_all (take column (chars line.now))) }
{
    let offset = byte_offset_from(line, known, column);
    (is_break(line, offset), offset)
}

/// Returns the last edge of a cluster at or before the column: the column itself, or the start of
/// the cluster that it is inside.
pub fn edge_back(line: &str, column: usize) -> usize
    requires { column ≤ length (chars line.now) }
    ensures { result ≡ edge_back (chars line.now) column }
{
    let offset = byte_offset(line, column);
    if is_break(line, offset) {
        return column;
    }
    let edge = break_before(line, offset);
    column - column_count(&line[edge..offset])
}

/// Returns the first edge of a cluster at or after the column: the column itself, or the end of the
/// cluster that it is inside.
pub fn edge_ahead(line: &str, column: usize) -> usize
    requires { column ≤ length (chars line.now) }
    ensures { result ≡ edge_ahead (chars line.now) column }
{
    let offset = byte_offset(line, column);
    if is_break(line, offset) {
        return column;
    }
    let edge = break_after(line, offset);
    column + column_count(&line[offset..edge])
}

// Returns whether a cluster begins or ends at the byte offset.
fn is_break(line: &str, offset: usize) -> bool
    requires { IsCharBoundary line.now offset }
    ensures { result ≡ breaks_at (is_grapheme_break true) line.now offset }
{
    let mut cursor = GraphemeCursor::new(offset, line.len(), true);
    match cursor.is_boundary(line, 0) {
        Ok(is_break) => is_break,
        Err(_) => unreachable!(),
    }
}

// Returns the last byte offset before this one at which a cluster begins.
fn break_before(line: &str, offset: usize) -> usize
    requires boundary { IsCharBoundary line.now offset }
    requires inside { 0 < offset }
    ensures boundary { IsCharBoundary line.now result }
    ensures before { result < offset }
    ensures is_break { breaks_at (is_grapheme_break true) line.now result ≡ true }
    ensures last { HasNoBreak line.now (result + 1) offset }
{
    let mut cursor = GraphemeCursor::new(offset, line.len(), true);
    match cursor.prev_boundary(line, 0) {
        Ok(Some(before)) => before,
        _ => unreachable!(),
    }
}

// Returns the first byte offset after this one at which a cluster ends.
fn break_after(line: &str, offset: usize) -> usize
    requires boundary { IsCharBoundary line.now offset }
    requires inside { offset < length line.now }
    ensures boundary { IsCharBoundary line.now result }
    ensures after { offset < result }
    ensures is_break { breaks_at (is_grapheme_break true) line.now result ≡ true }
    ensures first { HasNoBreak line.now (offset + 1) result }
{
    let mut cursor = GraphemeCursor::new(offset, line.len(), true);
    match cursor.next_boundary(line, 0) {
        Ok(Some(after)) => after,
        _ => unreachable!(),
    }
}
