//! The grapheme clusters of a line.
ghost use Rattle.std.specs.Prelude.{◌≡◌, ℕ, ◌<◌, ◌≤◌, ◌++◌, [], length, true, All, IfSome, MatchOption, map, get_or, nat_le, ◌||◌};
ghost use Rattle.textarea_paint.specs.Prelude.{graphemes, in_style, line_view, row_clusters, IsPrintable, is_printable, plain_count, singles};
ghost use Rattle.textarea_paint.specs.LineClusters.{IsClusterRun, rest_clusters, run_clusters};
ghost use Rattle.std.specs.Iterator.{YieldsFirstBy, item_count};
ghost use Rattle.unicode_segmentation.specs.Iter.{graphemes_left};

use super::columns::cluster_columns;
use super::letters::split_letters;
use super::units::split_units;
use std::slice;
use textarea_screen::screen::{Line, Span, Style};
use unicode_segmentation::{Graphemes, UnicodeSegmentation};

/// A grapheme cluster and its style: the span's style over the line's.
#[derive(Clone, Copy)]
pub(crate) struct StyledCluster<'a> {
    pub(crate) text: &'a str,
    pub(crate) style: Style,
}

/// The clusters that a run has.
#[derive(Clone, Copy)]
pub(crate) enum RunKind {
    One,
    /// Each character is printable ASCII and a cluster.
    Plain,
    /// Each character is a letter and a cluster.
    Letters,
    /// Each unit is a cluster, and has this number of bytes.
    Units(usize),
}

/// Clusters of a line that follow each other in one style, of the same number of columns each.
#[derive(Clone, Copy)]
pub(crate) struct ClusterRun<'a> {
    pub(crate) text: &'a str,
    pub(crate) style: Style,
    /// The columns of each of the clusters.
    pub(crate) columns: usize,
    pub(crate) kind: RunKind,
}

/// The rest of a span's text. It is split into clusters once it begins with one that isn't found
/// without a table.
#[derive(Drop)]
enum SpanRest<'a> {
    Text(&'a str),
    Clusters(Graphemes<'a>),
}

impl<'a> SpanRest<'a> {
    /// Returns the next clusters, or `None` at the end: one, or at most `most` plain ones,
    /// letters or units.
    fn next_run(&mut self, most: usize, style: Style) -> Option<ClusterRun<'a>>
        requires { 0 < most }
        ensures steps { MatchOption result
            ((rest_clusters self.old ≡ []) × (rest_clusters self.new ≡ []))
            (λ run. map (in_style style) (rest_clusters self.old)
            ≡ run_clusters run ++ map (in_style style) (rest_clusters self.new)) }
        ensures run { IfSome result (IsClusterRun most) }
    {
        match self {
            SpanRest::Text(text) => {
                if let Some((run, after)) = split_run(text, most, style) {
                    *text = after;
                    return Some(run);
                }
                if text.is_empty() {
                    return None;
                }
                let mut texts = text.graphemes(true);
                let run = next_split(&mut texts, style);
                *self = SpanRest::Clusters(texts);
                run
            }
            SpanRest::Clusters(texts) => next_split(texts, style),
        }
    }
}

/// An iterator over the clusters of a line, span after span.
#[derive(Drop)]
pub(crate) struct LineClusters<'a, 'b> {
    base: Style,
    style: Style,
    rest: SpanRest<'a>,
    spans: slice::Iter<'a, Span<'b>>,
}

impl<'a, 'b> LineClusters<'a, 'b> {
    ghost use Rattle.textarea_paint.specs.LineClusters.{clusters_left};
    ghost use Rattle.textarea_paint.specs.DrawnText.{spans_clusters};
    ghost use Rattle.textarea_screen.specs.Text.{span_view};

    /// Returns an iterator over the clusters of a line, whose style is patched over `style`.
    pub(crate) fn new(line: &'a Line<'b>, style: Style) -> LineClusters<'a, 'b>
        ensures { clusters_left result ≡ row_clusters style (line_view line.now) }
    {
        let base = style.patch(line.style);
        LineClusters::of_spans(line.spans.as_slice(), base)
    }

    /// Returns an iterator over the clusters of spans, whose styles are patched over `style`.
    pub(crate) fn of_spans(spans: &'a [Span<'b>], style: Style) -> LineClusters<'a, 'b>
        ensures { clusters_left result ≡ spans_clusters style (map span_view spans.now) }
    {
        LineClusters {
            base: style,
            style,
            rest: SpanRest::Text(""),
            spans: spans.iter(),
        }
    }

    /// Returns the next clusters, or `None` at the end: one, or at most `most` plain ones,
    /// letters or units.
    pub(crate) fn next_run(&mut self, most: usize) -> Option<ClusterRun<'a>>
        requires { 0 < most }
        ensures steps { MatchOption result
            ((clusters_left self.old ≡ []) × (clusters_left self.new ≡ []))
            (λ run. clusters_left self.old ≡ run_clusters run ++ clusters_left self.new) }
        ensures run { IfSome result (IsClusterRun most) }
    {
        loop {
            let style = self.style;
            if let Some(run) = self.rest.next_run(most, style) {
                return Some(run);
            }
            let span = self.spans.next()?;
            self.style = self.base.patch(span.style);
            self.rest = SpanRest::Text(span.content.as_str());
        }
    }
}

impl<'a, 'b> Iterator for LineClusters<'a, 'b> {
    ghost use Rattle.textarea_paint.specs.LineClusters.{clusters_left, styled_cluster};

    type Item = StyledCluster<'a>;

    ghost next_gives = { YieldsFirstBy styled_cluster clusters_left };

    ghost remaining = { item_count clusters_left };

    #[tactic(auto, using(crate::proofs::ClusterLemmas::one_cluster))]
    fn next(&mut self) -> Option<StyledCluster<'a>> {
        let run = self.next_run(1)?;
        Some(StyledCluster {
            text: run.text,
            style: run.style,
        })
    }
}

/// Returns the next of these clusters, or `None` at the end.
fn next_split<'a>(texts: &mut Graphemes<'a>, style: Style) -> Option<ClusterRun<'a>>
    ensures steps { MatchOption result
        ((graphemes_left texts.old ≡ []) × (graphemes_left texts.new ≡ []))
        (λ run. map (in_style style) (graphemes_left texts.old)
        ≡ run_clusters run ++ map (in_style style) (graphemes_left texts.new)) }
    ensures run { (most : ℕ) → 0 < most → IfSome result (IsClusterRun most) }
{
    let text = texts.next()?;
    Some(ClusterRun {
        text,
        style,
        columns: cluster_columns(text),
        kind: RunKind::One,
    })
}

/// Splits clusters that are found without a table off the start of a text: at most `most` plain ones,
/// letters or units.
#[tactic(auto, using(crate::proofs::ClusterLemmas::plain_run, crate::proofs::ClusterLemmas::letters_run))]
fn split_run<'a>(text: &'a str, most: usize, style: Style) -> Option<(ClusterRun<'a>, &'a str)>
    requires { 0 < most }
    ensures steps { IfSome result (λ parts. map (in_style style) (graphemes true text.now)
        ≡ run_clusters parts.0 ++ map (in_style style) (graphemes true parts.1.now)) }
    ensures run { IfSome result (λ parts. IsClusterRun most parts.0) }
{
    if let Some((text, after)) = split_plain(text, most) {
        let run = ClusterRun {
            text,
            style,
            columns: 1,
            kind: RunKind::Plain,
        };
        return Some((run, after));
    }
    if let Some(letters) = split_letters(text, most) {
        let run = ClusterRun {
            text: letters.text,
            style,
            columns: letters.columns,
            kind: RunKind::Letters,
        };
        return Some((run, letters.after));
    }
    let (units, bytes) = split_units(text, most)?;
    let run = ClusterRun {
        text: units.text,
        style,
        columns: units.columns,
        kind: RunKind::Units(bytes),
    };
    Some((run, units.after))
}

/// Splits printable ASCII off the start of a text, at most `most` characters. Each of them is a
/// cluster by itself, and they are found without a table.
fn split_plain<'a>(text: &'a str, most: usize) -> Option<(&'a str, &'a str)>
    ensures clusters { IfSome result (λ parts.
        graphemes true text.now ≡ singles parts.0.now ++ graphemes true parts.1.now) }
    ensures printable { IfSome result (λ parts. All IsPrintable parts.0.now) }
    ensures some { IfSome result (λ parts. 0 < length parts.0.now) }
    ensures most { IfSome result (λ parts. length parts.0.now ≤ most) }
{
    let count = plain_count(text.as_bytes(), most);
    if count == 0 {
        None
    } else {
        text.split_at_checked(count)
    }
}

/// Returns the number of characters, at most `most`, with which a text of these bytes begins and of
/// which each is printable ASCII with no other character after it than printable ASCII.
fn plain_count(bytes: &[u8], most: usize) -> usize
    ensures { result ≡ plain_count most bytes.now }
{
    let end = bytes.len().min(most);
    for at in 0..end {
        if !is_printable(bytes[at]) {
            return at.saturating_sub(1);
        }
    }
    if is_plain_at(bytes, end) {
        end
    } else {
        end.saturating_sub(1)
    }
}

/// Returns whether the byte at an index is printable ASCII, or the text ends before it.
fn is_plain_at(bytes: &[u8], index: usize) -> bool
    ensures { result ≡ (nat_le (length bytes.now) index || is_printable (get_or bytes.now index 0)) }
{
    bytes.len() <= index || is_printable(bytes[index])
}

fn is_printable(byte: u8) -> bool
    ensures { result ≡ is_printable byte }
{
    32 <= byte && byte < 127
}
