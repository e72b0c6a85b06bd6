// Scripts and sessions over streams that fail.
use crate::broken::{BrokenReader, BrokenWriter};
use crate::texts::{strings, text_of};
use std::process::Abort;
use std::test::Fail;
use textarea_script::program_arguments::serve_arguments;
use textarea_script::streams::{DONE, STREAM_FAILED, UNPARSED};

const SCRIPT: &[u8] = b"insert_char a
insert_newline
set_search_pattern a
search_back false
set_wrap_mode Glyph
measure 2
ranges 0 0 2
set_yank_text b
yank_text
render 0 0 3 2
undo
";

const SCRIPT_PRINTED: &str = "1 ok
2 ok
3 ok
4 true
5 ok
6 2 2 1 65535
7 rejected 0:0..2 ColumnOutOfBounds
8 ok
9 text b
10 ok
11 true
lines 1
|a
cursor 0 1
selection none
screen 2
|a  |
|   |
";

// A character of three bytes is one key.
const KEYS: &[u8] = b"i\xe7\x8a\xacb\n\x1bkA!\x1b0vl";

const KEYS_PRINTED: &str = "mode visual
taken 12
end
lines 2
|\u{72ac}b!
|
cursor 0 1
selection 0 0 0 1
";

/// The arguments, the input, the status, the output and the error output.
struct Row {
    words: &'static [&'static str],
    fragment_copies: &'static [u8],
    status: u8,
    printed: &'static str,
    reported: &'static str,
}

static ROWS: [Row; 4] = [
    Row {
        words: &[],
        fragment_copies: SCRIPT,
        status: DONE,
        printed: SCRIPT_PRINTED,
        reported: "",
    },
    Row {
        words: &["modal"],
        fragment_copies: KEYS,
        status: DONE,
        printed: KEYS_PRINTED,
        reported: "",
    },
    Row {
        words: &[],
        fragment_copies: b"nothing",
        status: UNPARSED,
        printed: "",
        reported: "line 1: not read\n",
    },
    Row {
        words: &["modal"],
        fragment_copies: b"i\xff",
        status: UNPARSED,
        printed: "",
        reported: "not read\n",
    },
];

#[test]
fn streams_that_fail(rt: HostRuntime) -> Result<(), Fail> {
    for row in &ROWS {
        let words = strings(rt.alloc(), row.words)?;
        read_in_segments(&rt, words.as_slice(), row);
        write_in_segments(&rt, words.as_slice(), row);
        drop(words);
    }
    Ok(())
}

// Tries readers that fail at each read in turn, and one that never fails.
fn read_in_segments(rt: &(impl Abort + AllocGlobal), words: &[String], row: &Row) {
    let fragment_copies = row.fragment_copies;
    for (segment, is_interrupted) in [(1, false), (1, true), (7, false), (64, true)] {
        for reads in 0..fragment_copies.len() + 2 {
            let mut reader = BrokenReader::new(fragment_copies, segment, is_interrupted, reads);
            read_from(rt, words, &mut reader, row);
            // One read for each byte, and one that reports the end.
            assert!(rt; segment != 1 || reader.has_failed() == (reads <= fragment_copies.len()));
        }
    }
}

// If a read fails, nothing is printed.
fn read_from(
    rt: &(impl Abort + AllocGlobal),
    words: &[String],
    reader: &mut BrokenReader<'_>,
    row: &Row,
) {
    let mut output = Vec::new(rt.alloc());
    let mut errors = Vec::new(rt.alloc());
    let status = serve_arguments(rt.alloc(), words, reader, &mut output, &mut errors);
    let found = (
        status,
        text_of(output.as_slice()),
        text_of(errors.as_slice()),
    );
    let wanted = match reader.has_failed() {
        true => (STREAM_FAILED, "", ""),
        false => (row.status, row.printed, row.reported),
    };
    assert_eq!(rt; found, wanted);
}

/// The bytes of one write of the output, the number of such writes, and the bytes of error output.
#[derive(Clone, Copy)]
struct Limits {
    segment: usize,
    writes: usize,
    reported: usize,
}

// Tries writers that fail at each write in turn, and at none: for the output, then for the errors.
fn write_in_segments(rt: &(impl Abort + AllocGlobal), words: &[String], row: &Row) {
    let reported = usize::MAX;
    for segment in [1, 7, 64] {
        let all = row.printed.len().div_ceil(segment);
        for writes in 0..all + 2 {
            // One write more than the text needs is left for the flush.
            let is_written = row.printed.is_empty() || writes > all;
            let status = if is_written {
                row.status
            } else {
                STREAM_FAILED
            };
            let limits = Limits {
                segment,
                writes,
                reported,
            };
            write_to(rt, words, row, limits, status);
        }
    }
    // A failing error output changes no status.
    for reported in 0..20 {
        let (segment, writes) = (64, usize::MAX);
        let limits = Limits {
            segment,
            writes,
            reported,
        };
        write_to(rt, words, row, limits, row.status);
    }
}

// Checks that the written bytes are a beginning of the expected ones, even if a write fails.
fn write_to(
    rt: &(impl Abort + AllocGlobal),
    words: &[String],
    row: &Row,
    limits: Limits,
    status: u8,
) {
    let Limits {
        segment,
        writes,
        reported,
    } = limits;
    let mut reader = row.fragment_copies;
    let mut output = BrokenWriter::new(rt.alloc(), segment, writes);
    let mut errors = BrokenWriter::new(rt.alloc(), 1, reported);
    let ended = serve_arguments(rt.alloc(), words, &mut reader, &mut output, &mut errors);
    let found = (ended, output.text(), errors.text());
    let wanted = (
        status,
        beginning(row.printed, writes.saturating_mul(segment)),
        beginning(row.reported, reported),
    );
    assert_eq!(rt;
        found,
        wanted,
        "{writes} writes of {segment} bytes, {reported} told"
    );
}

// Returns the first `count` bytes of a text, or all if there are fewer.
fn beginning(text: &str, count: usize) -> &[u8] {
    let bytes = text.as_bytes();
    &bytes[..count.min(bytes.len())]
}
