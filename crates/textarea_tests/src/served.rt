// Runs of the program, by its arguments and input.
use crate::texts::{strings, text_of};
use std::io;
use std::io::ErrorKind;
use std::process::Abort;
use std::test::Fail;
use textarea_script::program_arguments::{serve_arguments, serve_bad_arguments};
use textarea_script::streams::{DONE, OUT_OF_MEMORY, UNPARSED};

/// The exit status, the output, the error output, and the unread input.
#[derive(Clone, Copy, Debug, PartialEq, Eq)]
struct End<'a> {
    status: u8,
    output: &'a str,
    errors: &'a str,
    left: &'a str,
}

const EMPTY_TEXT: End<'static> = End {
    status: DONE,
    output: "lines 1\n|\ncursor 0 0\nselection none\n",
    errors: "",
    left: "",
};

const LINE_1: End<'static> = End {
    status: UNPARSED,
    output: "",
    errors: "line 1: not read\n",
    left: "",
};

const LINE_2: End<'static> = End {
    errors: "line 2: not read\n",
    ..LINE_1
};

const LINE_3: End<'static> = End {
    errors: "line 3: not read\n",
    ..LINE_1
};

const NO_TEXT: End<'static> = End {
    status: UNPARSED,
    output: "",
    errors: "not read\n",
    left: "",
};

// The input `ia` is not read at all.
const OTHER_WORDS: End<'static> = End {
    left: "ia",
    ..NO_TEXT
};

// The description, the arguments, the input, and how the run ends.
type Row = (
    &'static str,
    &'static [&'static str],
    &'static [u8],
    End<'static>,
);

static ROWS: [Row; 25] = [
    // No command at all, and empty lines between, before and after commands.
    ("no command", &[], b"", EMPTY_TEXT),
    ("an empty line", &[], b"\n", EMPTY_TEXT),
    (
        "empty lines",
        &[],
        b"\n\ndelete_char\n\nundo\n\n",
        End {
            output: "1 false\n2 false\nlines 1\n|\ncursor 0 0\nselection none\n",
            ..EMPTY_TEXT
        },
    ),
    (
        "a last line without its line feed",
        &[],
        b"insert_char a\nundo\ninsert_char b\nredo",
        End {
            output: "1 ok\n2 true\n3 ok\n4 false\nlines 1\n|b\ncursor 0 1\nselection none\n",
            ..EMPTY_TEXT
        },
    ),
    // A carriage return is part of its line.
    ("carriage returns", &[], b"undo\r\nredo\r\n", LINE_1),
    ("a carriage return", &[], b"insert_char a\r\n", LINE_1),
    // The first line that can't be parsed is reported: no command, or no text; empty lines count.
    (
        "a line behind an empty one",
        &[],
        b"insert_char a\n\nnothing\nundo\n",
        LINE_3,
    ),
    ("no text first", &[], b"undo\n\xff\nnothing", LINE_2),
    ("no command first", &[], b"nothing\n\xff", LINE_1),
    (
        "half a character in a script",
        &[],
        b"undo\nredo\ninsert_char \xe7\x8a\n",
        LINE_3,
    ),
    // No argument runs a script; the only argument `modal`, a session; other arguments, nothing.
    (
        "a script",
        &[],
        b"insert_char i",
        End {
            output: "1 ok\nlines 1\n|i\ncursor 0 1\nselection none\n",
            ..EMPTY_TEXT
        },
    ),
    ("keys as a script", &[], b"ia\x1b", LINE_1),
    (
        "a session",
        &["modal"],
        b"ia\n",
        End {
            output: "mode insert\ntaken 3\nend\nlines 2\n|a\n|\ncursor 1 0\nselection none\n",
            ..EMPTY_TEXT
        },
    ),
    ("no word but an empty one", &[""], b"ia", OTHER_WORDS),
    ("the word with a capital", &["Modal"], b"ia", OTHER_WORDS),
    ("the word with a blank", &["modal "], b"ia", OTHER_WORDS),
    ("the word without its end", &["mode"], b"ia", OTHER_WORDS),
    ("the word twice", &["modal", "modal"], b"ia", OTHER_WORDS),
    (
        "the word and an empty one",
        &["modal", ""],
        b"ia",
        OTHER_WORDS,
    ),
    (
        "an empty word and the word",
        &["", "modal"],
        b"ia",
        OTHER_WORDS,
    ),
    (
        "a command and the word",
        &["insert_char", "i", "modal"],
        b"ia",
        OTHER_WORDS,
    ),
    // Sessions whose input is no UTF-8.
    ("no character in a session", &["modal"], b"\xff", NO_TEXT),
    (
        "half a character in a session",
        &["modal"],
        b"iab\xc3",
        NO_TEXT,
    ),
    (
        "a surrogate in a session",
        &["modal"],
        b"iab\x1bx\xed\xa0\x80",
        NO_TEXT,
    ),
    (
        "a long form in a session",
        &["modal"],
        b"q\xc0\xaf",
        NO_TEXT,
    ),
];

#[test]
fn what_is_read(rt: HostRuntime) -> Result<(), Fail> {
    for row in &ROWS {
        let words = strings(rt.alloc(), row.1)?;
        check(&rt, row, words.as_slice());
        drop(words);
    }
    Ok(())
}

fn check(rt: &(impl Abort + AllocGlobal), row: &Row, words: &[String]) {
    let (about, _, fragment_copies, end) = row;
    let mut reader = *fragment_copies;
    let mut output = Vec::new(rt.alloc());
    let mut errors = Vec::new(rt.alloc());
    let status = serve_arguments(rt.alloc(), words, &mut reader, &mut output, &mut errors);
    let found = End {
        status,
        output: text_of(output.as_slice()),
        errors: text_of(errors.as_slice()),
        left: text_of(reader),
    };
    assert_eq!(rt; found, *end, "{about}: {}", text_of(fragment_copies));
}

#[test]
fn no_words(rt: HostRuntime) -> Result<(), Fail> {
    let mut reported = Vec::new(rt.alloc());
    let refused = io::Error::from(ErrorKind::OutOfMemory);
    assert!(rt; serve_bad_arguments(&refused, &mut reported) == OUT_OF_MEMORY);
    assert!(rt; reported.as_slice() == b"no memory\n".as_slice());
    let mut reported = Vec::new(rt.alloc());
    let no_text = io::Error::from(ErrorKind::InvalidData);
    assert!(rt; serve_bad_arguments(&no_text, &mut reported) == UNPARSED);
    assert!(rt; reported.as_slice() == b"not read\n".as_slice());
    Ok(())
}
