//! Carriage returns in a users file.
use cs_inputs::{ReturnNote, first_return};

/// The bytes of a file, and the number of its first line that ends with a carriage return.
struct Row {
    file: &'static [u8],
    wanted: Option<usize>,
}

const ROWS: [Row; 8] = [
    Row {
        file: b"",
        wanted: None,
    },
    Row {
        file: b"1:ann::\n2:bob::\n",
        wanted: None,
    },
    Row {
        file: b"1:ann::\n4:staff:ann:ann,zed\r\n5:bob::\r\n",
        wanted: Some(2),
    },
    Row {
        file: b"\r\n1:ann::\r\n\r\n",
        wanted: Some(1),
    },
    Row {
        file: b"1:a\rnn::",
        wanted: None,
    },
    Row {
        file: b"1:ann::\r",
        wanted: None,
    },
    Row {
        file: b"1:a\rnn::\n\n2:bob::\r\r\n",
        wanted: Some(3),
    },
    Row {
        file: b"1:ann::\n\r2:bob::\n",
        wanted: None,
    },
];

/// A carriage return counts only before a line feed; the first such line is reported.
#[test]
fn the_first_line_that_ends_with_a_carriage_return_is_found(rt: HostRuntime) {
    for row in &ROWS {
        let found = first_return(row.file).map(|note| note.line);
        assert!(rt; found == row.wanted);
    }
}

/// The line that is printed, after `crashfs: `.
#[test]
fn the_line_is_printed_with_its_number(rt: HostRuntime) {
    let note = ReturnNote { line: 12 };
    let text = format!(in rt.alloc(); "{note}").expect(&rt, "memory");
    let wanted = "users line 12 ends with a carriage return, which belongs to its last field";
    assert!(rt; text.as_str() == wanted);
}
