//! Tests of `lab_text`.

use lab_text::*;

/// Lines end by LF, CR LF or the end of the input; a CR elsewhere is an octet of the line.
const LINES: [(&str, &str); 7] = [
    ("carry a:1\n", "carry a:1"),
    ("carry a:1\r\n", "carry a:1"),
    ("carry a:1", "carry a:1"),
    ("carry a:1\r", "carry a:1\r"),
    ("\r\r\n", "\r"),
    ("\n", ""),
    ("", ""),
];

#[test]
fn lines_lose_their_ends(rt: HostRuntime) {
    for &(line, text) in &LINES {
        assert!(rt; line_text(line.as_bytes()) == text.as_bytes(), "{line:?}");
    }
}
