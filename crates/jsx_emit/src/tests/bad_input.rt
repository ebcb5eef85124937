//! Spans that are in no file or out of order, and texts that break a page.

use super::cases::{Case, Extra, Form, held};
use jsx_report::Level;

const BAD_INPUT: &[Case] = &[
    // Ends out of order over two lines.
    Case {
        files: ("f(a,\nb);\n", ""),
        form: Form::Long,
        level: Level::Error,
        message: "m",
        span: Some((7, 0)),
        extras: &[],
        page: "error: m
 --> x.js:1:1
  |
1 | / f(a,
2 | | b);
  | |__^

",
    },
    // An end inside of a character is the begin of that character.
    Case {
        files: ("a世b", ""),
        form: Form::Long,
        level: Level::Error,
        message: "m",
        span: Some((0, 2)),
        extras: &[],
        page: "error: m
 --> x.js:1:1
  |
1 | a世b
  | ^

",
    },
    // So is a begin.
    Case {
        files: ("a世b", ""),
        form: Form::Long,
        level: Level::Error,
        message: "m",
        span: Some((2, 4)),
        extras: &[],
        page: "error: m
 --> x.js:1:2
  |
1 | a世b
  |  ^^

",
    },
    // Outside all files the header stands alone.
    Case {
        files: ("a", ""),
        form: Form::Long,
        level: Level::Error,
        message: "m",
        span: Some((90, 91)),
        extras: &[Extra::Note("n")],
        page: "error: m
  |
  = note: n

",
    },
    // So it does where the end alone is outside all files.
    Case {
        files: ("a = a;", ""),
        form: Form::Long,
        level: Level::Error,
        message: "m",
        span: Some((4, 90)),
        extras: &[],
        page: "error: m

",
    },
    // Or in another file.
    Case {
        files: ("a = a;", "b = b;"),
        form: Form::Long,
        level: Level::Error,
        message: "m",
        span: Some((4, 8)),
        extras: &[],
        page: "error: m

",
    },
    // A label outside all files is not shown.
    Case {
        files: ("a = a;", ""),
        form: Form::Long,
        level: Level::Error,
        message: "m",
        span: Some((4, 5)),
        extras: &[Extra::Label((90, 91), "x")],
        page: "error: m
 --> x.js:1:5
  |
1 | a = a;
  |     ^

",
    },
    // The header of a note stands alone where its span is outside all files.
    Case {
        files: ("a = a;", ""),
        form: Form::Long,
        level: Level::Error,
        message: "m",
        span: Some((4, 5)),
        extras: &[Extra::SpanNote((90, 91), "n")],
        page: "error: m
 --> x.js:1:5
  |
1 | a = a;
  |     ^
  |
note: n

",
    },
    // Zero width and wide characters, a tab and a line end in a message.
    Case {
        files: ("a = a;", ""),
        form: Form::Long,
        level: Level::Error,
        message: "\u{200b}世\t!\nnext",
        span: Some((4, 5)),
        extras: &[],
        page: "error: \u{200b}世    !
next
 --> x.js:1:5
  |
1 | a = a;
  |     ^

",
    },
    // The same in a label: each character is a cell.
    Case {
        files: ("a = a;", ""),
        form: Form::Long,
        level: Level::Error,
        message: "m",
        span: Some((4, 5)),
        extras: &[Extra::Label((4, 5), "\u{200b}世\t!\nnext")],
        page: "error: m
 --> x.js:1:5
  |
1 | a = a;
  |     ^ \u{200b}世    !
next

",
    },
    // A label without text is none.
    Case {
        files: ("a = a;", ""),
        form: Form::Long,
        level: Level::Error,
        message: "m",
        span: Some((4, 5)),
        extras: &[Extra::Label((4, 5), "")],
        page: "error: m
 --> x.js:1:5
  |
1 | a = a;
  |     ^

",
    },
    // Messages without text.
    Case {
        files: ("a = a;", ""),
        form: Form::Long,
        level: Level::Error,
        message: "",
        span: Some((4, 5)),
        extras: &[Extra::Note("")],
        page: "error: 
 --> x.js:1:5
  |
1 | a = a;
  |     ^
  |
  = note: 

",
    },
];

#[test]
fn pages_of_bad_input(rt: HostRuntime) {
    assert!(rt; held(rt.alloc(), BAD_INPUT) == BAD_INPUT.len());
}
