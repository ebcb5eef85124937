//! Pages, written out by hand.

use super::cases::{Case, Extra, Form, held};
use jsx_report::Level;

// Spans and their labels.
const SPANS: &[Case] = &[
    // One span on one line.
    Case {
        files: ("a = a;", ""),
        form: Form::Long,
        level: Level::Error,
        message: "m",
        span: Some((4, 5)),
        extras: &[],
        page: "error: m
 --> x.js:1:5
  |
1 | a = a;
  |     ^

",
    },
    // A span over two lines.
    Case {
        files: ("f(a,\nb);\n", ""),
        form: Form::Long,
        level: Level::Error,
        message: "m",
        span: Some((0, 7)),
        extras: &[Extra::Label((0, 7), "x")],
        page: "error: m
 --> x.js:1:1
  |
1 | / f(a,
2 | | b);
  | |__^ x

",
    },
    // A whole line.
    Case {
        files: ("", "/* @jsxRuntime fast */\nconst x = <a\n  b:c=\"d\"/>;\n"),
        form: Form::Long,
        level: Level::Error,
        message: "Runtime must be either `classic` or `automatic`.",
        span: Some((1, 23)),
        extras: &[],
        page: "error: Runtime must be either `classic` or `automatic`.
 --> input.js:1:1
  |
1 | /* @jsxRuntime fast */
  | ^^^^^^^^^^^^^^^^^^^^^^

",
    },
    // A span that begins behind text.
    Case {
        files: ("", "/* @jsxRuntime fast */\nconst x = <a\n  b:c=\"d\"/>;\n"),
        form: Form::Long,
        level: Level::Error,
        message: "JSX Namespace is disabled by default because react does not support it yet. You can specify jsc.transform.react.throwIfNamespace to false to override default behavior",
        span: Some((34, 48)),
        extras: &[],
        page: "error: JSX Namespace is disabled by default because react does not support it yet. You can specify jsc.transform.react.throwIfNamespace to false to override default behavior
 --> input.js:2:11
  |
2 |   const x = <a
  |  ___________^
3 | |   b:c=\"d\"/>;
  | |___________^

",
    },
    // Labels that have no room beside each other stand below.
    Case {
        files: ("fn foo(x: u32) {", ""),
        form: Form::Long,
        level: Level::Error,
        message: "m",
        span: Some((0, 14)),
        extras: &[
            Extra::Label((0, 14), "outer"),
            Extra::Label((7, 8), "inner"),
        ],
        page: "error: m
 --> x.js:1:1
  |
1 | fn foo(x: u32) {
  | ^^^^^^^-^^^^^^
  | |      |
  | |      inner
  | outer

",
    },
    // One line between two others is shown, and more are left out.
    Case {
        files: ("a\nb\nc\nd\ne\nf\n", ""),
        form: Form::Long,
        level: Level::Error,
        message: "m",
        span: Some((0, 1)),
        extras: &[Extra::Label((4, 5), "x"), Extra::Label((10, 11), "y")],
        page: "error: m
 --> x.js:1:1
  |
1 | a
  | ^
2 | b
3 | c
  | - x
...
6 | f
  | - y

",
    },
    // Another file comes later.
    Case {
        files: ("a = a;", "b = b;"),
        form: Form::Long,
        level: Level::Error,
        message: "m",
        span: Some((4, 5)),
        extras: &[Extra::Label((11, 12), "here")],
        page: "error: m
 --> x.js:1:5
  |
1 | a = a;
  |     ^
  | 
 ::: input.js:1:5
  |
1 | b = b;
  |     - here

",
    },
    // The file of the primary span changes places with the first.
    Case {
        files: ("a = a;", "b = b;"),
        form: Form::Long,
        level: Level::Error,
        message: "m",
        span: Some((11, 12)),
        extras: &[Extra::Label((4, 5), "here")],
        page: "error: m
 --> input.js:1:5
  |
1 | b = b;
  |     ^
  | 
 ::: x.js:1:5
  |
1 | a = a;
  |     - here

",
    },
    // Spans over several lines stand side by side.
    Case {
        files: ("f(\ng(\na)\n)\n", ""),
        form: Form::Long,
        level: Level::Error,
        message: "m",
        span: Some((0, 10)),
        extras: &[
            Extra::Label((0, 10), "outer"),
            Extra::Label((3, 8), "inner"),
        ],
        page: "error: m
 --> x.js:1:1
  |
1 |  / f(
2 |  | g(
  |  |_-
3 | || a)
  | ||__- inner
4 |  | )
  |  |_^ outer

",
    },
    // Of three, two that share no line have their bars in one column. Each of them moves the one around
    // both once, so the column between stays empty.
    Case {
        files: ("f(\ng(\n),\nh(\n)\n)\n", ""),
        form: Form::Long,
        level: Level::Error,
        message: "m",
        span: Some((0, 15)),
        extras: &[
            Extra::Label((0, 15), "f"),
            Extra::Label((3, 7), "g"),
            Extra::Label((9, 13), "h"),
        ],
        page: "error: m
 --> x.js:1:1
  |
1 |   / f(
2 |   | g(
  |  _|_-
3 | | | ),
  | |_|_- g
4 |   | h(
  |  _|_-
5 | | | )
  | |_|_- h
6 |   | )
  |   |_^ f

",
    },
    // Two that share lines have one column where the first of all ends before the later of them begins:
    // that one then moves none.
    Case {
        files: ("a(\n), b(\nx,\nc(\n),\n)\n", ""),
        form: Form::Long,
        level: Level::Error,
        message: "m",
        span: Some((6, 19)),
        extras: &[
            Extra::Label((0, 4), "a"),
            Extra::Label((6, 19), "b"),
            Extra::Label((12, 16), "c"),
        ],
        page: "error: m
 --> x.js:2:4
  |
1 |  / a(
2 |  | ), b(
  |  |_-__^
  | ||_|
  | |  a
3 | |  x,
4 | |  c(
  | |__-
5 | |  ),
  | |__- c
6 | |  )
  | |__^ b

",
    },
    // A label stands below where a span over several lines begins.
    Case {
        files: ("let x = f(\n1,\n2);\n", ""),
        form: Form::Long,
        level: Level::Error,
        message: "m",
        span: Some((8, 16)),
        extras: &[Extra::Label((4, 5), "x")],
        page: "error: m
 --> x.js:1:9
  |
1 |   let x = f(
  |  _____-___^
  | |     |
  | |     x
2 | | 1,
3 | | 2);
  | |__^

",
    },
];

// Headers, notes, and the forms of a page.
const NOTES: &[Case] = &[
    // A label, and a note behind `=`.
    Case {
        files: ("a = a;", ""),
        form: Form::Long,
        level: Level::Error,
        message: "m",
        span: Some((4, 5)),
        extras: &[Extra::Label((0, 1), "x"), Extra::Note("n")],
        page: "error: m
 --> x.js:1:5
  |
1 | a = a;
  | - x ^
  |
  = note: n

",
    },
    // A code stands in brackets.
    Case {
        files: ("a = a;", ""),
        form: Form::Long,
        level: Level::Error,
        message: "m",
        span: Some((4, 5)),
        extras: &[Extra::Code("E1")],
        page: "error[E1]: m
 --> x.js:1:5
  |
1 | a = a;
  |     ^

",
    },
    // A lint does not.
    Case {
        files: ("a = a;", ""),
        form: Form::Long,
        level: Level::Error,
        message: "m",
        span: Some((4, 5)),
        extras: &[Extra::Lint("lint")],
        page: "error: m
 --> x.js:1:5
  |
1 | a = a;
  |     ^

",
    },
    // The short form is a line.
    Case {
        files: ("a = a;", ""),
        form: Form::Short,
        level: Level::Error,
        message: "m",
        span: Some((4, 5)),
        extras: &[Extra::Note("n")],
        page: "x.js:1:5: error: m
",
    },
    // A note with a span is as a report. The further line of a note stands below its message.
    Case {
        files: ("a = a;", "b = b;"),
        form: Form::Long,
        level: Level::Error,
        message: "m",
        span: Some((4, 5)),
        extras: &[Extra::SpanNote((7, 8), "n"), Extra::Help("two\nlines")],
        page: "error: m
 --> x.js:1:5
  |
1 | a = a;
  |     ^
  |
note: n
 --> input.js:1:1
  |
1 | b = b;
  | ^
  = help: two
          lines

",
    },
    // Numbers take the width of the greatest, which is that of a note.
    Case {
        files: ("a\na\na\na\na\na\na\na\na\nb\n", ""),
        form: Form::Long,
        level: Level::Error,
        message: "m",
        span: Some((0, 1)),
        extras: &[Extra::SpanNote((18, 19), "n")],
        page: "error: m
  --> x.js:1:1
   |
1  | a
   | ^
   |
note: n
  --> x.js:10:1
   |
10 | b
   | ^

",
    },
    // The header of a failure note has no word.
    Case {
        files: ("a", ""),
        form: Form::Long,
        level: Level::FailureNote,
        message: "m",
        span: None,
        extras: &[],
        page: "m
",
    },
    // Its last row and what stands before its notes have no line end of their own.
    Case {
        files: ("a", ""),
        form: Form::Long,
        level: Level::FailureNote,
        message: "m",
        span: None,
        extras: &[Extra::Note("n")],
        page: "m  |  = note: n

",
    },
    // Numbers and places may be left out.
    Case {
        files: ("a = a;", ""),
        form: Form::Tested,
        level: Level::Error,
        message: "m",
        span: Some((4, 5)),
        extras: &[],
        page: "error: m
  
   |
LL | a = a;
   |     ^

",
    },
    // Without files the header stands alone.
    Case {
        files: ("a = a;", ""),
        form: Form::WithoutFiles,
        level: Level::Error,
        message: "m",
        span: Some((4, 5)),
        extras: &[],
        page: "error: m

",
    },
];

#[test]
fn pages_of_spans_and_labels(rt: HostRuntime) {
    assert!(rt; held(rt.alloc(), SPANS) == SPANS.len());
}

#[test]
fn pages_of_headers_and_notes(rt: HostRuntime) {
    assert!(rt; held(rt.alloc(), NOTES) == NOTES.len());
}
