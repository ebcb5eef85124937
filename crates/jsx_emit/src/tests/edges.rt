//! Pages of one span at the edges: tabs, wide characters, empty lines, and spans without width.

use super::cases::{Case, Extra, Form, held};
use jsx_report::Level;

const EDGES: &[Case] = &[
    // A tab is four cells.
    Case {
        files: ("\ta = b;", ""),
        form: Form::Long,
        level: Level::Error,
        message: "tab",
        span: Some((1, 2)),
        extras: &[],
        page: "error: tab
 --> x.js:1:2
  |
1 |     a = b;
  |     ^

",
    },
    // A wide character is two cells.
    Case {
        files: ("世 = b;", ""),
        form: Form::Long,
        level: Level::Error,
        message: "wide",
        span: Some((6, 7)),
        extras: &[],
        page: "error: wide
 --> x.js:1:5
  |
1 | 世 = b;
  |      ^

",
    },
    // A combining character is none.
    Case {
        files: ("e\u{301} = b;", ""),
        form: Form::Long,
        level: Level::Error,
        message: "combining",
        span: Some((6, 7)),
        extras: &[],
        page: "error: combining
 --> x.js:1:6
  |
1 | e\u{301} = b;
  |     ^

",
    },
    // An empty line has no blank behind its bar.
    Case {
        files: ("f(\n\nb);", ""),
        form: Form::Long,
        level: Level::Error,
        message: "an empty line",
        span: Some((0, 6)),
        extras: &[],
        page: "error: an empty line
 --> x.js:1:1
  |
1 | / f(
2 | |
3 | | b);
  | |__^

",
    },
    // A span of no width has one caret.
    Case {
        files: ("a = b;", ""),
        form: Form::Long,
        level: Level::Error,
        message: "no width",
        span: Some((4, 4)),
        extras: &[],
        page: "error: no width
 --> x.js:1:5
  |
1 | a = b;
  |     ^

",
    },
    // One that ends at the begin of a line has no underscore under it.
    Case {
        files: ("ab\ncd", ""),
        form: Form::Long,
        level: Level::Error,
        message: "the end is in column 0",
        span: Some((0, 3)),
        extras: &[],
        page: "error: the end is in column 0
 --> x.js:1:1
  |
1 | / ab
2 | | cd
  | |_

",
    },
    // Lines in the middle are left out.
    Case {
        files: ("a\nb\nc\nd\ne\nf\ng\nh\ni\n", ""),
        form: Form::Long,
        level: Level::Error,
        message: "nine lines",
        span: Some((0, 17)),
        extras: &[],
        page: "error: nine lines
 --> x.js:1:1
  |
1 | / a
2 | | b
3 | | c
4 | | d
... |
8 | | h
9 | | i
  | |_^

",
    },
    // Seven lines are shown.
    Case {
        files: ("a\nb\nc\nd\ne\nf\ng\nh\ni\n", ""),
        form: Form::Long,
        level: Level::Error,
        message: "seven lines",
        span: Some((0, 13)),
        extras: &[],
        page: "error: seven lines
 --> x.js:1:1
  |
1 | / a
2 | | b
3 | | c
4 | | d
5 | | e
6 | | f
7 | | g
  | |_^

",
    },
    // Six lines are shown.
    Case {
        files: ("a\nb\nc\nd\ne\nf\ng\nh\ni\n", ""),
        form: Form::Long,
        level: Level::Error,
        message: "six lines",
        span: Some((2, 13)),
        extras: &[],
        page: "error: six lines
 --> x.js:2:1
  |
2 | / b
3 | | c
4 | | d
5 | | e
6 | | f
7 | | g
  | |_^

",
    },
    // White space before the span.
    Case {
        files: ("  f(\n  b);", ""),
        form: Form::Long,
        level: Level::Error,
        message: "white space before the first place",
        span: Some((2, 9)),
        extras: &[],
        page: "error: white space before the first place
 --> x.js:1:3
  |
1 | /   f(
2 | |   b);
  | |____^

",
    },
    // Ends out of order, and a message of two lines with a tab.
    Case {
        files: ("a = b;", ""),
        form: Form::Long,
        level: Level::Error,
        message: "two\n\tlines",
        span: Some((5, 4)),
        extras: &[],
        page: "error: two
    lines
 --> x.js:1:5
  |
1 | a = b;
  |     ^

",
    },
    // A span inside of a character, and an empty message.
    Case {
        files: ("世 = b;", ""),
        form: Form::Long,
        level: Level::Error,
        message: "",
        span: Some((1, 2)),
        extras: &[],
        page: "error: 
 --> x.js:1:1
  |
1 | 世 = b;
  | ^

",
    },
];

#[test]
fn pages_at_the_edges(rt: HostRuntime) {
    assert!(rt; held(rt.alloc(), EDGES) == EDGES.len());
}
