//! Suggestions, written out by hand.

use super::cases::{Case, Extra, Form, held};
use jsx_report::Level;

const SUGGESTIONS: &[Case] = &[
    // A suggestion becomes a label.
    Case {
        files: ("a = a;", ""),
        form: Form::Long,
        level: Level::Error,
        message: "m",
        span: Some((4, 5)),
        extras: &[Extra::Way((4, 5), "use", "b")],
        page: "error: m
 --> x.js:1:5
  |
1 | a = a;
  |     ^ help: use: `b`

",
    },
    // Its message alone where its code is not to be shown.
    Case {
        files: ("a = a;", ""),
        form: Form::Long,
        level: Level::Error,
        message: "m",
        span: Some((4, 5)),
        extras: &[Extra::ShortWay((4, 5), "use", "b")],
        page: "error: m
 --> x.js:1:5
  |
1 | a = a;
  |     ^ help: use

",
    },
    // A message of ten words is no label.
    Case {
        files: ("a = a;", ""),
        form: Form::Long,
        level: Level::Error,
        message: "m",
        span: Some((4, 5)),
        extras: &[Extra::Way((4, 5), "1 2 3 4 5 6 7 8 9 10", "b")],
        page: "error: m
 --> x.js:1:5
  |
1 | a = a;
  |     ^
help: 1 2 3 4 5 6 7 8 9 10
  |
1 | a = b;
  |     ^

",
    },
    // Two texts, of which one is to be written.
    Case {
        files: ("a = a;", ""),
        form: Form::Long,
        level: Level::Error,
        message: "m",
        span: Some((4, 5)),
        extras: &[Extra::Ways((4, 5), &["b", "c"])],
        page: "error: m
 --> x.js:1:5
  |
1 | a = a;
  |     ^
help: use
  |
1 | a = b;
  |     ^
1 | a = c;
  |     ^

",
    },
    // Four are shown, and how many others there are.
    Case {
        files: ("a = a;", ""),
        form: Form::Long,
        level: Level::Error,
        message: "m",
        span: Some((4, 5)),
        extras: &[Extra::Ways((4, 5), &["b", "c", "d", "e", "f", "g"])],
        page: "error: m
 --> x.js:1:5
  |
1 | a = a;
  |     ^
help: use
  |
1 | a = b;
  |     ^
1 | a = c;
  |     ^
1 | a = d;
  |     ^
1 | a = e;
  |     ^
and 2 other candidates

",
    },
    // Six lines of a text are shown.
    Case {
        files: ("a = a;", ""),
        form: Form::Long,
        level: Level::Error,
        message: "m",
        span: Some((4, 5)),
        extras: &[Extra::Way((4, 5), "use", "1\n2\n3\n4\n5\n6\n7")],
        page: "error: m
 --> x.js:1:5
  |
1 | a = a;
  |     ^
help: use
  |
1 | a = 1
2 | 2
3 | 3
4 | 4
5 | 5
6 | 6
...

",
    },
    // The dots that say that lines are left stand in the row of the next text.
    Case {
        files: ("a = a;", ""),
        form: Form::Long,
        level: Level::Error,
        message: "m",
        span: Some((4, 5)),
        extras: &[Extra::Ways((4, 5), &["1\n2\n3\n4\n5\n6\n7", "b"])],
        page: "error: m
 --> x.js:1:5
  |
1 | a = a;
  |     ^
help: use
  |
1 | a = 1
2 | 2
3 | 3
4 | 4
5 | 5
6 | 6
1.| a = b;
  |     ^

",
    },
    // A text of several lines, and one that is its snippet, have a bar in place of marks.
    Case {
        files: ("a = a;", ""),
        form: Form::Long,
        level: Level::Error,
        message: "m",
        span: Some((0, 6)),
        extras: &[Extra::Ways((0, 6), &["b =\n  a;", " b = a;"])],
        page: "error: m
 --> x.js:1:1
  |
1 | a = a;
  | ^^^^^^
help: use
  |
1 | b =
2 |   a;
  |
1 |  b = a;
  |

",
    },
    // The blanks before a snippet have no marks; a tab among them is one column.
    Case {
        files: ("a = a;", ""),
        form: Form::Long,
        level: Level::Error,
        message: "m",
        span: Some((4, 5)),
        extras: &[Extra::Ways((4, 5), &["  bc ", "\td"])],
        page: "error: m
 --> x.js:1:5
  |
1 | a = a;
  |     ^
help: use
  |
1 | a =   bc ;
  |       ^^
1 | a =     d;
  |      ^

",
    },
    // The message alone where parts overlap.
    Case {
        files: ("a = a;", ""),
        form: Form::Long,
        level: Level::Error,
        message: "m",
        span: Some((4, 5)),
        extras: &[Extra::Parts(&[((0, 3), "x"), ((2, 5), "y")])],
        page: "error: m
 --> x.js:1:5
  |
1 | a = a;
  |     ^
help: write

",
    },
    // Or where one is outside all files.
    Case {
        files: ("a = a;", ""),
        form: Form::Long,
        level: Level::Error,
        message: "m",
        span: Some((4, 5)),
        extras: &[Extra::Parts(&[((0, 1), "x"), ((90, 91), "y")])],
        page: "error: m
 --> x.js:1:5
  |
1 | a = a;
  |     ^
help: write

",
    },
    // The further lines of a message stand in the rows below, in which the bar and the lines of the text
    // are drawn too.
    Case {
        files: ("a = a;", ""),
        form: Form::Long,
        level: Level::Error,
        message: "m",
        span: Some((4, 5)),
        extras: &[Extra::Way((4, 5), "use\nthis\nnow", "1\n2")],
        page: "error: m
 --> x.js:1:5
  |
1 | a = a;
  |     ^
help: use
  |             this
1 |             nowa = 1
2 | 2;
  |

",
    },
    // Texts that are written together. The marks of each are moved by what earlier ones added.
    Case {
        files: ("f(a, b)", ""),
        form: Form::Long,
        level: Level::Error,
        message: "m",
        span: Some((0, 1)),
        extras: &[Extra::Parts(&[((5, 6), "y"), ((2, 3), "long"), ((1, 1), "")])],
        page: "error: m
 --> x.js:1:1
  |
1 | f(a, b)
  | ^
help: write
  |
1 | f(long, y)
  | --^^^^  ^

",
    },
];

#[test]
fn pages_of_suggestions(rt: HostRuntime) {
    assert!(rt; held(rt.alloc(), SUGGESTIONS) == SUGGESTIONS.len());
}
