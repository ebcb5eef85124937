//! Tokens taken from the front of short texts.

use super::{Ending, Fixed, Leaf, Lexer};
use crate::word::Word;
use jsx_base::BytePos;

fn takes(text: &str, fixed: Fixed) -> bool {
    text.len() < 100 && Lexer::new(text, BytePos(0)).take(fixed)
}

fn leaf(text: &str, leaf: Leaf) -> &str {
    if text.len() >= 100 {
        return "";
    }
    Lexer::new(text, BytePos(0)).leaf(leaf).unwrap_or("")
}

fn is_at_end(text: &str) -> bool {
    text.len() < 100 && Lexer::new(text, BytePos(0)).is_at_end()
}

#[test]
fn takes_marks(rt: HostRuntime) {
    for (text, fixed, want) in &[
        ("const a", Fixed::Word(Word::Const), true),
        ("constant", Fixed::Word(Word::Const), false),
        ("= 1", Fixed::Equals, true),
        ("== 1", Fixed::Equals, false),
        ("=> 1", Fixed::Equals, false),
        ("=> 1", Fixed::Arrow, true),
        ("= > 1", Fixed::Arrow, false),
        ("/* \u{2028} * */ ;", Fixed::Semicolon, true),
        ("// a;", Fixed::Semicolon, false),
        ("// a\u{2028};", Fixed::Semicolon, true),
        ("..a", Fixed::Dot, true),
        ("...a", Fixed::Dot, false),
        (".5", Fixed::Dot, false),
        ("...a", Fixed::Dots, true),
        ("..a", Fixed::Dots, false),
        ("* as a", Fixed::Star, true),
        ("** 1", Fixed::Star, false),
        ("*= 1", Fixed::Star, false),
        ("from 'm'", Fixed::Word(Word::From), true),
        ("functional", Fixed::Word(Word::Function), false),
        ("<a", Fixed::Less, true),
        ("<!-- a", Fixed::Less, false),
        (" />", Fixed::TagSlash, true),
    ] {
        assert!(rt; takes(text, *fixed) == *want, "at {text}");
    }
}

/// Whether a statement begins so, and one that stands in lists alone.
fn heading(text: &str) -> (bool, bool) {
    if text.len() >= 100 {
        return (false, false);
    }
    match Lexer::new(text, BytePos(0)).heading() {
        Some(heading) => (true, heading.is_lexical()),
        None => (false, false),
    }
}

#[test]
fn takes_headings(rt: HostRuntime) {
    for (text, want) in &[
        ("function a() {}", (true, true)),
        ("functional()", (false, false)),
        ("return a", (true, false)),
        ("let a", (true, true)),
        ("var a", (true, false)),
        ("class A {}", (true, true)),
        ("classes()", (false, false)),
        ("export {}", (false, false)),
    ] {
        assert!(rt; heading(text) == *want, "at {text}");
    }
}

fn is_ended(text: &str, ending: Ending) -> bool {
    if text.len() >= 100 {
        return false;
    }
    let mut lexer = Lexer::new(text, BytePos(0));
    lexer.ends(ending);
    lexer.semicolon()
}

#[test]
fn ends_statements(rt: HostRuntime) {
    for (text, ending, want) in &[
        (";", Ending::Expr, true),
        (" a", Ending::Expr, false),
        ("\na", Ending::Expr, true),
        ("\n+ a", Ending::Expr, false),
        ("\n+ a", Ending::Word, true),
        ("\n= 1", Ending::Binding, false),
        ("\na", Ending::Key, true),
        ("\n= 1", Ending::Key, false),
        ("\n(a) {}", Ending::Key, false),
        ("\nfrom 'm'", Ending::List, false),
        ("\nfromage", Ending::List, true),
        ("\n, a", Ending::List, true),
        (" a", Ending::Do, true),
        (" a", Ending::Block, false),
        ("\n+ a", Ending::Block, true),
        ("\n, a", Ending::Block, false),
    ] {
        assert!(rt; is_ended(text, *ending) == *want, "at {text}");
    }
}

#[test]
fn takes_leaves(rt: HostRuntime) {
    for (text, kind, want) in &[
        (
            "\u{FEFF}/* a\n* */ caf\u{E9}1 = 2",
            Leaf::Name,
            "caf\u{E9}1",
        ),
        ("1a", Leaf::Name, ""),
        ("/* a", Leaf::Name, ""),
        ("data-x=", Leaf::JsxName, "data-x"),
        ("1_000.5e-1_0;", Leaf::Num, "1_000.5e-1_0"),
        (".5.", Leaf::Num, ".5"),
        ("0xfF)", Leaf::Num, "0xfF"),
        ("3in []", Leaf::Num, ""),
        ("10n", Leaf::Num, ""),
        ("10n", Leaf::BigInt, "10n"),
        (
            "'\\u{10FFFF}\\x41\\\r\n'b",
            Leaf::Str,
            "'\\u{10FFFF}\\x41\\\r\n'",
        ),
        ("'\\u{110000}'", Leaf::Str, ""),
        ("'a\nb'", Leaf::Str, ""),
        ("/[/]\\/b/g;", Leaf::RegExp, "/[/]\\/b/g"),
        ("/a\n/", Leaf::RegExp, ""),
        ("//a/", Leaf::RegExp, ""),
    ] {
        assert!(rt; leaf(text, *kind) == *want, "at {text}");
    }
}

/// Whether `<` is taken, after a name was looked for in its place.
fn takes_less(text: &str) -> bool {
    if text.len() >= 100 {
        return false;
    }
    let mut lexer = Lexer::new(text, BytePos(0));
    lexer.leaf(Leaf::Name).is_none() && lexer.take(Fixed::Less)
}

#[test]
fn takes_less_where_no_name_is(rt: HostRuntime) {
    for (text, want) in &[
        (" <a", true),
        ("<=a", true),
        ("<<a", true),
        ("<!-- a", false),
        ("/a/", false),
        ("'a'", false),
    ] {
        assert!(rt; takes_less(text) == *want, "at {text}");
    }
}

/// Where a text begins, and a name and an equals sign that it begins with.
fn places(text: &str, start: u32) -> (u32, u32, u32) {
    if text.len() >= 100 || start >= 1000 {
        return (0, 0, 0);
    }
    let mut lexer = Lexer::new(text, BytePos(start));
    let first = lexer.last_place().0;
    lexer.leaf(Leaf::Name);
    let name = lexer.last_place().0;
    lexer.take(Fixed::Equals);
    (first, name, lexer.last_place().0)
}

#[test]
fn places_in_bytes(rt: HostRuntime) {
    for (start, want) in &[(0, (0, 11, 15)), (100, (100, 111, 115))] {
        assert_eq!(rt; places(" /* \u{E9} */\u{A0}\u{E9}a = 1", *start), *want);
    }
}

/// Where a text is given up once a name was taken, and once the next token was looked at.
fn failing_places(text: &str) -> (u32, u32) {
    if text.len() >= 100 {
        return (0, 0);
    }
    let mut lexer = Lexer::new(text, BytePos(0));
    lexer.leaf(Leaf::Name);
    let taken = lexer.failing_place().0;
    lexer.take(Fixed::Semicolon);
    (taken, lexer.failing_place().0)
}

#[test]
fn fails_at_what_was_looked_at(rt: HostRuntime) {
    for (text, want) in &[
        (" a /* \u{E9} */ b", (1, 12)),
        (" a  ", (1, 4)),
        (" a '", (1, 1)),
    ] {
        assert_eq!(rt; failing_places(text), *want);
    }
}

#[test]
fn ends(rt: HostRuntime) {
    for (text, want) in &[
        ("", true),
        (" // a", true),
        ("/* a", false),
        ("/**/", true),
        ("/*/", false),
        ("a", false),
    ] {
        assert!(rt; is_at_end(text) == *want, "at {text}");
    }
}
