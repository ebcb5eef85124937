//! Tables of tokens, written by hand from ECMA-262 section 12 and the JSX specification.

use crate::{Lexer, Mode, Token, TokenKind, comments};
use jsx_base::{BytePos, Comment, CommentKind};
use std::alloc::{AllocError, Global};
use std::process::Abort;

/// What is wanted of the first token: mode, kind, place, raw text, whether a line ends before it, and the place behind.
type Row<'s> = (&'s str, Mode, TokenKind, usize, &'s str, bool, usize);

fn is_row(row: Row) -> bool {
    let (text, mode, kind, at, raw, new_line, behind) = row;
    let mut lexer = Lexer::new(text);
    match lexer.next(mode) {
        Some(token) => {
            token.kind == kind
                && token.at == at
                && token.raw == raw
                && token.new_line == new_line
                && lexer.at() == behind
        }
        None => false,
    }
}

/// Whether no token begins, and the lexer stays.
fn is_none(text: &str, mode: Mode) -> bool {
    let mut lexer = Lexer::new(text);
    lexer.next(mode).is_none() && lexer.at() == 0
}

/// The kind of a token, where it begins, and whether a line ends before it.
fn parts(token: Token) -> (TokenKind, usize, bool) {
    (token.kind, token.at, token.new_line)
}

/// The second token, behind one of code.
fn second(text: &str, mode: Mode) -> Option<(TokenKind, usize, bool)> {
    let mut lexer = Lexer::new(text);
    lexer.next(Mode::Operator)?;
    Some(parts(lexer.next(mode)?))
}

/// Texts that begin with a token of this kind, and that token.
fn assert_all_are(rt: &impl Abort, mode: Mode, kind: TokenKind, rows: &[(&str, &str)]) {
    for (text, raw) in rows {
        assert!(rt;
            is_row((text, mode, kind, 0, raw, false, raw.len())),
            "at {text}"
        );
    }
}

/// Texts that begin with a token, and its kind and text.
fn assert_kinds(rt: &impl Abort, mode: Mode, rows: &[(&str, TokenKind, &str)]) {
    for (text, kind, raw) in rows {
        assert!(rt;
            is_row((text, mode, *kind, 0, raw, false, raw.len())),
            "at {text}"
        );
    }
}

/// The same in a mode for each.
fn assert_modes(rt: &impl Abort, rows: &[(&str, Mode, TokenKind, &str)]) {
    for (text, mode, kind, raw) in rows {
        assert!(rt;
            is_row((text, *mode, *kind, 0, raw, false, raw.len())),
            "at {text}"
        );
    }
}

/// Texts that begin with a gap: the token, where it begins, whether a line ends before it, and the place behind.
fn assert_behind_gaps(rt: &impl Abort, kind: TokenKind, rows: &[(&str, &str, usize, bool, usize)]) {
    for (text, raw, at, new_line, behind) in rows {
        assert!(rt;
            is_row((text, Mode::Operator, kind, *at, raw, *new_line, *behind)),
            "at {text}"
        );
    }
}

/// Texts that begin with no token.
fn assert_none(rt: &impl Abort, mode: Mode, texts: &[&str]) {
    for text in texts {
        assert!(rt; is_none(text, mode), "at {text}");
    }
}

/// The same in a mode for each.
fn assert_none_in_modes(rt: &impl Abort, rows: &[(&str, Mode)]) {
    for (text, mode) in rows {
        assert!(rt; is_none(text, *mode), "at {text}");
    }
}

#[test]
fn reads_numbers(rt: HostRuntime) {
    assert_all_are(
        &rt,
        Mode::Operator,
        TokenKind::NumericLiteral,
        &[
            ("1..x", "1."),
            ("1_0", "1_0"),
            ("0", "0"),
            ("0.", "0."),
            ("0.5;", "0.5"),
            (".5.", ".5"),
            ("1.5e-1_0)", "1.5e-1_0"),
            ("1e5+1", "1e5"),
            ("1E+5", "1E+5"),
            ("0XfF)", "0XfF"),
            ("0b1_0", "0b1_0"),
            ("0O17", "0O17"),
            ("9_000.000_1", "9_000.000_1"),
            ("0e0", "0e0"),
        ],
    );
}

#[test]
fn reads_big_integers(rt: HostRuntime) {
    assert_all_are(
        &rt,
        Mode::Operator,
        TokenKind::BigIntLiteral,
        &[
            ("1n", "1n"),
            ("0n;", "0n"),
            ("1_0n", "1_0n"),
            ("0xFn", "0xFn"),
            ("0b1n", "0b1n"),
            ("0o7n", "0o7n"),
        ],
    );
}

#[test]
fn reads_strings(rt: HostRuntime) {
    assert_all_are(
        &rt,
        Mode::Operator,
        TokenKind::StringLiteral,
        &[
            ("\"\\u{10FFFF}\";", "\"\\u{10FFFF}\""),
            ("\"\\0\"", "\"\\0\""),
            ("'\\x41\\u0041\\u{0041}'", "'\\x41\\u0041\\u{0041}'"),
            ("'\\a\\'\\\\'b", "'\\a\\'\\\\'"),
            ("'a\u{2028}b'", "'a\u{2028}b'"),
            ("'a\u{2029}'", "'a\u{2029}'"),
            ("'''", "''"),
            ("\"'\"", "\"'\""),
            ("'\\\n'", "'\\\n'"),
            ("'\\\r\n'x", "'\\\r\n'"),
            ("'\\\r'", "'\\\r'"),
            ("'\\u{0000000041}'", "'\\u{0000000041}'"),
            ("'\\0a'", "'\\0a'"),
            ("'\u{1F600}'", "'\u{1F600}'"),
            ("'\\\u{2028}'", "'\\\u{2028}'"),
        ],
    );
}

#[test]
fn reads_names(rt: HostRuntime) {
    assert_all_are(
        &rt,
        Mode::Operator,
        TokenKind::IdentifierName,
        &[
            ("a b", "a"),
            ("$(", "$"),
            ("_x1", "_x1"),
            ("if (", "if"),
            ("caf\u{E9}=", "caf\u{E9}"),
            ("a\u{301}b;", "a\u{301}b"),
            ("\u{20000}x", "\u{20000}x"),
            ("a\u{200D}b", "a\u{200D}b"),
            ("a\u{200C}", "a\u{200C}"),
            ("\u{3C0}*", "\u{3C0}"),
            ("a-b", "a"),
            ("a\u{2028}b", "a"),
            ("x\\u0061", "x"),
        ],
    );
}

#[test]
fn reads_gaps(rt: HostRuntime) {
    assert_behind_gaps(
        &rt,
        TokenKind::IdentifierName,
        &[
            (
                " \t\u{B}\u{C}\u{A0}\u{FEFF}\u{3000}\u{2003}\u{1680}\u{202F}\u{205F}a",
                "a",
                24,
                false,
                25,
            ),
            ("\r\na", "a", 2, true, 3),
            ("\ra", "a", 1, true, 2),
            ("\u{2028}a", "a", 3, true, 4),
            (" \u{2029} a", "a", 5, true, 6),
            ("// a\u{2028}b", "b", 7, true, 8),
            ("//\n//\nb", "b", 6, true, 7),
            ("/* a */b*/", "b", 7, false, 8),
            ("/* a \n */b", "b", 9, true, 10),
            ("/*\u{2029}*/ b", "b", 8, true, 9),
            ("/**/a*/", "a", 4, false, 5),
            ("/***/a", "a", 5, false, 6),
            ("/* /* */a", "a", 8, false, 9),
            ("/*/*/a", "a", 5, false, 6),
            ("/*//*/a", "a", 6, false, 7),
            ("/* \u{E9} */\u{E9}", "\u{E9}", 8, false, 10),
        ],
    );
}

#[test]
fn reads_ends(rt: HostRuntime) {
    assert_behind_gaps(
        &rt,
        TokenKind::End,
        &[
            ("// a", "", 4, false, 4),
            ("", "", 0, false, 0),
            (" \n ", "", 3, true, 3),
        ],
    );
}

#[test]
fn reads_punctuators(rt: HostRuntime) {
    assert_kinds(
        &rt,
        Mode::Operator,
        &[
            ("{ a", TokenKind::LeftBrace, "{"),
            ("} a", TokenKind::RightBrace, "}"),
            ("( a", TokenKind::LeftParen, "("),
            (") a", TokenKind::RightParen, ")"),
            ("[ a", TokenKind::LeftBracket, "["),
            ("] a", TokenKind::RightBracket, "]"),
            ("; a", TokenKind::Semicolon, ";"),
            (", a", TokenKind::Comma, ","),
            ("< a", TokenKind::Less, "<"),
            ("> a", TokenKind::Greater, ">"),
            ("<= a", TokenKind::LessEqual, "<="),
            (">= a", TokenKind::GreaterEqual, ">="),
            ("== a", TokenKind::EqualEqual, "=="),
            ("!= a", TokenKind::NotEqual, "!="),
            ("=== a", TokenKind::EqualEqualEqual, "==="),
            ("!== a", TokenKind::NotEqualEqual, "!=="),
            ("+ a", TokenKind::Plus, "+"),
            ("- a", TokenKind::Minus, "-"),
            ("* a", TokenKind::Star, "*"),
            ("/ a", TokenKind::Slash, "/"),
            ("% a", TokenKind::Percent, "%"),
            ("** a", TokenKind::StarStar, "**"),
            ("++ a", TokenKind::PlusPlus, "++"),
            ("-- a", TokenKind::MinusMinus, "--"),
            ("<< a", TokenKind::LessLess, "<<"),
            (">> a", TokenKind::GreaterGreater, ">>"),
            (">>> a", TokenKind::GreaterGreaterGreater, ">>>"),
            ("& a", TokenKind::And, "&"),
            ("| a", TokenKind::Or, "|"),
            ("^ a", TokenKind::Caret, "^"),
        ],
    );
}

#[test]
fn reads_more_punctuators(rt: HostRuntime) {
    assert_kinds(
        &rt,
        Mode::Operator,
        &[
            ("! a", TokenKind::Not, "!"),
            ("~ a", TokenKind::Tilde, "~"),
            ("&& a", TokenKind::AndAnd, "&&"),
            ("|| a", TokenKind::OrOr, "||"),
            ("?? a", TokenKind::QuestionQuestion, "??"),
            ("? a", TokenKind::Question, "?"),
            ("?. a", TokenKind::QuestionDot, "?."),
            (": a", TokenKind::Colon, ":"),
            ("= a", TokenKind::Equal, "="),
            ("+= a", TokenKind::PlusEqual, "+="),
            ("-= a", TokenKind::MinusEqual, "-="),
            ("*= a", TokenKind::StarEqual, "*="),
            ("/= a", TokenKind::SlashEqual, "/="),
            ("%= a", TokenKind::PercentEqual, "%="),
            ("**= a", TokenKind::StarStarEqual, "**="),
            ("<<= a", TokenKind::LessLessEqual, "<<="),
            (">>= a", TokenKind::GreaterGreaterEqual, ">>="),
            (">>>= a", TokenKind::GreaterGreaterGreaterEqual, ">>>="),
            ("&= a", TokenKind::AndEqual, "&="),
            ("|= a", TokenKind::OrEqual, "|="),
            ("^= a", TokenKind::CaretEqual, "^="),
            ("&&= a", TokenKind::AndAndEqual, "&&="),
            ("||= a", TokenKind::OrOrEqual, "||="),
            ("??= a", TokenKind::QuestionQuestionEqual, "??="),
            ("=> a", TokenKind::Arrow, "=>"),
            (". a", TokenKind::Dot, "."),
            ("... a", TokenKind::Ellipsis, "..."),
        ],
    );
}

#[test]
fn reads_longest(rt: HostRuntime) {
    assert_kinds(
        &rt,
        Mode::Operator,
        &[
            (">>>==", TokenKind::GreaterGreaterGreaterEqual, ">>>="),
            ("====", TokenKind::EqualEqualEqual, "==="),
            ("===>", TokenKind::EqualEqualEqual, "==="),
            (">>>>", TokenKind::GreaterGreaterGreater, ">>>"),
            ("**==", TokenKind::StarStarEqual, "**="),
            ("??==", TokenKind::QuestionQuestionEqual, "??="),
            ("....5", TokenKind::Ellipsis, "..."),
            ("..a", TokenKind::Dot, "."),
            ("?.5:b", TokenKind::Question, "?"),
            ("?.b", TokenKind::QuestionDot, "?."),
            ("?..5", TokenKind::QuestionDot, "?."),
            ("?.0", TokenKind::Question, "?"),
            ("??.5", TokenKind::QuestionQuestion, "??"),
            ("--=", TokenKind::MinusMinus, "--"),
            ("<!-", TokenKind::Less, "<"),
            ("<<!--", TokenKind::LessLess, "<<"),
            ("=>=", TokenKind::Arrow, "=>"),
            ("+++", TokenKind::PlusPlus, "++"),
            ("&&==", TokenKind::AndAndEqual, "&&="),
            ("?:a", TokenKind::Question, "?"),
        ],
    );
}

#[test]
fn reads_regexps(rt: HostRuntime) {
    assert_all_are(
        &rt,
        Mode::Operand,
        TokenKind::RegExpLiteral,
        &[
            ("/a/", "/a/"),
            ("/[/]\\/c/g;", "/[/]\\/c/g"),
            ("/=/", "/=/"),
            ("/\\[/ x", "/\\[/"),
            ("/[\\]/]/gi", "/[\\]/]/gi"),
            ("/]/", "/]/"),
            ("/a/\u{E9}", "/a/\u{E9}"),
            ("/(?:)/$1 b", "/(?:)/$1"),
            ("/[[]/", "/[[]/"),
        ],
    );
}

#[test]
fn reads_no_regexps(rt: HostRuntime) {
    assert_modes(
        &rt,
        &[
            ("/a/", Mode::Operator, TokenKind::Slash, "/"),
            ("/=/", Mode::Operator, TokenKind::SlashEqual, "/="),
            ("<<=a", Mode::Operand, TokenKind::Less, "<"),
            ("<=a", Mode::Operand, TokenKind::Less, "<"),
        ],
    );
}

#[test]
fn reads_templates(rt: HostRuntime) {
    assert_modes(
        &rt,
        &[
            ("`a${b`", Mode::Operand, TokenKind::TemplateHead, "`a${"),
            ("`a`b", Mode::Operator, TokenKind::NoSubstitution, "`a`"),
            ("`$${", Mode::Operator, TokenKind::TemplateHead, "`$${"),
            (
                "`a\n$b\\${`c",
                Mode::Operator,
                TokenKind::NoSubstitution,
                "`a\n$b\\${`",
            ),
            (
                "`\\u{}\\8`",
                Mode::Operator,
                TokenKind::NoSubstitution,
                "`\\u{}\\8`",
            ),
            ("``", Mode::Operand, TokenKind::NoSubstitution, "``"),
            ("`\\```", Mode::Operand, TokenKind::NoSubstitution, "`\\``"),
            (" b` c", Mode::Piece, TokenKind::TemplateTail, " b`"),
            ("${b", Mode::Piece, TokenKind::TemplateMiddle, "${"),
            ("//${a", Mode::Piece, TokenKind::TemplateMiddle, "//${"),
            ("`a", Mode::Piece, TokenKind::TemplateTail, "`"),
            (" b${x", Mode::Piece, TokenKind::TemplateMiddle, " b${"),
            ("\n`", Mode::Piece, TokenKind::TemplateTail, "\n`"),
            ("\\x`", Mode::Piece, TokenKind::TemplateTail, "\\x`"),
            ("$`", Mode::Piece, TokenKind::TemplateTail, "$`"),
            ("}`", Mode::Piece, TokenKind::TemplateTail, "}`"),
            ("", Mode::Piece, TokenKind::End, ""),
        ],
    );
}

#[test]
fn reads_tags(rt: HostRuntime) {
    for (text, kind, raw, at, new_line, behind) in &[
        ("<a-b.c:d", TokenKind::Less, "<", 0, false, 1),
        ("a-b.c:d", TokenKind::JsxName, "a-b", 0, false, 3),
        (".c:d", TokenKind::Dot, ".", 0, false, 1),
        (":d", TokenKind::Colon, ":", 0, false, 1),
        ("if- x", TokenKind::JsxName, "if-", 0, false, 3),
        (
            " /* a */ // b\nc-d- e",
            TokenKind::JsxName,
            "c-d-",
            14,
            true,
            18,
        ),
        ("'a\n\\'b", TokenKind::JsxString, "'a\n\\'", 0, false, 5),
        ("\"a\\\"\"", TokenKind::JsxString, "\"a\\\"", 0, false, 4),
        (
            "\"\r\n'\"/>",
            TokenKind::JsxString,
            "\"\r\n'\"",
            0,
            false,
            5,
        ),
        (">>=", TokenKind::Greater, ">", 0, false, 1),
        ("/>", TokenKind::Slash, "/", 0, false, 1),
        ("==", TokenKind::Equal, "=", 0, false, 1),
        ("{...a", TokenKind::LeftBrace, "{", 0, false, 1),
        ("\u{E9}-", TokenKind::JsxName, "\u{E9}-", 0, false, 3),
        (" ", TokenKind::End, "", 1, false, 1),
    ] {
        assert!(rt;
            is_row((text, Mode::Tag, *kind, *at, raw, *new_line, *behind)),
            "at {text}"
        );
    }
}

#[test]
fn reads_children(rt: HostRuntime) {
    assert_kinds(
        &rt,
        Mode::Children,
        &[
            ("a & b}", TokenKind::JsxText, "a & b"),
            (" \n a // b{", TokenKind::JsxText, " \n a // b"),
            ("/* a */<b", TokenKind::JsxText, "/* a */"),
            ("&amp;'\"`>", TokenKind::JsxText, "&amp;'\"`"),
            ("\u{2028}", TokenKind::JsxText, "\u{2028}"),
            ("<!--", TokenKind::Less, "<"),
            ("{a}", TokenKind::LeftBrace, "{"),
            ("", TokenKind::End, ""),
        ],
    );
}

#[test]
fn refuses_numbers(rt: HostRuntime) {
    assert_none(
        &rt,
        Mode::Operator,
        &[
            "1__0", "0_1", "08", "00", "0b2", "0b12", "1.5n", "1e5n", "1e", "1e+", "1_", "1_.5",
            "1._5", "0x", "0x_1", "0x1_", "3in x", "1a", "1$", "1nn", "0nn", "5.e", "1\u{E9}",
        ],
    );
}

#[test]
fn refuses_strings(rt: HostRuntime) {
    assert_none(
        &rt,
        Mode::Operator,
        &[
            "\"\\u{110000}\"",
            "\"\\8\"",
            "\"\\9\"",
            "\"\\1\"",
            "\"\\01\"",
            "\"\\08\"",
            "\"a\nb\"",
            "\"a\rb\"",
            "\"a",
            "'\\x4'",
            "'\\xg0'",
            "'\\u004'",
            "'\\u{}'",
            "'\\u{4g}'",
            "'\\u{41'",
            "'a\"",
            "'\\",
        ],
    );
}

#[test]
fn refuses_names(rt: HostRuntime) {
    assert_none(
        &rt,
        Mode::Operator,
        &[
            "\u{200D}a",
            "\u{200C}",
            "\u{301}a",
            "\\u0061",
            "#a",
            "@a",
            "\u{B7}a",
            "\u{1F600}",
        ],
    );
}

#[test]
fn refuses_gaps(rt: HostRuntime) {
    assert_none(
        &rt,
        Mode::Operator,
        &[
            "/*",
            "/*/",
            "/* a *",
            "// a\n/* b",
            "\u{85}a",
            "\u{180E}a",
            "\u{200B}a",
        ],
    );
}

#[test]
fn refuses_regexps(rt: HostRuntime) {
    assert_none(
        &rt,
        Mode::Operand,
        &[
            "/a\n/",
            "/a\\\n/",
            "/[/",
            "/a",
            "/\u{2028}/",
            "/[a\r]/",
            "/a\\\u{2029}/",
        ],
    );
}

#[test]
fn refuses_templates(rt: HostRuntime) {
    assert_none_in_modes(
        &rt,
        &[
            ("`a", Mode::Operator),
            ("`$", Mode::Operand),
            ("a$", Mode::Piece),
            ("`\\`", Mode::Operator),
            ("a\\", Mode::Piece),
        ],
    );
}

#[test]
fn refuses_tags(rt: HostRuntime) {
    assert_none(
        &rt,
        Mode::Tag,
        &["-a", "'a", "\"", "}", "+", "1", "`a`", "(", "@"],
    );
}

#[test]
fn refuses_children(rt: HostRuntime) {
    assert_none(&rt, Mode::Children, &[">", "}", "}a"]);
}

#[test]
fn refuses_html(rt: HostRuntime) {
    assert_none_in_modes(
        &rt,
        &[
            ("<!--y", Mode::Operator),
            ("\n-->", Mode::Operator),
            (" -->", Mode::Operator),
            ("/* a */-->", Mode::Operator),
            ("/*\n*/ --> a", Mode::Operator),
            ("<!--", Mode::Operand),
            ("-->", Mode::Operand),
        ],
    );
}

#[test]
fn reads_second_tokens(rt: HostRuntime) {
    for (text, mode, want) in &[
        (
            "a --> b",
            Mode::Operator,
            Some((TokenKind::MinusMinus, 2, false)),
        ),
        (
            "a /* */ --> b",
            Mode::Operator,
            Some((TokenKind::MinusMinus, 8, false)),
        ),
        ("a\n--> b", Mode::Operator, None),
        ("a /*\n*/ --> b", Mode::Operator, None),
        ("x<!--y", Mode::Operator, None),
        ("x<y", Mode::Operator, Some((TokenKind::Less, 1, false))),
        (
            "x\n/a/g",
            Mode::Operand,
            Some((TokenKind::RegExpLiteral, 2, true)),
        ),
        ("x\n/a/g", Mode::Operator, Some((TokenKind::Slash, 2, true))),
        ("1..x", Mode::Operator, Some((TokenKind::Dot, 2, false))),
        (
            "} b`",
            Mode::Piece,
            Some((TokenKind::TemplateTail, 1, false)),
        ),
        (
            "}${",
            Mode::Piece,
            Some((TokenKind::TemplateMiddle, 1, false)),
        ),
        (
            "} // a <",
            Mode::Children,
            Some((TokenKind::JsxText, 1, false)),
        ),
        ("a\n", Mode::Operator, Some((TokenKind::End, 2, true))),
        ("a /* b", Mode::Operator, None),
    ] {
        assert!(rt; second(text, *mode) == *want, "at {text}");
    }
}

/// The first token, with the gap before it settled.
fn settled(text: &str, mode: Mode) -> Option<(TokenKind, usize, bool)> {
    let mut lexer = Lexer::new(text);
    lexer.settle();
    Some(parts(lexer.next(mode)?))
}

/// The first token, with the gap before it read as it comes.
fn unsettled(text: &str, mode: Mode) -> Option<(TokenKind, usize, bool)> {
    let mut lexer = Lexer::new(text);
    Some(parts(lexer.next(mode)?))
}

#[test]
fn settles(rt: HostRuntime) {
    for (text, mode) in &[
        (" /* \n */ a", Mode::Operator),
        ("\n/a/", Mode::Operand),
        (" a-b", Mode::Tag),
        ("\n--> a", Mode::Operator),
        (" // a", Mode::Operator),
        (" /* a", Mode::Operator),
    ] {
        assert!(rt; settled(text, *mode) == unsettled(text, *mode), "at {text}");
    }
}

/// The comments before the first token of a short text that begins at the place 7.
fn leading(alloc: Global, text: &str) -> Result<Vec<Comment>, AllocError> {
    let mut lexer = Lexer::new(text);
    let from = lexer.at();
    let Some(token) = lexer.next(Mode::Operator) else {
        return Ok(Vec::new(alloc));
    };
    if text.len() >= 1000 {
        return Ok(Vec::new(alloc));
    }
    comments(alloc, text, BytePos(7), from, token.at)
}

/// Kind, places and text.
type CommentRow<'s> = (CommentKind, u32, u32, &'s str);

fn is_comment(comment: &Comment, row: &CommentRow) -> bool {
    let (kind, lo, hi, text) = *row;
    comment.kind == kind
        && comment.span.lo.0 == lo
        && comment.span.hi.0 == hi
        && comment.text.as_str() == text
}

/// Whether the comments before the first token are these.
fn has_comments(alloc: Global, text: &str, rows: &[CommentRow]) -> Result<bool, AllocError> {
    let found = leading(alloc, text)?;
    Ok(are_comments(found.as_slice(), rows))
}

fn are_comments(found: &[Comment], rows: &[CommentRow]) -> bool {
    found.len() == rows.len()
        && found
            .iter()
            .zip(rows)
            .all(|(comment, row)| is_comment(comment, row))
}

#[test]
fn finds_comments(rt: HostRuntime) {
    let rows = &[
        (CommentKind::Line, 8, 14, " a\u{E9}"),
        (CommentKind::Block, 15, 22, " b\n"),
        (CommentKind::Block, 22, 26, ""),
    ];
    assert!(rt; has_comments(rt.alloc(), " // a\u{E9}\n/* b\n*//**/ x", rows) == Ok(true));
}

#[test]
fn finds_comments_to_the_end(rt: HostRuntime) {
    assert!(rt; has_comments(rt.alloc(), "//", &[(CommentKind::Line, 7, 9, "")]) == Ok(true));
    assert!(rt; has_comments(rt.alloc(), " \u{2028} ", &[]) == Ok(true));
    assert!(rt; has_comments(rt.alloc(), "a // b", &[]) == Ok(true));
}
