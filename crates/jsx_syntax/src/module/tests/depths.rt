//! How deep texts nest: where each of them is given up with the depths 0, 1, .. that are too small for it.

use crate::ParseError;
use crate::module::parse;
use jsx_base::BytePos;
use jsx_tree::Goal;
use std::alloc::Global;

/// A text, and its places for the depths from 0 on.
type Row<'a> = (&'a str, &'a [u32]);

/// The place of the token with which a text comes to nest too deep, if it does.
fn too_deep(alloc: Global, text: &str, depth: usize) -> Option<u32> {
    if text.len() >= 1000 || depth >= 1000 {
        return None;
    }
    match parse(alloc, text, BytePos(0), Goal::Module, depth as u32) {
        Err(ParseError::TooDeep(at)) => Some(at.0),
        _ => None,
    }
}

/// Whether a text is refused at each of its places, and read with the next depth.
fn nests(alloc: Global, row: &Row<'_>) -> bool {
    let (text, places) = *row;
    for (depth, place) in places.iter().enumerate() {
        if too_deep(alloc, text, depth) != Some(*place) {
            return false;
        }
    }
    reads(alloc, text, places.len())
}

fn reads(alloc: Global, text: &str, depth: usize) -> bool {
    text.len() < 1000
        && depth < 1000
        && parse(alloc, text, BytePos(0), Goal::Module, depth as u32).is_ok()
}

/// Names, literals and words, each alone: a statement of an expression counts nothing.
#[test]
fn depths_of_leaves(rt: HostRuntime) {
    let rows: &[Row<'_>] = &[
        (";", &[0]),
        ("a;", &[0]),
        ("1;", &[0]),
        ("this;", &[0]),
        ("`a`;", &[0, 0]),
        ("import.meta;", &[0]),
        ("a, b, c;", &[0]),
        ("debugger;", &[0]),
        ("{}", &[0]),
        ("function f() { new.target; }", &[0, 9]),
        ("a.b;", &[0, 1]),
        ("x = 'a';", &[0, 2]),
    ];
    for row in rows {
        assert!(rt; nests(rt.alloc(), row), "at {}", row.0);
    }
}

/// Pairs of brackets, each of which counts from its first token.
#[test]
fn depths_of_brackets(rt: HostRuntime) {
    let rows: &[Row<'_>] = &[
        ("(a);", &[0, 1]),
        ("((a));", &[0, 1, 2]),
        ("(((((a)))));", &[0, 1, 2, 3, 4, 5]),
        ("(a, b);", &[0, 1]),
        ("((a), (b, (c)));", &[0, 1, 2, 11]),
        ("[];", &[0]),
        ("[a];", &[0, 1]),
        ("[[a]];", &[0, 1, 2]),
        ("[[[[]]]];", &[0, 1, 2, 3]),
        ("[,];", &[0]),
        ("[, , [,]];", &[0, 5]),
        ("[...a];", &[0, 4]),
        ("[...[...[a]]];", &[0, 4, 8, 9]),
        ("({});", &[0, 1]),
        ("({ a });", &[0, 1, 3, 3]),
        ("({ a: b });", &[0, 1, 3, 3]),
        ("({ a: { b: { c } } });", &[0, 1, 3, 3, 8, 8, 13, 13]),
        ("({ 'a': 1, 2: [b] });", &[0, 1, 3, 3, 15]),
        ("({ [a]: b });", &[0, 1, 3, 4]),
        ("({ [[a]]: b });", &[0, 1, 3, 4, 5]),
        ("({ ...a });", &[0, 1, 6]),
        ("({ ...{ ...{ a } } });", &[0, 1, 6, 11, 13, 13]),
        ("([{ a: [{ b: (c) }] }]);", &[0, 1, 2, 4, 4, 8, 10, 10, 14]),
        ("({ a, b: (c) });", &[0, 1, 3, 3, 10]),
    ];
    for row in rows {
        assert!(rt; nests(rt.alloc(), row), "at {}", row.0);
    }
}

/// Operators: a sum counts from its operator, and what is left of it lies within.
#[test]
fn depths_of_operators(rt: HostRuntime) {
    let rows: &[Row<'_>] = &[
        ("a + b;", &[0, 2]),
        ("a + b + c + d;", &[0, 2, 6, 10]),
        ("a ** b ** c ** d;", &[0, 2, 7, 12]),
        ("a + b * c;", &[0, 2, 6]),
        ("a || b && c;", &[0, 2, 7]),
        ("a && b || c;", &[0, 2, 7]),
        ("a ? b : c;", &[0, 2]),
        ("a ? b : c ? d : e;", &[0, 2, 10]),
        ("-a;", &[0, 1]),
        ("- -a;", &[0, 2, 3]),
        ("typeof void delete a.b;", &[0, 7, 12, 19, 20]),
        ("(-a) ** 1;", &[0, 1, 2, 5]),
        ("++a;", &[0, 2]),
        ("a++;", &[0, 1]),
        ("-a++;", &[0, 1, 2]),
        ("a | b ^ c & d;", &[0, 2, 6, 10]),
        ("a + (b + (c + d));", &[0, 2, 5, 7, 10, 12]),
        ("(a + b) * c;", &[0, 1, 3, 8]),
        ("f(a + b) + c;", &[0, 1, 4, 9]),
        ("a + b.c.d;", &[0, 2, 5, 7]),
        ("a.b.c + d;", &[0, 1, 3, 6]),
    ];
    for row in rows {
        assert!(rt; nests(rt.alloc(), row), "at {}", row.0);
    }
}

/// Assignments, which count from their `=`.
#[test]
fn depths_of_assignments(rt: HostRuntime) {
    let rows: &[Row<'_>] = &[
        ("a = b;", &[0, 2]),
        ("a = b = c = d;", &[0, 2, 6, 10]),
        ("a += b;", &[0, 2]),
        ("a ??= b ||= c;", &[0, 2, 8]),
        ("a.b = c;", &[0, 1, 4]),
        ("((a)) = b;", &[0, 1, 2, 6]),
        ("a = (b = c);", &[0, 2, 5, 7]),
        ("[a] = b;", &[0, 1, 4]),
        ("[[a]] = b;", &[0, 1, 2, 6]),
        ("[a, b] = [b, a];", &[0, 1, 7]),
        ("[a = b] = c;", &[0, 1, 3, 8]),
        ("[a.b, ...c] = d;", &[0, 1, 2, 12]),
        ("[...[a]] = b;", &[0, 4, 5, 9]),
        ("({ a } = b);", &[0, 1, 3, 3, 7]),
        ("({ a: b } = c);", &[0, 1, 3, 3, 10]),
        ("({ a: { b } } = c);", &[0, 1, 3, 3, 8, 8, 14]),
        ("({ a: [b] } = c);", &[0, 1, 3, 3, 7, 12]),
        ("({ a = b } = c);", &[0, 1, 3, 3, 5, 11]),
        ("({ a = (b) } = c);", &[0, 1, 3, 3, 5, 8, 13]),
        ("({ a: b = c } = d);", &[0, 1, 3, 3, 8, 14]),
        ("({ a: [b] = c } = d);", &[0, 1, 3, 3, 7, 10, 16]),
        ("({ ...a } = b);", &[0, 1, 6, 10]),
        ("({ [a]: b } = c);", &[0, 1, 3, 4, 12]),
        ("({ a: (b) } = c);", &[0, 1, 3, 3, 7, 12]),
        ("[{ a: [{ b: c }] }] = d;", &[0, 1, 3, 3, 7, 9, 9, 20]),
        ("x = { a = 1 } = c;", &[0, 2, 6, 6, 8, 14]),
        ("[a = [b] = c] = d;", &[0, 1, 3, 6, 9, 14]),
        ("x = [a] = [b] = c;", &[0, 2, 5, 8, 14]),
        ("[[a] = b] = c;", &[0, 1, 2, 5, 10]),
    ];
    for row in rows {
        assert!(rt; nests(rt.alloc(), row), "at {}", row.0);
    }
}

/// Members, calls and links: each counts from its own token, and what is before it lies within.
#[test]
fn depths_of_members(rt: HostRuntime) {
    let rows: &[Row<'_>] = &[
        ("a.b.c.d;", &[0, 1, 3, 5]),
        ("a[b];", &[0, 1]),
        ("a[b[c[d]]];", &[0, 1, 3, 5]),
        ("a();", &[0, 1]),
        ("a(b);", &[0, 1]),
        ("a(b(c(d)));", &[0, 1, 3, 5]),
        ("a(...b);", &[0, 1]),
        ("a(...[b]);", &[0, 1, 6]),
        ("a.b(c).d(e);", &[0, 1, 3, 6, 8]),
        ("f(f(f(x)));", &[0, 1, 3, 5]),
        ("a().b[c];", &[0, 1, 3, 5]),
        ("[a].b;", &[0, 1, 3]),
        ("a?.b;", &[0, 1]),
        ("a?.b.c.d;", &[0, 1]),
        ("a?.[b];", &[0, 1]),
        ("a?.(b);", &[0, 1]),
        ("a?.b.c(d)[e];", &[0, 1]),
        ("a?.[b?.[c?.[d]]];", &[0, 1, 5, 9]),
        ("(a?.b)?.c;", &[0, 1, 2, 6]),
        ("a.b?.c.d;", &[0, 1, 3]),
        ("a?.b?.c?.d;", &[0, 1]),
        ("a?.b[c[d]](e(f));", &[0, 1, 6]),
        ("import(a);", &[0, 7]),
        ("import(a).b;", &[0, 7, 9]),
        ("import(import(a));", &[0, 7, 14]),
        ("import.meta.a;", &[0, 11]),
    ];
    for row in rows {
        assert!(rt; nests(rt.alloc(), row), "at {}", row.0);
    }
}

/// Constructions, which count from their `new`.
#[test]
fn depths_of_constructions(rt: HostRuntime) {
    let rows: &[Row<'_>] = &[
        ("new a;", &[0, 4]),
        ("new a();", &[0, 4]),
        ("new a(b);", &[0, 4]),
        ("new a.b.c;", &[0, 4, 5, 7]),
        ("new a.b(c);", &[0, 4, 5]),
        ("new new a;", &[0, 4, 8]),
        ("new new a()();", &[0, 4, 8]),
        ("new (a());", &[0, 4, 5, 6]),
        ("new a(new b(new c));", &[0, 4, 10, 16]),
        ("new a().b;", &[0, 4, 7]),
        ("new a`b`;", &[0, 4, 5, 5]),
        ("new a`b`(c);", &[0, 4, 5, 5]),
        ("new (class {})();", &[0, 4, 5]),
        ("new [a].b();", &[0, 4, 5, 7]),
        ("new import.meta.a();", &[0, 4, 15]),
    ];
    for row in rows {
        assert!(rt; nests(rt.alloc(), row), "at {}", row.0);
    }
}

/// Templates, whose pieces are parts of them; one with a tag counts from its first piece.
#[test]
fn depths_of_templates(rt: HostRuntime) {
    let rows: &[Row<'_>] = &[
        ("`a`;", &[0, 0]),
        ("`a${b}`;", &[0, 0]),
        ("`a${b}c${d}e`;", &[0, 0]),
        ("`${`${`${a}`}`}`;", &[0, 0, 3, 6]),
        ("`${a + b}`;", &[0, 0, 5]),
        ("a`b`;", &[0, 1, 1]),
        ("a`b``c``d`;", &[0, 1, 1, 4, 7]),
        ("a`b${c}d`;", &[0, 1, 1]),
        ("a.b`c`;", &[0, 1, 3]),
        ("a`${`b`}`;", &[0, 1, 1, 4]),
        ("a`${b`${c`d`}`}`;", &[0, 1, 1, 5, 5, 9, 9]),
        ("(a)`b`;", &[0, 1, 3]),
        ("`${a, b}`;", &[0, 0]),
        ("[a]`b${c}`;", &[0, 1, 3]),
    ];
    for row in rows {
        assert!(rt; nests(rt.alloc(), row), "at {}", row.0);
    }
}

/// Elements, which count from the token behind their `<`.
#[test]
fn depths_of_elements(rt: HostRuntime) {
    let rows: &[Row<'_>] = &[
        ("f(<a/>);", &[0, 1, 3]),
        ("<A/>;", &[1, 1]),
        ("<a/> + <b/>;", &[1, 1, 5]),
        ("x = <a/>;", &[0, 2, 5]),
        ("[<a/>, [<b/>]];", &[0, 2, 2, 9]),
        ("<a/>.b;", &[1, 1, 4]),
        ("a ? <b/> : <C/>;", &[0, 2, 5]),
        ("<a/>`b`;", &[1, 1, 4]),
    ];
    for row in rows {
        assert!(rt; nests(rt.alloc(), row), "at {}", row.0);
    }
}

/// Functions, and the parameters and bodies of these, which lie within.
#[test]
fn depths_of_functions(rt: HostRuntime) {
    let rows: &[Row<'_>] = &[
        ("function f() {}", &[0, 9]),
        ("function f(a) {}", &[0, 9]),
        (
            "function f() { function g() { function h() {} } }",
            &[0, 9, 24, 39],
        ),
        ("function f(a = b) {}", &[0, 9, 13]),
        ("function f(a = (b)) {}", &[0, 9, 13, 16]),
        ("function f([a] = b) {}", &[0, 9, 12, 15]),
        ("function f(...[a]) {}", &[0, 9, 15]),
        ("function f({ a, b: c }) {}", &[0, 9, 13, 13]),
        ("function f({ a = b }) {}", &[0, 9, 13, 13, 15]),
        ("function f() { 'a'; b.c; }", &[0, 9, 21]),
        ("function f() { return a; }", &[0, 9, 22]),
        ("function f() { return a.b; }", &[0, 9, 22, 23]),
        ("x = function () {};", &[0, 2]),
        ("x = function (a) { return [a]; };", &[0, 2, 14, 26, 27]),
        ("(function () { (function () {}); });", &[0, 1, 15, 16]),
    ];
    for row in rows {
        assert!(rt; nests(rt.alloc(), row), "at {}", row.0);
    }
}

/// Arrow functions: of one name they count from their `=>`, and else from the `(` of their parameters, which are within.
#[test]
fn depths_of_arrows(rt: HostRuntime) {
    let rows: &[Row<'_>] = &[
        ("a => b;", &[0, 2]),
        ("a => b => c => d;", &[0, 2, 7, 12]),
        ("a => { b; };", &[0, 2]),
        ("() => a;", &[0, 6]),
        ("() => () => () => {};", &[0, 6, 12]),
        ("(a, b) => c;", &[0, 1]),
        ("((a, [b]) => c);", &[0, 1, 2, 6]),
        ("([a]) => b;", &[0, 1, 2]),
        ("({ a: [b] }) => c;", &[0, 1, 3, 3, 7]),
        ("(a = b) => c;", &[0, 1, 3]),
        ("([a] = b) => c;", &[0, 1, 2, 5]),
        ("(a = (b)) => c;", &[0, 1, 3, 6]),
        ("({ a = b }) => c;", &[0, 1, 3, 3, 5]),
        ("(a, ...[b]) => c;", &[0, 1, 8]),
        ("x = (a) => b;", &[0, 2, 5]),
        ("(a => b)(c);", &[0, 1, 3, 8]),
        ("(a) => { return [a]; };", &[0, 1, 16, 17]),
        ("(a => b, c);", &[0, 1, 3]),
        ("((a) => (b) => c);", &[0, 1, 2, 9]),
        ("(a = (b) => c) => d;", &[0, 1, 3, 6]),
        ("([a = [b]]) => c;", &[0, 1, 2, 4, 7]),
        ("({ a: b = c }) => d;", &[0, 1, 3, 3, 8]),
        ("(a = () => {}) => {};", &[0, 1, 3]),
        ("((a), b);", &[0, 1, 2]),
    ];
    for row in rows {
        assert!(rt; nests(rt.alloc(), row), "at {}", row.0);
    }
}

/// Classes, whose members count from their first token; `static`, `get` and `set` are parts of depth 1.
#[test]
fn depths_of_classes(rt: HostRuntime) {
    let rows: &[Row<'_>] = &[
        ("class A {}", &[0, 6]),
        ("class A extends B {}", &[0, 6]),
        ("class A extends B.c {}", &[0, 6, 17]),
        ("class A extends class {} {}", &[0, 6]),
        (
            "x = class extends class extends class {} {} {};",
            &[0, 2, 18, 32],
        ),
        ("class A { a }", &[0, 6, 10]),
        ("class A { a = b }", &[0, 6, 10]),
        ("class A { a = [b] }", &[0, 6, 10, 15]),
        ("class A { static a }", &[0, 6, 10]),
        ("class A { static a = b }", &[0, 6, 10]),
        ("class A { a() {} }", &[0, 6, 10]),
        ("class A { get a() { return b; } }", &[0, 6, 10, 27]),
        ("class A { set a(b) {} }", &[0, 6, 10]),
        ("class A { static get a() {} }", &[0, 6, 10]),
        ("class A { static set a([b]) {} }", &[0, 6, 10, 24]),
        ("class A { [a]() {} }", &[0, 6, 11]),
        ("class A { [[a]] = b; }", &[0, 6, 11, 12]),
        ("class A { get [a]() {} }", &[0, 6, 10]),
        ("class A { 'a'() {} 1() {} }", &[0, 6, 10]),
        (
            "class A extends B { constructor() { super(); } }",
            &[0, 6, 20],
        ),
        (
            "class A extends B { constructor(a) { super(a, [b]); } }",
            &[0, 6, 20, 43, 47],
        ),
        ("class A { a() { super.b; } }", &[0, 6, 10, 22]),
        ("class A { a() { super.b.c; } }", &[0, 6, 10, 22, 23]),
        ("class A { get; set; static; }", &[0, 6, 10]),
        ("class A { static() {} }", &[0, 6, 10]),
        (
            "x = class { a = class { b = c } };",
            &[0, 2, 12, 12, 24, 24],
        ),
        ("class A { a = () => b }", &[0, 6, 10, 20]),
        ("class A { static static }", &[0, 6, 10]),
        ("class A extends a.b.c {}", &[0, 6, 17, 19]),
    ];
    for row in rows {
        assert!(rt; nests(rt.alloc(), row), "at {}", row.0);
    }
}

/// Methods and accessors of objects.
#[test]
fn depths_of_methods(rt: HostRuntime) {
    let rows: &[Row<'_>] = &[
        ("x = { a() {} };", &[0, 2, 6, 6]),
        ("x = { a(b) { c; } };", &[0, 2, 6, 6]),
        ("x = { get a() {} };", &[0, 2, 6, 6]),
        ("x = { set a(b) {} };", &[0, 2, 6, 6]),
        ("x = { get [a]() {} };", &[0, 2, 6, 6]),
        ("x = { get };", &[0, 2, 6, 6]),
        ("x = { a() { super.b; } };", &[0, 2, 6, 6, 18]),
        ("x = { get 1() { return [a]; } };", &[0, 2, 6, 6, 23, 24]),
        ("x = { set a([b]) {} };", &[0, 2, 6, 6, 13]),
        (
            "x = { a() { return { b() {} }; } };",
            &[0, 2, 6, 6, 19, 21, 21],
        ),
    ];
    for row in rows {
        assert!(rt; nests(rt.alloc(), row), "at {}", row.0);
    }
}

/// Statements that hold others, each of which counts from its first token.
#[test]
fn depths_of_statements(rt: HostRuntime) {
    let rows: &[Row<'_>] = &[
        ("{ a; }", &[0, 2]),
        ("{ { { a; } } }", &[0, 2, 4, 6]),
        ("{ { a; } b.c; }", &[0, 2, 4]),
        ("if (a) b; else c;", &[0, 4]),
        ("if (a) b; else if (c) d; else if (e) f;", &[0, 4, 19, 34]),
        ("if (a) { b; } else { c; }", &[0, 4, 9]),
        ("if (a) if (b) c; else d;", &[0, 4, 11]),
        ("while (a) while (b) while (c) d;", &[0, 7, 17, 27]),
        ("do do a; while (b); while ((c));", &[0, 3, 6]),
        ("a: b;", &[0, 1]),
        ("a: b: c: d;", &[0, 1, 4, 7]),
        ("a: while (b) { break a; }", &[0, 1, 10, 15, 21]),
        ("a: while (b) continue a;", &[0, 1, 10, 22]),
        ("throw [a];", &[0, 6, 7]),
        ("try {} catch (a) {}", &[0, 4]),
        ("try {} catch ([a]) {}", &[0, 4, 15]),
        ("try {} catch ({ a }) { b; }", &[0, 4, 16, 16]),
        ("try {} finally {}", &[0, 4]),
        (
            "try { a; } catch (b) { c; } finally { d.e; }",
            &[0, 4, 6, 39],
        ),
        ("try { try {} catch {} } catch {}", &[0, 4, 6, 10]),
        ("switch (a) { case b: }", &[0, 8, 18]),
        ("switch (a) { case b: c; d; default: e; }", &[0, 8, 18]),
        ("switch (a) { case b.c: }", &[0, 8, 18, 19]),
        (
            "switch (a) { default: switch (b) { default: c; } }",
            &[0, 8, 22, 30, 44],
        ),
        ("switch ([a]) { case b: { c; } }", &[0, 8, 9, 25]),
        ("a: ;", &[0, 1]),
    ];
    for row in rows {
        assert!(rt; nests(rt.alloc(), row), "at {}", row.0);
    }
}

/// Declarations: a declarator counts from its `=`.
#[test]
fn depths_of_declarations(rt: HostRuntime) {
    let rows: &[Row<'_>] = &[
        ("var a;", &[0, 4]),
        ("let a, b;", &[0, 4]),
        ("const a = b, c = d;", &[0, 6, 8]),
        ("let [a] = b;", &[0, 4, 5, 8]),
        ("let [a, [b]] = c;", &[0, 4, 5, 9, 13]),
        ("let [a = b] = c;", &[0, 4, 5, 7, 12]),
        ("let { a } = b;", &[0, 4, 6, 6, 10]),
        ("let { a: b } = c;", &[0, 4, 6, 6, 13]),
        ("let { a: [b] } = c;", &[0, 4, 6, 6, 10, 15]),
        ("let { a = b } = c;", &[0, 4, 6, 6, 8, 14]),
        ("let { [a]: b } = c;", &[0, 4, 6, 7, 15]),
        ("let [...a] = b;", &[0, 4, 8, 11]),
        ("const [] = a, {} = b;", &[0, 6, 9]),
        (
            "var { a: { b: { c } } } = d;",
            &[0, 4, 6, 6, 11, 11, 16, 16, 24],
        ),
        ("let [[[a]]] = b;", &[0, 4, 5, 6, 7, 12]),
        ("let { a: [b] = c } = d;", &[0, 4, 6, 6, 10, 13, 19]),
        ("var a = [b], { c = [d] } = e;", &[0, 4, 6, 9, 17, 20, 25]),
        ("let a = b => c;", &[0, 4, 6, 10]),
        ("let [a = [b]] = c;", &[0, 4, 5, 7, 10, 14]),
    ];
    for row in rows {
        assert!(rt; nests(rt.alloc(), row), "at {}", row.0);
    }
}

/// Loops with heads: what stands in these lies within the loop, and counts nothing of its own but what is declared.
#[test]
fn depths_of_loops(rt: HostRuntime) {
    let rows: &[Row<'_>] = &[
        ("for (;;) ;", &[0, 9]),
        ("for (a; b; c) d;", &[0, 5]),
        ("for (let a = b; c; d) e;", &[0, 9, 11]),
        ("for (var a = b, [c] = d; ;) ;", &[0, 9, 11, 20]),
        ("for (a in b) c;", &[0, 5]),
        ("for (let a in b) c;", &[0, 9]),
        ("for (const [a] of b) c;", &[0, 11, 12]),
        ("for (a.b of c) d;", &[0, 5, 6]),
        ("for ([a] of b) c;", &[0, 5, 6]),
        ("for ({ a } of b) c;", &[0, 5, 7, 7]),
        ("for ([a.b, c] in d) e;", &[0, 5, 6, 7]),
        ("for (a of [b]) c;", &[0, 5, 11]),
        ("for (;;) for (;;) for (;;) ;", &[0, 9, 18, 27]),
        ("for ((a in b); ;) ;", &[0, 5, 6, 8]),
        ("for (a = b.c, d; ;) ;", &[0, 5, 7, 10]),
        ("for (let [a = b] of c) ;", &[0, 9, 10, 12]),
        ("for ({ a = b } of c) ;", &[0, 5, 7, 7, 9]),
        ("for ([a] = b; ;) ;", &[0, 5, 6, 9]),
        ("for (let a = (b in c); ;) ;", &[0, 9, 11, 14, 16]),
        ("for (a.b.c in d) ;", &[0, 5, 6, 8]),
        ("for (let a = b, c; ;) ;", &[0, 9, 11]),
    ];
    for row in rows {
        assert!(rt; nests(rt.alloc(), row), "at {}", row.0);
    }
}

/// Imports and exports, which count from their word; a specifier counts nothing.
#[test]
fn depths_of_items(rt: HostRuntime) {
    let rows: &[Row<'_>] = &[
        ("import 'a';", &[0, 7]),
        ("import a from 'b';", &[0, 7]),
        ("import * as a from 'b';", &[0, 12]),
        ("import { a } from 'b';", &[0, 9]),
        ("import { a as b, c } from 'd';", &[0, 9]),
        ("import a, { b } from 'c';", &[0, 7]),
        ("import a, * as b from 'c';", &[0, 7]),
        ("export { a };", &[0, 9]),
        ("export { a as b };", &[0, 9]),
        ("export { a } from 'b';", &[0, 9]),
        ("export * from 'a';", &[0, 14]),
        ("export * as a from 'b';", &[0, 12]),
        ("export const a = b;", &[0, 7, 13, 15]),
        ("export var a;", &[0, 7, 11]),
        ("export function f() {}", &[0, 7, 16]),
        ("export class A { a() {} }", &[0, 7, 13, 17]),
        ("export default a;", &[0, 15]),
        ("export default [a];", &[0, 15, 16]),
        ("export default function () {}", &[0]),
        ("export default function f(a) { return b; }", &[0, 24, 38]),
        ("export default function () { g.h; }", &[0, 29, 30]),
        ("export default class {}", &[0, 15]),
        ("export default class A extends B {}", &[0, 15, 21]),
        ("export default class { a() {} }", &[0, 15, 23, 23]),
        ("export default a => b;", &[0, 15, 17]),
        ("export default a = b;", &[0, 15, 17]),
        ("export { if } from 'a';", &[0, 9]),
        ("import 'a';import b from 'c';export { b };", &[0, 7]),
    ];
    for row in rows {
        assert!(rt; nests(rt.alloc(), row), "at {}", row.0);
    }
}

/// Directives, which are as deep as their string.
#[test]
fn depths_of_directives(rt: HostRuntime) {
    let rows: &[Row<'_>] = &[
        ("'a';", &[0]),
        ("'a';'b';", &[0]),
        ("'a'\n'b'\nc.d", &[0, 9]),
        ("'use strict';[a];", &[0, 14]),
        ("'a'.b;", &[0, 3]),
        (";'a';", &[0]),
    ];
    for row in rows {
        assert!(rt; nests(rt.alloc(), row), "at {}", row.0);
    }
}
