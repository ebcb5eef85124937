//! Whole texts: what of them is read, and how tightly it binds.

mod covers;
mod depths;
mod goals;
mod inexact;
mod places;
mod refusals;

use super::parse;
use crate::ParseError;
use jsx_base::BytePos;
use jsx_operand::operand::level;
use jsx_tree::{Access, Control, Expr, Goal, Item, Operation, Pat, Program, Stmt};
use std::alloc::Global;

/// A depth that no text of these tables comes to.
const DEEP: u32 = 100;

/// The number of statements, or the place of the error.
fn read(alloc: Global, text: &str) -> Result<usize, ParseError> {
    if text.len() >= 1000 {
        return Err(ParseError::Memory);
    }
    match parse(alloc, text, BytePos(0), Goal::Module, DEEP)? {
        Program::Module(module) => Ok(module.body.len()),
        Program::Script(script) => Ok(script.body.len()),
    }
}

/// The numbers of directives and of statements.
fn parts(alloc: Global, text: &str) -> Result<(usize, usize), ParseError> {
    if text.len() >= 1000 {
        return Err(ParseError::Memory);
    }
    match parse(alloc, text, BytePos(0), Goal::Module, DEEP)? {
        Program::Module(module) => Ok((module.directives.len(), module.body.len())),
        Program::Script(_) => Err(ParseError::Memory),
    }
}

#[test]
fn reads_directives(rt: HostRuntime) {
    for (text, want) in &[
        ("'use strict'", (1, 0)),
        ("'use client'; \"use strict\"\nb", (2, 1)),
        ("'a'\n'b' /* \n */ 'c'", (3, 0)),
        ("b;'a'", (0, 2)),
        (";'a'", (0, 2)),
        ("('a');'b'", (0, 2)),
        ("'a';('b');'c'", (1, 2)),
        ("'a'.b;'c'", (0, 2)),
        ("'a'\n(b)", (0, 1)),
        ("'a'\n+ b", (0, 1)),
        ("'a', b", (0, 1)),
        ("'a';'b'.c;'d'", (1, 2)),
        ("{'a'}", (0, 1)),
        ("if (a) 'b'; else 'c'", (0, 1)),
        ("'use strict';'use strict';", (2, 0)),
        ("'a';function f() {'b';}'c'", (1, 2)),
        ("'a'\nimport 'b'\n'c'", (1, 2)),
        ("import 'a';'b'", (0, 2)),
        ("export default 'a'", (0, 1)),
        ("'a';export {b}\n'c';import d from 'e'", (1, 3)),
    ] {
        assert!(rt; parts(rt.alloc(), text) == Ok(*want), "at {text}");
    }
}

#[test]
fn reads_modules(rt: HostRuntime) {
    for (text, want) in &[
        ("", 0),
        (" // a\n/* b */", 0),
        ("const a = <b/>;", 1),
        ("const a = b.c(1, 'd',)(), e = <f/>.g;h\n(i) ;", 2),
        ("<a/>; 1(2); 'a'.b; eval;", 4),
        ("a.if.class;", 1),
        ("a + b * c - d;a ** b ** c;a ?? b ?? c;", 3),
        ("this.a == null;1.5e3 + 10n * 0xff;true ? 10n.a : false;", 3),
        ("a || b && c ? d : e;a[b][c in d] instanceof f(g);", 2),
        ("-a + !b * ~c;typeof a.b in c;void 0;- -+a;", 4),
        ("import('a').b(import(c ? d : e));", 1),
        (
            "import.meta;import . meta.a(b);new import.meta;new import.meta.a();import\n.\nmeta",
            5,
        ),
        ("new a;new a();new a.b.c;new a.b(c, ...d,);new a\n(b);", 5),
        ("new a().b;new a()();new a()[b].c();", 3),
        ("new new a;new new a()();new new a.b()(c).d;", 3),
        (
            "new (f())();new (a.b().c)(d);new (import(a));new (a)[b];",
            4,
        ),
        (
            "-new a + b ** new c;typeof new a();new a().b = 1;new a()[b]++;delete new a;",
            5,
        ),
        ("5..a;1 .b;1.5.c[2];0x1f.d;1e3\n.f();1n.g;a?.5.b():c;", 7),
        ("new 5..a;-5 .b * 2;5..a = 6..b++;", 3),
        ("new this;new 5;new (5).a;new [a]();new {}.b();new <a/>;", 6),
        ("a = b = c ? d : e;a.b += c;a[b] ??= c || d;", 3),
        ("(a + b) * c;f((a), ((b)), (c = d));(<a/>);((a)).b[(c)];", 4),
        ("(-a) ** b;(a ?? b) || c;(a).b = (c);", 3),
        (
            "a, b;(a, b), c;f((a, b), c);a[b, c];x = a, b;if (a, b) c, d;",
            6,
        ),
        ("while (a, b) throw c, d;do a; while (b, c);", 2),
        ("x = a / b / /[/]\\/c/g;/=/.d;f(/a/, -/b/ / /c/)", 3),
        ("const a = <b/>", 1),
        ("a\nb", 2),
        ("a\n(b)\n[c]\n.d\n+ e\n", 1),
        ("const a = 1\nconst b = 2\nc = d", 3),
        ("a /* \n */ b // c\nd", 3),
        ("a\nin\nb\u{2028}c", 2),
        (";;{}{;a;{b;}}", 4),
        ("var a, b = 1;let c, d = a;const e = 2;", 3),
        ("if (a) b;if (c) {} else if (d) e; else {const f = 1;}", 2),
        ("if (a) if (b) c; else d;", 1),
        ("while (a) {break;continue;}do a; while (b);", 2),
        ("while (a) do {if (b) break;} while (c);debugger;", 2),
        ("if (a) throw b; else throw c + d;", 1),
        ("++a ** b;- --a.b[c] + 1;", 2),
        ("a++;a.b-- ** c;-a++;a\n++\nb", 5),
        (
            "delete a.b;delete a[b] + c;delete this;delete delete a();",
            4,
        ),
        ("(a++) ** (++b).c;(a)\n++b;delete (a.b);delete (a).b;", 5),
        ("if (a) ++b; else c--;while (a++) delete b.c;", 2),
        (
            "(a) = b;((a.b)) += c;(a[b]) ??= c;++(a);--((a.b));(a)++;((a[b]))--;",
            7,
        ),
        ("(a) = (b) = c;a = (b.c) = (d);((a.b).c) = d", 3),
        ("-(a)++;++(a.b) ** c;(a)-- ** b;(a)\n++b", 5),
        ("for (;;) {}for (a; b; c) d;for (a;;c.d = e) break;", 3),
        (
            "for (let a = 1, b; a < b; a += 1) c;for (const d = 1;;);",
            2,
        ),
        (
            "for ((a in b); c in d; e in f) g;for (let a = b[c in d](e in f);;);",
            2,
        ),
        ("try {} catch {}try {a} finally {b}try {} catch (c) {d;}", 3),
        (
            "try {} catch (a) {} finally {}try {}\ncatch {}\nfinally {a}",
            2,
        ),
        (
            "if (a) try {} catch (b) {} finally {}\nelse while (c) try {break} finally {}",
            1,
        ),
        (
            "for (a = 1, b = c; a, b; a++, --b) d;for ((a, b in c), d;;);",
            2,
        ),
        ("for (var a\n;;)\nfor (\n;\n;\n)\ncontinue", 1),
        (
            "for ((a) of b) c;for ((a.b) in c) d;for (((a)) of b) c;for ((async) of a);",
            4,
        ),
        (
            "for ((a) = b, ++(c);;) d;for ((a[b in c]) = (d in e);;);for ((a)\nof\nb);",
            3,
        ),
        (
            "for (a in b);for (const a in b, c) continue;for (a.b[c] in d in e) {}",
            3,
        ),
        (
            "for (a of b);for (let a of b in c) break;for (this.a of b ? c : d) for (e in f);",
            3,
        ),
        (
            "for (let of of of);for (var async of of);for (of of of);for (of in of);for (async.of of async);",
            5,
        ),
        (
            "for (var of in a);for (let of;;);for (let of = a, b;;);for (of;;);for (async in a);for (async;;);",
            6,
        ),
        (
            "for (a < b;;);for (a.b = c, d;;);for (a ? b : c, d;;);for (a\nof\nb\n)\nfor (var a\nin\nb\n)\nc",
            4,
        ),
        (
            "switch (a) {}switch (b) {case c: d;case e: break;default: {}case f:}",
            2,
        ),
        (
            "switch (a) {default:\nb\ncase c.d ? e : f:\nconst g = 1\n}",
            1,
        ),
        ("switch (a, b) {case c, d: e, f}", 1),
        (
            "while (a) switch (b) {case c: switch (d) {default: continue;}}",
            1,
        ),
        ("[];[a];[a, b,];[,];[, a, , ...b, [c]];", 5),
        ("f(...a, b, ...[c], );[a, b][0].c;[(a), (b, c)] + -[d];", 3),
        ("a\n[b];const c = [<d/>, ...[e = f]];", 2),
        ("a:b;a\n:\nb:{break a;break b}eval: async: c", 3),
        (
            "a: b: while (c) {continue a;break b;d: for (;;) {continue b\n}}",
            1,
        ),
        (
            "a: {b: {break a}while (c) break\na}a: a ? b : c;a: if (b) break a; else c",
            3,
        ),
        ("{a: b};", 2),
        (
            "a: var b;a: ;switch (a) {case b: c: do continue c; while (d)}",
            3,
        ),
        ("a = {};b({}, {c}, {d,});({e: f}).g;", 3),
        ("a = {b: 1, 'c': d, 3: e, 4n: f, [g + h]: i, j, ...k, };", 1),
        (
            "a = {if: b, this: {}, __proto__, '__proto__'\n: d ? e : f}.g",
            1,
        ),
        ("const a = {get: 1, set, async, static: {of, [{}]: 2}};", 1),
        (
            "a = {__proto__, ['__proto__']: b, __proto__: c, \"a\": d}",
            1,
        ),
        (
            "if (a) throw {b: c};for ({a}.b;;) c[{d}];-{}.e;[{}, ...{}];",
            4,
        ),
        ("`a`;`${a}`;`${`b`}`;`a${b}c${d}e`;", 4),
        ("`${a, b}`;`${{}}${[`c`]}`;`}` + `$a$`;-`b`;", 4),
        ("`\\`${a}\\`b`.c = `$${d}`;`a\n$`\n", 2),
        ("f(`a`, ...`b`);const c = `d`.e[`f`](`g`);", 2),
        ("`\\x41\\u{41}\\0`;`\\u0041${a}\\\n`", 2),
        ("a`b`;a.b`c`.d`${e}`;a()`b`()[c]`d`;-a`b`;", 4),
        ("new a`b`;new a.b`c`(d)`e`;`a``b`;(a, b)`c`;", 4),
        ("a`\\u{}`;a`\\x${b}\\u{`;a`\\8`", 3),
        ("a ? `b` : `c`;a\n`b`\n`c`;1`a` + import.meta`b`;", 3),
        ("for (a`b`.c in d) e;for (a`${b in c}`.d of e) f;", 2),
        ("for (a`${b in c}`;;) d;a\n`b`", 2),
        (
            "a?.b;a?.[b];a?.(b, ...c,);a?.b.c[d, e](f)?.g;a?.if.class;",
            5,
        ),
        ("a.b?.c.d;a()?.b;a[b]?.[c]?.(d);(a?.b).c;(a?.b)(c)?.d;", 5),
        ("a?.b ** -c;delete a?.b;a?.b ? .5 : c;a?.5:b;a\n?.b\n.c", 5),
        (
            "new a()?.b;new (a?.b)(c);`a`?.b;a`b`?.c;import(a)?.b;this?.a;",
            6,
        ),
        (
            "for ((a?.b).c in d) e;for (a?.[b in c];;) d;f(a?.b, ...c?.d) + [e?.()];",
            3,
        ),
        ("function f(a, b = 1, ...c) {}function g(a,) {}", 2),
        (
            "(function () {})();(function f() { return 1; });x = function (a) { \"use strict\"; };",
            3,
        ),
        (
            "function f() {return}function g() {return\na}function h() {while (a) {return b, c}}",
            3,
        ),
        (
            "import 'a';import b from \"c\";import * as d from 'e'\nimport {} from 'f'",
            4,
        ),
        (
            "import {a, b as c, default as d, if as e,} from 'f';import g, {h} from 'i';import j, * as k from 'l'",
            3,
        ),
        ("import from from 'a';import as, {of, as as as} from 'b'", 2),
        ("import a\nfrom\n'b'\nc", 2),
        ("import 'a'\n/b/;export {c}\n/d/;import.meta;import(e)", 6),
        (
            "export {};export {a, b as c, d as if,};export {a} from 'e';export {if, default as b} from \"f\"",
            4,
        ),
        (
            "export {from};export {from} from 'a';export {b}\nfrom\n'c'",
            3,
        ),
        ("export {a}\nexport {b as from} from 'c'\nd", 3),
        (
            "export * from 'a';export * as b from 'c'\nexport * as default from 'd'",
            3,
        ),
        (
            "export const a = 1;export let b, c = d;export var e\nexport function f(g) {return g}",
            4,
        ),
        ("export default a", 1),
        ("export default a = b ? c : d\ne", 2),
        ("export default (a, b);", 1),
        ("export default {a: b};c", 2),
        ("export default function () {}a", 2),
        ("export default function f(a) {return a}\n(b)", 2),
        ("export default (function () {})", 1),
        (
            "let [] = a, [,] = b, [, c, , d,] = e;const [...f] = g, [h, , ...[i]] = j;",
            2,
        ),
        (
            "let [a = 1, [b] = c, {d} = e] = f;var [g, ...{length: h}] = i, j;let[k]=l\nlet{m}=n",
            4,
        ),
        (
            "let {} = a, {b} = c, {d, e = 1,} = f;const {g: [h] = i, j: {k}, ...l} = m;",
            2,
        ),
        (
            "let {if: a, 'b': c, 2: d, 3n: e = f, [g + h]: i} = j;var {get, set = of, eval: k}\n=\nl",
            2,
        ),
        (
            "function f([a], {b} = {}, ...[c, d]) {}(function ({a: [b = c]},) {'d'});",
            2,
        ),
        (
            "try {} catch ([a, , ...b]) {}try {} catch ({c: d = e, ...f}) {} finally {}",
            2,
        ),
        (
            "for (let [a] of b);for (const {c, d: e} in f);for (var [g = h in i] of j);",
            3,
        ),
        (
            "for (let [a] = b, {c} = d;;);for (const {[e in f]: g} = h;;);for (var {of} of of);",
            3,
        ),
        (
            "export const [a] = b, {c} = d;export function f({g}) {}export default function ([h]) {}",
            3,
        ),
    ] {
        assert!(rt; read(rt.alloc(), text) == Ok(*want), "at {text}");
    }
}

/// The levels of the first and of the last of a list.
fn ends(items: &[Box<Expr>]) -> (u8, u8) {
    match (items.first(), items.last()) {
        (Some(first), Some(last)) => (level(first), level(last)),
        _ => (0, 0),
    }
}

/// The level of what is assigned to; 0 where it is in parentheses.
fn level_of_target(target: &Pat) -> u8 {
    match target {
        Pat::Ident(_, _) => 18,
        Pat::Target(expr) => level(expr),
        _ => 0,
    }
}

fn sides_of(operation: &Operation) -> (u8, u8) {
    match operation {
        Operation::Binary(_, _, left, right) => (level(left), level(right)),
        Operation::Cond(_, test, _, other) => (level(test), level(other)),
        Operation::Assign(_, target, value) => (level_of_target(target), level(value)),
        Operation::OpAssign(_, _, target, value) => (level_of_target(target), level(value)),
        Operation::Update(_, _, _, target) => (level_of_target(target), 0),
        Operation::Unary(_, _, operand) => (level(operand), 0),
        Operation::Seq(_, items) => ends(items),
        _ => (0, 0),
    }
}

fn sides_of_access(access: &Access) -> (u8, u8) {
    match access {
        Access::Call(_, _, arguments) => ends(arguments),
        Access::Member(_, object, _) => (level(object), 0),
        Access::New(_, callee, _) => (level(callee), 0),
        _ => (0, 0),
    }
}

/// What a `for` goes over with, and what it goes over.
fn sides_of_control(control: &Control) -> (u8, u8) {
    match control {
        Control::ForIn(_, target, object, _) => (level_of_target(target), level(object)),
        Control::ForOf(_, target, items, _) => (level_of_target(target), level(items)),
        _ => (0, 0),
    }
}

fn sides_of_expr(expr: &Expr) -> (u8, u8) {
    match expr {
        Expr::Operation(operation) => sides_of(operation),
        Expr::Access(access) => sides_of_access(access),
        _ => (0, 0),
    }
}

fn sides_of_first(items: &[Item]) -> (u8, u8) {
    let Some(Item::Stmt(statement)) = items.first() else {
        return (0, 0);
    };
    match &**statement {
        Stmt::Expr(_, expr) => sides_of_expr(expr),
        Stmt::Control(control) => sides_of_control(control),
        _ => (0, 0),
    }
}

/// The levels of what stands at the two ends of the first statement's expression, or in the head of its loop.
fn sides(alloc: Global, text: &str) -> (u8, u8) {
    if text.len() >= 1000 {
        return (0, 0);
    }
    match parse(alloc, text, BytePos(0), Goal::Module, DEEP) {
        Ok(Program::Module(module)) => sides_of_first(&module.body),
        _ => (0, 0),
    }
}

#[test]
fn reads_classes(rt: HostRuntime) {
    for (text, want) in &[
        ("class A {}class B extends A.b {}class C extends D() {}", 3),
        (
            "a = class {};b = class C extends class {} {};(class {}).d;",
            3,
        ),
        ("export default class {}", 1),
        ("export default class extends A {}/a/", 2),
        ("export class A { constructor() {} }", 1),
        (
            "class A extends B { constructor(a = super()) { super(a, ...b).c; } }",
            1,
        ),
        ("class A { m() { super.a = super[b]++; new super.c; } }", 1),
        (
            "class A { a = super.b; static c = d in e;'f'\n[g]\n1;h }",
            1,
        ),
        (
            "class A { get\na() {} set\nb({ c }) {} static\nget d() {} }",
            1,
        ),
        ("class A { get;set = 1;static\n}", 1),
        (
            "class A { get() {} set() {} static static() {} static set(a, b) {} }",
            1,
        ),
        (
            "class A { static constructor() {} ['constructor']() {} }",
            1,
        ),
        (
            "a = { b() {}, get c() {}, set d(e = 1) {}, get, set: f, get() {} };",
            1,
        ),
        (
            "a = { b() { super.c; }, constructor() {}, 'constructor'() {} };",
            1,
        ),
        (
            "a: while (b) { class C { d() { e: while (f) break e; } } }",
            1,
        ),
    ] {
        assert!(rt; read(rt.alloc(), text) == Ok(*want), "at {text}");
    }
}

#[test]
fn binds_by_levels(rt: HostRuntime) {
    for (text, want) in &[
        ("a + b * c;", (18, 13)),
        ("a * b + c;", (13, 18)),
        ("a - b - c;", (12, 18)),
        ("a ** b ** c;", (18, 14)),
        ("a ?? b ?? c;", (3, 18)),
        ("a || b && c;", (18, 5)),
        ("a in b < c;", (10, 18)),
        ("-a + typeof b;", (15, 15)),
        ("a + b ? c : d ? e : f;", (12, 2)),
        ("(a + b) * (c = d);", (12, 1)),
        ("new a ** new a().b;", (17, 18)),
        ("a?.b ** (a?.b).c;", (17, 18)),
        ("a.b += c ? d : e = f;", (18, 2)),
    ] {
        assert!(rt; sides(rt.alloc(), text) == *want, "at {text}");
    }
}

#[test]
fn takes_parentheses_off(rt: HostRuntime) {
    for (text, want) in &[
        ("(a + b);", (18, 18)),
        ("((a ? b : c)).d;", (2, 0)),
        ("f((a), (b + c));", (18, 12)),
        ("f(((a, b)), c);", (0, 18)),
        ("(a, b);", (18, 18)),
        ("(a, b ? c : d);", (18, 2)),
        ("-(a + b);", (12, 0)),
        ("new (a().b)(c);", (18, 0)),
        ("(((a ?? b)) || (c, d));", (3, 0)),
        ("(a) = b;", (18, 18)),
        ("((a.b)) += (c, d);", (18, 0)),
        ("(a[(b)]) = c;", (18, 18)),
        ("++(a);", (18, 0)),
        ("((a))--;", (18, 0)),
        ("for ((a) of b) c;", (18, 18)),
        ("for ((a.b) in c, d) e;", (18, 0)),
        ("for (((a)) of b ? c : d) e;", (18, 2)),
    ] {
        assert!(rt; sides(rt.alloc(), text) == *want, "at {text}");
    }
}
