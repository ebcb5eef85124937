//! Early errors on names, and direct calls of `eval`: where they are, in bytes.

use crate::compiler::{CompileError, compile};
use jsx_tree::Goal;
use std::alloc::Global;

/// A text, and the place of its first error.
type Row<'a> = (&'a str, u32);

fn error_of(alloc: Global, text: &str, goal: Goal) -> Option<CompileError> {
    if text.len() >= 1000 {
        return None;
    }
    compile(alloc, text.as_bytes(), goal, 500).err()
}

fn clashes(alloc: Global, row: &Row<'_>, goal: Goal) -> bool {
    error_of(alloc, row.0, goal) == Some(CompileError::Scope(row.1))
}

fn calls_eval(alloc: Global, row: &Row<'_>) -> bool {
    error_of(alloc, row.0, Goal::Script) == Some(CompileError::DirectEval(row.1))
}

/// Two declarations of one list clash, unless both are `var` (ECMA-262 sections 14.2.1 and 16.2.1).
#[test]
fn declarations_of_one_list(rt: HostRuntime) {
    for row in &[
        ("let a; let a;", 11),
        ("let a; const a = 1;", 13),
        ("let a; class a {}", 13),
        ("class A {} class A {}", 17),
        ("let a, a;", 7),
        ("let [a, a] = b;", 8),
        ("const { a, b: [c, ...a] } = d;", 21),
        ("let a; var a;", 11),
        ("var a; let a;", 11),
        ("var a; function a() {}", 16),
        ("function a() {} var a;", 20),
        ("function a() {} function a() {}", 25),
        ("let a; function a() {}", 16),
        ("function a() {} class a {}", 22),
        ("import a from 'b'; let a;", 23),
        ("let a; import a from 'b';", 14),
        ("import a, { b as a } from 'c';", 17),
        ("import { a, b as a } from 'c';", 17),
        ("import * as a from 'b'; function a() {}", 33),
        ("import { a } from 'b'; var a;", 27),
        ("{ let a; let a; }", 13),
        ("{ let a; var a; }", 13),
        ("{ var a; let a; }", 13),
        ("{ function a() {} function a() {} }", 27),
        ("{ function a() {} var a; }", 22),
        ("{ var a; function a() {} }", 18),
        ("{ class a {} const a = 1; }", 19),
        ("export let a; let a;", 18),
        ("let a; export var a;", 18),
        ("export function a() {} export class a {}", 36),
        ("export default function a() {} let a;", 35),
        ("let a; export default class a {}", 28),
        ("'\u{e9}\u{20ac}\u{1f600}'; let a; let a;", 24),
        ("let \u{e9}\u{e9}; var \u{e9}\u{e9};", 14),
    ] {
        assert!(rt; clashes(rt.alloc(), row, Goal::Module), "at {}", row.0);
    }
}

/// A `var` clashes with what is declared in the blocks that it goes through, before it or behind it (sections 14.2.1 and 14.15.1).
#[test]
fn vars_that_go_through_blocks(rt: HostRuntime) {
    for row in &[
        ("let a; { var a; }", 13),
        ("{ let a; { var a; } }", 15),
        ("{ { var a; } let a; }", 17),
        ("{ var a; } let a;", 15),
        ("if (b) var a; else { let c; } const a = 1;", 36),
        ("while (b) { var a; } class a {}", 27),
        ("b: { c: var a; } let a;", 21),
        ("let a; for (var a;;) ;", 16),
        ("let a; for (var a in b) ;", 16),
        ("let a; for (var [a] of b) ;", 17),
        ("for (let a;;) { var a; }", 20),
        ("for (const a of b) var a;", 23),
        ("for (let a in b) { { var a; } }", 25),
        ("try {} catch (a) { var a; }", 23),
        ("try {} catch ([a]) { { var a; } }", 27),
        ("switch (b) { case 1: let a; default: var a; }", 41),
        ("switch (b) { case 1: { var a; } case 2: let a; }", 44),
        ("try { var a; } finally { let b; } let a;", 38),
        ("do { var a; } while (b); let a;", 29),
    ] {
        assert!(rt; clashes(rt.alloc(), row, Goal::Module), "at {}", row.0);
    }
}

/// The cases of a `switch`, the head of a `for`, a catch clause and a function are scopes (sections 14.7, 14.12.1, 14.15.1 and 15).
#[test]
fn declarations_of_other_scopes(rt: HostRuntime) {
    for row in &[
        ("switch (b) { case 1: let a; let a; }", 32),
        ("switch (b) { case 1: let a; case 2: let a; }", 40),
        (
            "switch (b) { case 1: function a() {} default: function a() {} }",
            55,
        ),
        ("switch (b) { case 1: var a; case 2: const a = 1; }", 42),
        ("for (let [a, a] = b;;) ;", 13),
        ("for (let a, a;;) ;", 12),
        ("for (const [a, a] of b) ;", 15),
        ("for (let { a, b: a } in c) ;", 17),
        ("try {} catch ([a, a]) {}", 18),
        ("try {} catch (a) { let a; }", 23),
        ("try {} catch ({ a }) { function a() {} }", 32),
        ("try {} catch { let a; let a; }", 26),
        ("function b(a, a) {}", 14),
        ("function b([a], { c: a }) {}", 21),
        ("function b(a) { let a; }", 20),
        ("function b(a) { const a = 1; }", 22),
        ("function b(a) { class a {} }", 22),
        ("function b(a) { { let a; { var a; } } }", 31),
        ("function b() { let a; var a; }", 26),
        ("function b() { function a() {} let a; }", 35),
        ("function b() { { function a() {} function a() {} } }", 42),
        ("c = function (a, ...a) {};", 20),
        ("c = function a() { let b; let b; };", 30),
        ("c = (a, a) => b;", 8),
        ("c = (a = 1, [a]) => {};", 13),
        ("c = a => { let a; };", 15),
        ("c = ([a]) => { class a {} };", 21),
        ("c = { b(a, a) {} };", 11),
        ("c = { set b([a, a]) {} };", 16),
        ("c = { b(a) { let a; } };", 17),
        ("c = { get b() { let a; var a; } };", 27),
        ("class C { b(a, a) {} }", 15),
        ("class C { static b(a) { let a; } }", 28),
        ("c = class { set d(a) { const a = 1; } };", 29),
        ("export default function (a, a) {}", 28),
        ("export default (a, a) => b;", 19),
        ("export default class { c(a, a) {} }", 28),
    ] {
        assert!(rt; clashes(rt.alloc(), row, Goal::Module), "at {}", row.0);
    }
}

/// A module exports each name once, and no name by itself that it doesn't declare (section 16.2.1).
#[test]
fn exports_of_a_module(rt: HostRuntime) {
    for row in &[
        ("export { a };", 9),
        ("export { a as b };", 9),
        ("{ let a; } export { a };", 20),
        ("function b() { var a; } export { a };", 33),
        ("c = function a() {}; export { a };", 30),
        ("let b; export { b, a };", 19),
        ("try {} catch (a) {} export { a };", 29),
        ("let a; export { a, a };", 19),
        ("let a; export { a, a as b, a as b };", 32),
        ("let a; export { a as b }; export { a as b };", 40),
        ("export let a; export { a };", 23),
        ("export { a }; export let a;", 25),
        ("export let a, [b] = c; export { a as b };", 37),
        ("export function a() {} export { a };", 32),
        ("export class a {} export { a };", 27),
        ("export var a; export { a };", 23),
        ("export var a; export var a;", 25),
        ("export { a } from 'b'; export { c as a } from 'd';", 37),
        ("export * as a from 'b'; export * as a from 'c';", 36),
        ("export { if } from 'b'; export * as if from 'b';", 36),
        ("let a; export { a as if, a as if };", 30),
        ("export default 1; export default 2;", 25),
        ("export default 1;\nexport\n// a\ndefault class {}", 30),
        (
            "export default function a() {} export default class b {}",
            38,
        ),
        (
            "export default function () {} export /* a */ default function () {}",
            45,
        ),
        ("export { a as default } from 'b'; export default 1;", 41),
        ("export default 1; let a; export { a as default };", 39),
        ("export default class a {} export { a as default };", 40),
        ("export { default } from 'b'; export default a => b;", 36),
    ] {
        assert!(rt; clashes(rt.alloc(), row, Goal::Module), "at {}", row.0);
    }
}

/// Of several errors the first in the text is told, and one on declarations or exports before each call of `eval`.
#[test]
fn the_first_of_several(rt: HostRuntime) {
    for row in &[
        ("let a; let a; let a;", 11),
        ("let a; export { b }; let a;", 16),
        ("let a; let a; export { b };", 11),
        ("export { b, c }; export { d };", 9),
        ("export let a; { let b; let b; } export { a };", 27),
        ("{ let a; let a; } let b; let b;", 13),
        ("let b; { let a; { var a; } } let b;", 22),
        ("let b; function c(a, a) {} let b;", 21),
        ("function c() { { let b; let b; } let c; let c; }", 28),
        ("let a; let [b = class { c(d, d) {} }, a] = e;", 29),
        ("export let a; let a; export { a };", 18),
        ("eval(b); let a; let a;", 20),
        ("eval(b); export { a };", 18),
        ("let a, b; export { a as c, b as c }; let a;", 32),
    ] {
        assert!(rt; clashes(rt.alloc(), row, Goal::Module), "at {}", row.0);
    }
}

/// The list of a script is one of a function: `var` names and functions may meet there.
#[test]
fn declarations_of_a_script(rt: HostRuntime) {
    for row in &[
        ("let a; let a;", 11),
        ("let a; var a;", 11),
        ("var a; let a;", 11),
        ("let a; function a() {}", 16),
        ("function a() {} const a = 1;", 22),
        ("class a {} function a() {}", 20),
        ("'use strict'; { function a() {} function a() {} }", 41),
        ("'use strict'; { function a() {} } let a; { var a; }", 47),
        (
            "'use strict'; switch (b) { case 1: var a; case 2: function a() {} }",
            59,
        ),
    ] {
        assert!(rt; clashes(rt.alloc(), row, Goal::Script), "at {}", row.0);
    }
}

/// A call of the name `eval` is direct, parentheses aside (section 13.3.6.1).
#[test]
fn direct_calls_of_eval(rt: HostRuntime) {
    for row in &[
        ("eval(x);", 0),
        ("(eval)(x);", 1),
        ("((eval))();", 2),
        ("eval(eval(a));", 0),
        ("f(eval(a));", 2),
        ("eval(a).b;", 0),
        ("eval(a)(b);", 0),
        ("eval(a)?.(b);", 0),
        ("new (eval(a))();", 5),
        ("`${eval(a)}`;", 3),
        ("[...eval(a)];", 4),
        ("x = { [eval(a)]: b };", 7),
        ("x = (a = eval(b)) => c;", 9),
        ("x = a => { return eval(b); };", 18),
        (
            "function f() { if (a) { for (;;) { return [eval(b)]; } } }",
            43,
        ),
        ("class A { a() { return b ? c : eval(d); } }", 31),
        ("class A { static [eval(a)] = b; }", 18),
        ("let { a = eval(b) } = c;", 10),
        ("for (a of eval(b)) ;", 10),
        ("switch (eval(a)) {}", 8),
        ("try {} catch ({ a = eval(b) }) {}", 20),
        ("while (a) eval(b);", 10),
        ("(0, eval)(a); eval(b);", 14),
        ("'\u{e9}\u{1f600}', eval(a);", 10),
        ("eval(a), eval(b);", 0),
        ("a?.[eval(b)];", 4),
    ] {
        assert!(rt; calls_eval(rt.alloc(), row), "at {}", row.0);
    }
}

/// Names that don't clash, and what is no direct call of `eval`.
#[test]
fn names_without_errors(rt: HostRuntime) {
    for text in &[
        "var a; var a; { var a; }",
        "let a; { let a; { let a; } }",
        "function b(a) { var a; function a() {} }",
        "function b() { var a; function a() {} function a() {} }",
        "function b(a) { { let a; } }",
        "{ function a() {} } function a() {}",
        "{ function a() {} } { var a; }",
        "c = function a() { let a; };",
        "c = function a(a) {};",
        "c = class a { b() { let a; } };",
        "class a { a(a) {} }",
        "for (let a;;) { let a; }",
        "for (var a;;) { var a; }",
        "for (let a of a) ;",
        "let a; for (let a in b) ;",
        "switch (b) { case 1: { let a; } case 2: let a; }",
        "let a; switch (a) { case 1: let a; }",
        "try {} catch (a) { { let a; } }",
        "let a; try {} catch (a) {}",
        "function b() { var a; } let a;",
        "a: { let a; }",
        "let a = b => { let a; };",
        "c = { a, get a() {}, set a(a) {} };",
        "export { a }; let a;",
        "export { a, a as b }; var a;",
        "{ var a; } export { a };",
        "export { a } from 'b';",
        "export * as a from 'b'; let a;",
        "export * from 'a'; export * from 'b';",
        "export default function a() {} export { a };",
        "export default class a {} export { a };",
        "import { a } from 'b'; export { a };",
        "import a, { b } from 'c'; export { a as b, b as a };",
        "export default 1; export const a = 2;",
        "export { default } from 'b'; export { c as d } from 'b';",
        "let a; export { a as default }; export { a };",
        "eval?.(x);",
        "(eval)?.(x);",
        "(0, eval)(x);",
        "eval.call(a);",
        "a.eval(b);",
        "a?.eval(b);",
        "new eval(a);",
        "eval`a`;",
        "x = eval;",
        "({ eval(a) {} });",
        "f(eval);",
        "(a ? eval : b)(c);",
    ] {
        assert!(rt;
            error_of(rt.alloc(), text, Goal::Module) == None,
            "at {text}"
        );
    }
    for text in &[
        "function a() {} function a() {}",
        "var a; function a() {}",
        "function a() {} var a;",
        "function a() {} { var a; }",
    ] {
        assert!(rt;
            error_of(rt.alloc(), text, Goal::Script) == None,
            "at {text}"
        );
    }
}
