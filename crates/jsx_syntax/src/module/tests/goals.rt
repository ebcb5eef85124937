//! What the goal of a text decides: imports and exports, `import.meta`, and, with directives, whether code is strict.

use super::DEEP;
use crate::ParseError;
use crate::module::parse;
use jsx_base::BytePos;
use jsx_tree::{Goal, Program};
use std::alloc::Global;

/// The numbers of directives and of statements of a script, or the place of the error.
fn script(alloc: Global, text: &str) -> Result<(usize, usize), ParseError> {
    if text.len() >= 1000 {
        return Err(ParseError::Memory);
    }
    match parse(alloc, text, BytePos(0), Goal::Script, DEEP)? {
        Program::Script(script) => Ok((script.directives.len(), script.body.len())),
        Program::Module(_) => Err(ParseError::Memory),
    }
}

fn is_module(alloc: Global, text: &str) -> bool {
    text.len() < 1000 && parse(alloc, text, BytePos(0), Goal::Module, DEEP).is_ok()
}

#[test]
fn reads_scripts(rt: HostRuntime) {
    for (text, want) in &[
        ("", (0, 0)),
        ("a", (0, 1)),
        ("'use strict'", (1, 0)),
        ("\"use strict\";a", (1, 1)),
        ("'a';'b'\n'c'\nd", (3, 1)),
        ("('use strict');a", (0, 2)),
        ("'a'.b;'c'", (0, 2)),
        ("'a'\n+ b", (0, 1)),
        ("'a', b", (0, 1)),
        ("'use strict'\n[0]", (0, 1)),
        ("function f() {}", (0, 1)),
        ("function f() {} function g() { function h() {} }", (0, 2)),
        ("{a;{b;}}", (0, 1)),
        ("{class A {}}", (0, 1)),
        ("{let a; const b = 1; var c;}", (0, 1)),
        ("{(function () {});}", (0, 1)),
        ("{a = function () {};}", (0, 1)),
        ("if (a) {b = function f() {};}", (0, 1)),
        ("a: {b: c;}", (0, 1)),
        ("'use strict';{function f() {}}", (1, 1)),
        (
            "\"use strict\";switch (a) {case b: function f() {}}",
            (1, 1),
        ),
        ("'a';'use strict';if (b) {function f() {}}", (2, 1)),
        (
            "'use strict';try {function f() {}} catch (a) {function g() {}} finally {function h() {}}",
            (1, 1),
        ),
        ("function f() {'use strict';{function g() {}}}", (0, 1)),
        (
            "function f() {\"use strict\"; while (a) {function g() {}}}",
            (0, 1),
        ),
        (
            "function f() {'use strict';function g() {{function h() {}}}}",
            (0, 1),
        ),
        ("a = function () {'use strict';{function f() {}}};", (0, 1)),
        ("a = {b() {'use strict';{function f() {}}}};", (0, 1)),
        ("a = {get b() {'use strict';{function f() {}}}};", (0, 1)),
        ("class A {a() {{function f() {}}}}", (0, 1)),
        ("class A {a = function () {{function f() {}}}}", (0, 1)),
        ("class A {[function () {{function f() {}}}]() {}}", (0, 1)),
        ("class A extends function () {{function f() {}}} {}", (0, 1)),
        (
            "(class {a() {switch (b) {default: function f() {}}}});",
            (0, 1),
        ),
        ("switch (a) {case b: class C {} let d; default: e;}", (0, 1)),
        ("for (;;) {(function () {}).a;}", (0, 1)),
        ("import('a')", (0, 1)),
        ("import(a).b;", (0, 1)),
        ("a\n++b", (0, 2)),
        ("'use strict'; import('a');", (1, 1)),
    ] {
        assert!(rt; script(rt.alloc(), text) == Ok(*want), "at {text}");
        assert!(rt; is_module(rt.alloc(), text), "at {text}");
    }
}

/// What is a module and no script.
#[test]
fn refuses_what_modules_have(rt: HostRuntime) {
    for (text, place) in &[
        ("{function f() {}}", 1),
        ("{a;function f() {}}", 3),
        ("{{function f() {}}}", 2),
        ("if (a) {function f() {}}", 8),
        ("if (a) b; else {function f() {}}", 16),
        ("while (a) {function f() {}}", 11),
        ("for (;;) {function f() {}}", 10),
        ("do {function f() {}} while (a);", 4),
        ("a: {function f() {}}", 4),
        ("try {function f() {}} finally {}", 5),
        ("try {} catch (a) {function f() {}}", 18),
        ("try {} finally {function f() {}}", 16),
        ("switch (a) {case b: function f() {}}", 20),
        ("switch (a) {default: c;function f() {}}", 23),
        ("switch (a) {case b: {function f() {}}}", 21),
        ("function f() {{function g() {}}}", 15),
        ("function f() {'use\\x20strict';{function g() {}}}", 31),
        ("function f() {('use strict');{function g() {}}}", 30),
        ("function f() {'use strict'.a;{function g() {}}}", 30),
        ("function f() {a;'use strict';{function g() {}}}", 30),
        ("function f() {'use strict'}{function g() {}}", 28),
        ("('use strict');{function f() {}}", 16),
        ("a;'use strict';{function f() {}}", 16),
        ("'use strict ';{function f() {}}", 15),
        ("'use strict' + a;{function f() {}}", 18),
        ("`use strict`;{function f() {}}", 14),
        ("a = {b() {{function f() {}}}};", 11),
        ("a = function () {{function f() {}}};", 18),
        ("class A {}{function f() {}}", 11),
        ("import 'a';", 7),
        ("import a from 'b';", 7),
        ("import {a} from 'b';", 7),
        ("export {a};", 0),
        ("export default a;", 0),
        ("export const a = 1;", 0),
        ("export * from 'a';", 0),
        ("import.meta", 6),
        ("'use strict';import.meta;", 19),
    ] {
        let refused = Err(ParseError::Syntax(BytePos(*place)));
        assert!(rt; script(rt.alloc(), text) == refused, "at {text}");
        assert!(rt; is_module(rt.alloc(), text), "at {text}");
    }
}

/// What is neither.
#[test]
fn refuses_scripts(rt: HostRuntime) {
    for text in &[
        "{function f() {@}}",
        "return;",
        "let = a;",
        "yield;",
        "await a;",
        "delete a;",
        "a: function f() {}",
        "if (a) function f() {}",
        "function f(a = 1) {'use strict'}",
        "new.target",
    ] {
        assert!(rt; script(rt.alloc(), text).is_err(), "at {text}");
        assert!(rt; !is_module(rt.alloc(), text), "at {text}");
    }
}
