//! Texts that are given up at another place than that of the first token with which no tree begins: rows of both places.

use super::refusals::is_refused;

/// Behind it: what the token is a part of was read before it was looked at as a whole. These are an operand of too low a level, an `in` in the head
/// of a `for`, the rules for members and for the parameters of strict code, and what `super` and `new.target` stand in.
#[test]
fn refuses_behind_the_token(rt: HostRuntime) {
    for (text, place, first) in &[
        ("new import(a);", 12, 10),
        ("++a?.b;", 6, 3),
        ("new -a;", 6, 4),
        ("new.target;", 4, 3),
        ("new.a;", 4, 3),
        ("++-a;", 4, 2),
        ("for (a ? b in c : d;;);", 19, 11),
        ("for (var a = 1 in b);", 19, 15),
        ("for ((a) = b in c;;);", 17, 13),
        ("for (a, b in c;;);", 14, 10),
        ("for (a = b in c, d;;);", 18, 11),
        ("for (let a = 1, b = c in d;;);", 26, 22),
        ("switch (a) {default: b;default: c;}", 34, 23),
        ("function f(a = 1) { \"use strict\"; }", 34, 32),
        ("function f(...a) { 'use strict'; }", 33, 31),
        ("function f({a}) { 'use strict'; }", 32, 30),
        ("(function (...[a]) { 'use strict'; });", 35, 33),
        ("for (var {a} = b in c);", 21, 17),
        ("class A { set a(b = 1) { 'use strict'; } }", 39, 37),
        ("class A { constructor() {} 'constructor'() {} }", 46, 27),
        ("class A { get constructor() {} }", 31, 14),
        ("class A { constructor = 1 }", 26, 22),
        ("class A { static prototype() {} }", 32, 17),
        ("class A extends B { [super()]() {} }", 26, 21),
        (
            "class A extends B { constructor() { new super(); } }",
            46,
            45,
        ),
        ("super.a;", 5, 0),
        ("a = { b: function () { super.c; } };", 28, 23),
        ("(a = 1) => { 'use strict'; };", 27, 25),
        ("([a]) => { 'use strict'; };", 25, 23),
        ("a => new.target;", 9, 8),
        ("() => super();", 11, 6),
    ] {
        assert!(rt; first < place, "at {text}");
        assert!(rt; is_refused(rt.alloc(), text, *place), "at {text}");
    }
}

/// Before it, at the token that was taken last: no token can be read there, or it stands on a line of its own, or tells that a name may not
/// stand in a list of imports or exports, which is then the place.
#[test]
fn refuses_before_the_token(rt: HostRuntime) {
    for (text, place, first) in &[
        ("new 5.a;", 0, 4),
        ("a`${b}c", 5, 6),
        ("a\n\"b", 0, 2),
        ("`${a}b", 4, 5),
        ("a /* \n", 0, 2),
        ("a; /* b", 1, 3),
        ("throw\na;", 0, 6),
        ("import {if} from 'a';", 8, 10),
        ("import {eval} from 'a';", 8, 12),
        ("import {if as a, b, arguments} from 'c';", 20, 29),
        ("export {if};", 8, 11),
        ("export {a as if, this as b};", 17, 27),
        ("export {if} 'a';", 8, 12),
    ] {
        assert!(rt; place < first, "at {text}");
        assert!(rt; is_refused(rt.alloc(), text, *place), "at {text}");
    }
}
