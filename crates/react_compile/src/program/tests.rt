//! Whole runs, with their exact bytes.

use super::*;
use jsx_base::{MemSink, MemSource};
use std::alloc::AllocError;
use std::process::Abort;
use std::test::Fail;

mod names;

/// What a run is given: a word or none, a source, and the numbers of the reads and writes that fail.
#[derive(Clone, Copy)]
struct Given<'a> {
    word: Option<&'a str>,
    source: &'a [u8],
    bad_reads: &'a [u32],
    bad_writes: &'a [u32],
    bad_lines: &'a [u32],
}

fn plain(source: &[u8]) -> Given<'_> {
    Given {
        word: None,
        source,
        bad_reads: &[],
        bad_writes: &[],
        bad_lines: &[],
    }
}

fn words_of(alloc: Global, word: Option<&str>) -> Result<Vec<String>, AllocError> {
    let mut words = Vec::new(alloc);
    if let Some(word) = word {
        words.push(String::from_str(alloc, word)?)?;
    }
    Ok(words)
}

fn run_into(
    alloc: Global,
    given: &Given<'_>,
    out: &mut MemSink,
    err: &mut MemSink,
) -> Result<Status, AllocError> {
    let words = words_of(alloc, given.word)?;
    let mut input = MemSource::new(alloc, given.source, given.bad_reads)?;
    err.reserve(64)?;
    Ok(run(alloc, &words, &mut input, out, err))
}

/// Whether a run ends with this status, and leaves these texts in its sinks.
fn runs(alloc: Global, given: &Given<'_>, want: (Status, &str, &str)) -> Result<bool, AllocError> {
    let mut out = MemSink::new(alloc, given.bad_writes)?;
    let mut err = MemSink::new(alloc, given.bad_lines)?;
    let status = run_into(alloc, given, &mut out, &mut err)?;
    Ok(status == want.0 && has(&out, want.1) && has(&err, want.2))
}

fn has(sink: &MemSink, want: &str) -> bool {
    sink.bytes() == want.as_bytes()
}

fn assert_runs(
    rt: &(impl Abort + AllocGlobal),
    given: &Given<'_>,
    want: (Status, &str, &str),
) -> Result<(), Fail> {
    let went = runs(rt.alloc(), given, want)?;
    assert!(rt; went, "the bytes {:?}", given.source);
    Ok(())
}

#[test]
fn code_of_sources(rt: HostRuntime) -> Result<(), Fail> {
    for (source, code) in &[
        ("", ""),
        (" \t\r\n// only a comment\u{2028}/* and\nanother */", ""),
        (
            "const x = <div />;\n",
            "const x = /*#__PURE__*/ React.createElement(\"div\", null);\n",
        ),
        (
            "const/* a */Foo=<Foo/>;const b\n=\n<b\n/\n>\n;",
            "const Foo = /*#__PURE__*/ React.createElement(Foo, null);\nconst b = /*#__PURE__*/ React.createElement(\"b\", null);\n",
        ),
        (
            "f(<a/>, <B/>, x.y);",
            "f(/*#__PURE__*/ React.createElement(\"a\", null), /*#__PURE__*/ React.createElement(B, null), x.y);\n",
        ),
        (
            "const a = <a/>, b = 'x\\'y', c = 12\n;f ( ) ; f(a,);",
            "const a = /*#__PURE__*/ React.createElement(\"a\", null), b = 'x\\'y', c = 12;\nf();\nf(a);\n",
        ),
        (
            "<a/> . b (\"c\\n\") (1) ( ) .class; \"d\".e;",
            "/*#__PURE__*/ React.createElement(\"a\", null).b(\"c\\n\")(1)().class;\n\"d\".e;\n",
        ),
        (
            "a(b(<c/>, d), \"\", 0, f(g(h(<I/>))));",
            "a(b(/*#__PURE__*/ React.createElement(\"c\", null), d), \"\", 0, f(g(h(/*#__PURE__*/ React.createElement(I, null)))));\n",
        ),
        (
            "const \u{e9}$_1 = <a1_$\u{e9}/>;",
            "const \u{e9}$_1 = /*#__PURE__*/ React.createElement(\"a1_$\u{e9}\", null);\n",
        ),
        ("x=a+b*-c;y??=- -z;", "x = a + b * -c;\ny ??= - -z;\n"),
        (
            "a,b;(a,b),f((c,d));x=(y,z)",
            "a, b;\n(a, b), f((c, d));\nx = (y, z);\n",
        ),
        (
            "a?b:<c/>+<D/>;",
            "a ? b : /*#__PURE__*/ React.createElement(\"c\", null) + /*#__PURE__*/ React.createElement(D, null);\n",
        ),
        (
            "x[0].y=typeof+1.5e3;a**b**-c;",
            "x[0].y = typeof +1.5e3;\na ** b ** -c;\n",
        ),
        (
            "import('a')['b'](void 0x1f,10n,this,null,!0);",
            "import('a')['b'](void 0x1f, 10n, this, null, !0);\n",
        ),
        (
            "x=new a;new a.b(c,<d/>).e;new(f())();new new g()(h);import.meta.url",
            "x = new a();\nnew a.b(c, /*#__PURE__*/ React.createElement(\"d\", null)).e;\nnew (f())();\nnew new g()(h);\nimport.meta.url;\n",
        ),
        (
            "(new a).b;(new a)();new(a)(b);new(a.b());-new a",
            "new a().b;\nnew a()();\nnew a(b);\nnew (a.b())();\n-new a();\n",
        ),
        (
            "5..a;1 .b=2. .c;(3).d();4[5];-6e1.f;7n.g",
            "(5.).a;\n(1).b = (2.).c;\n(3).d();\n4[5];\n-(6e1).f;\n7n.g;\n",
        ),
        (
            "a?.b.c;a?.[b]?.(c,<d/>);(a?.b).c;(a?.b)();x=a?.5:-b",
            "a?.b.c;\na?.[b]?.(c, /*#__PURE__*/ React.createElement(\"d\", null));\n(a?.b).c;\n(a?.b)();\nx = a ? .5 : -b;\n",
        ),
        ("x = a / b / /[/]\\/c/g", "x = a / b / /[/]\\/c/g;\n"),
        ("1.5;0x1;null;f(this);", "1.5;\n0x1;\nnull;\nf(this);\n"),
        ("a=b=c in d instanceof e;", "a = b = c in d instanceof e;\n"),
        (
            "(a)=b;((a.b))+=c;++(d);(e[0])--;(f)??=(g)=h;for((a)of[b]);for(((a.b))in c);",
            "a = b;\na.b += c;\n++d;\ne[0]--;\nf ??= g = h;\nfor (a of [b]) ;\nfor (a.b in c) ;\n",
        ),
        ("x = a ?? (b || c)", "x = a ?? (b || c);\n"),
        ("if (a) b; else { c }", "if (a) b; else {\n    c;\n}\n"),
        ("a\n++b", "a;\n++b;\n"),
        ("(a?.b).c", "(a?.b).c;\n"),
        ("(\"use x\"); y", "(\"use x\");\ny;\n"),
        (
            "'use client'\n\"use strict\";<a/>",
            "'use client';\n\"use strict\";\n/*#__PURE__*/ React.createElement(\"a\", null);\n",
        ),
        ("'a'\n(b);'c';{'d'}", "'a'(b);\n'c';\n{\n    'd';\n}\n"),
        (";'a';b;'c'", "('a');\nb;\n'c';\n"),
        ("a\n(b)\nc // d\n/* e\n*/ f", "a(b);\nc;\nf;\n"),
        (
            "(a+b)*c;((d));f((e),(<a/>),(g()));",
            "(a + b) * c;\nd;\nf(e, /*#__PURE__*/ React.createElement(\"a\", null), g());\n",
        ),
        (
            "for(let i=0,n=<a/>;i<n;i+=1)f(i);for(;;)break;for((a in b);;);",
            "for (let i = 0, n = /*#__PURE__*/ React.createElement(\"a\", null); i < n; i += 1) f(i);\nfor (;;) break;\nfor ((a in b);;) ;\n",
        ),
        (
            "for(const a of[<b/>])f(a);for(a.b in c,<d/>){}for(var e of(f,g))for(h[0]in i in j);",
            "for (const a of [/*#__PURE__*/ React.createElement(\"b\", null)]) f(a);\nfor (a.b in c, /*#__PURE__*/ React.createElement(\"d\", null)) {}\nfor (var e of (f, g)) for (h[0] in i in j) ;\n",
        ),
        (
            "switch(a){case 1:f(<b/>);break\ndefault:}",
            "switch (a) {\n    case 1:\n        f(/*#__PURE__*/ React.createElement(\"b\", null));\n        break;\n    default:\n}\n",
        ),
        (
            "a:b:while(c){continue a;d:{f(<b/>);break d}}e:g",
            "a: b: while (c) {\n    continue a;\n    d: {\n        f(/*#__PURE__*/ React.createElement(\"b\", null));\n        break d;\n    }\n}\ne: g;\n",
        ),
        (
            "try{f(<a/>)}catch(e){}try{}catch{}try{}finally{g()}try{}catch(h){}finally{}",
            "try {\n    f(/*#__PURE__*/ React.createElement(\"a\", null));\n} catch (e) {}\ntry {} catch {}\ntry {} finally {\n    g();\n}\ntry {} catch (h) {} finally {}\n",
        ),
        (
            "x=(-a)**b;(a??b)||c;(a=b).c;(1).d;('e').f;",
            "x = (-a) ** b;\n(a ?? b) || c;\n(a = b).c;\n(1).d;\n'e'.f;\n",
        ),
        (
            "a\n++\nb;c++**d;- --e.f;(a++).b",
            "a;\n++b;\nc++ ** d;\n- --e.f;\n(a++).b;\n",
        ),
        (
            "delete a.b;delete(a).b+-(c++);delete(a[b])",
            "delete a.b;\ndelete a.b + -c++;\ndelete a[b];\n",
        ),
        (
            "[];[,];[a,,(b,c),...d,,];f(...[e],(g))[0]",
            "[];\n[,];\n[a, , (b, c), ...d, ,];\nf(...[e], g)[0];\n",
        ),
        (
            "x=[<a/>,...[(<b/>)]]",
            "x = [/*#__PURE__*/ React.createElement(\"a\", null), ...[/*#__PURE__*/ React.createElement(\"b\", null)]];\n",
        ),
        (
            "x={a:1,'b':c,3:d,4n:e,[f+(g)]:(h,i),j,...k,};y={}",
            "x = { a: 1, 'b': c, 3: d, 4n: e, [f + g]: (h, i), j, ...k };\ny = {};\n",
        ),
        (
            "({}).a;({b:c});f({__proto__:{d},__proto__,if:e})",
            "({}.a);\n({ b: c });\nf({ __proto__: { d }, __proto__, if: e });\n",
        ),
        (
            "x={a:<b/>,...{c:[(<D/>)]}}",
            "x = { a: /*#__PURE__*/ React.createElement(\"b\", null), ...{ c: [/*#__PURE__*/ React.createElement(D, null)] } };\n",
        ),
        (
            "x=`a\n$`;f(`${<b/>} ${(c,d)}`,-`e`.g);`${`${{}}`}`",
            "x = `a\n$`;\nf(`${/*#__PURE__*/ React.createElement(\"b\", null)} ${c, d}`, -`e`.g);\n`${`${{}}`}`;\n",
        ),
        (
            "function f(a,b=<c/>,...d){return a}f(function(){return})",
            "function f(a, b = /*#__PURE__*/ React.createElement(\"c\", null), ...d) {\n    return a;\n}\nf(function () {\n    return;\n});\n",
        ),
        (
            "x=function g(a,){'use client';new.target;return<b/>}",
            "x = function g(a) {\n    'use client';\n    new.target;\n    return /*#__PURE__*/ React.createElement(\"b\", null);\n};\n",
        ),
        (
            "function f(){return\na}(function(){})();(function(){}).b",
            "function f() {\n    return;\n    a;\n}\n(function () {}());\n(function () {}.b);\n",
        ),
        (
            "let[]=a,[,b,,...c]=d,[e=<f/>,,]=g;const[...[h]]=i",
            "let [] = a, [, b, , ...c] = d, [e = /*#__PURE__*/ React.createElement(\"f\", null), ,] = g;\nconst [...[h]] = i;\n",
        ),
        (
            "let{}=a,{b,c=1,...d}=e;var{f:[g]=h,if:{i},'j':k,2:l,[m+(n)]:o,}=p",
            "let {} = a, { b, c = 1, ...d } = e;\nvar { f: [g] = h, if: { i }, 'j': k, 2: l, [m + n]: o } = p;\n",
        ),
        (
            "function f([a],{b}={},...[c,d]){}x=function({a=(b,c)}){return a}",
            "function f([a], { b } = {}, ...[c, d]) {}\nx = function ({ a = (b, c) }) {\n    return a;\n};\n",
        ),
        (
            "try{}catch([a,b=1]){}try{}catch({c:d}){}for(let[e]of f);for(const{g}in h);for(var[i]=j,{k=(l in m)}=n;;);",
            "try {} catch ([a, b = 1]) {}\ntry {} catch ({ c: d }) {}\nfor (let [e] of f) ;\nfor (const { g } in h) ;\nfor (var [i] = j, { k = l in m } = n;;) ;\n",
        ),
        (
            "export const[a]=b;export default function({c},...[d]){}",
            "export const [a] = b;\nexport default function ({ c }, ...[d]) {}\n",
        ),
        (
            "import'a';import b from\"c\";import*as d from'e';import{f,g as h,}from'i';import j,{k}from'l';import{}from'm'",
            "import 'a';\nimport b from \"c\";\nimport * as d from 'e';\nimport { f, g as h } from 'i';\nimport j, { k } from 'l';\nimport {} from 'm';\n",
        ),
        (
            "let a,b;export{a,b as c};export{if}from'd';export*from'e';export*as f from'g';export const h=<i/>;export function j(){}",
            "let a, b;\nexport { a, b as c };\nexport { if } from 'd';\nexport * from 'e';\nexport * as f from 'g';\nexport const h = /*#__PURE__*/ React.createElement(\"i\", null);\nexport function j() {}\n",
        ),
        (
            "class A extends B.c{constructor(a){super(a)}get b(){return<c/>}static d=1}export default class{}",
            "class A extends B.c {\n    constructor(a) {\n        super(a);\n    }\n    get b() {\n        return /*#__PURE__*/ React.createElement(\"c\", null);\n    }\n    static d = 1;\n}\nexport default class {}\n",
        ),
        (
            "x={a(){super.b},set c([d]){},get[e](){}};y=class F{'g'\nset;h(){}}",
            "x = { a() {\n    super.b;\n}, set c([d]) {}, get [e]() {} };\ny = class F {\n    'g';\n    set;\n    h() {}\n};\n",
        ),
        (
            "x=a=>b;y=(c,{d=1},...[e])=>{f(<g/>)}",
            "x = (a) => b;\ny = (c, { d = 1 }, ...[e]) => {\n    f(/*#__PURE__*/ React.createElement(\"g\", null));\n};\n",
        ),
        (
            "(a=>b)(c);x=a=>({b}),c=>{}",
            "((a) => b)(c);\nx = (a) => ({ b }), (c) => {};\n",
        ),
        (
            "[a,b.c=<d/>,...[e]]=f;({g,h:[(i)]}=j);for([k]of l)m",
            "[a, b.c = /*#__PURE__*/ React.createElement(\"d\", null), ...[e]] = f;\n({ g, h: [i] } = j);\nfor ([k] of l) m;\n",
        ),
        (
            "export default<a/>",
            "export default /*#__PURE__*/ React.createElement(\"a\", null);\n",
        ),
        (
            "export default function(a){}",
            "export default function (a) {}\n",
        ),
        (
            "x=a`\\u{${<b/>}`.c`d`;new e`f`(g)\n`h`;(i,j)``",
            "x = a`\\u{${/*#__PURE__*/ React.createElement(\"b\", null)}`.c`d`;\nnew e`f`(g)`h`;\n(i, j)``;\n",
        ),
    ] {
        assert_runs(&rt, &plain(source.as_bytes()), (Status::Done, code, ""))?;
        // Code without marks, which are comments, is its own code.
        if !code.contains("/*#__PURE__*/") {
            assert_runs(&rt, &plain(code.as_bytes()), (Status::Done, code, ""))?;
        }
    }
    Ok(())
}

/// Whether the source is refused with a line that names some place of it.
fn is_refused(alloc: Global, source: &[u8]) -> Result<bool, AllocError> {
    let mut out = MemSink::new(alloc, &[])?;
    let mut err = MemSink::new(alloc, &[])?;
    let status = run_into(alloc, &plain(source), &mut out, &mut err)?;
    Ok(
        status == Status::Fault
            && has(&out, "")
            && err.bytes().starts_with(b"input.js:")
            && err.bytes().ends_with(b": syntax error\n"),
    )
}

#[test]
fn sources_that_do_not_read(rt: HostRuntime) -> Result<(), Fail> {
    let rows: &[&[u8]] = &[
        b"const",
        b"const x",
        b"const x =",
        b"const x = <",
        b"const x = <a",
        b"const x = <a/",
        b"const x == <a/>;",
        b"const const = <a/>;",
        b"const eval = <a/>;",
        b"const x = <this/>;",
        b"const x = <a-b/>;",
        b"const x = <$/>;",
        b"const x = <a/>; /* open",
        b"const x = <a/>; \"",
        b"const x = <a/>; \0",
        b"constx a = <a/>;",
        b"a b;",
        b"a++ ++;",
        b"++a();",
        b"-x ** y;",
        b"1.x;",
        b"01;",
        b"a.;",
        b"a..b;",
        b"f(;",
        b"f(,);",
        b"f(a b);",
        b"f(...);",
        b"a ?? b || c;",
        b"a() = b;",
        b"1 = a;",
        b"eval = a;",
        b"a, b,;",
        b"x = {a b};",
        b"x = {__proto__: a, __proto__: b};",
        b"x = {a() {};",
        b"x = {a = 1};",
        b"new import(a);",
        b"new.target;",
        b"new a = b;",
        b"new a?.b;",
        b"a?.b = c;",
        b"a?.b`c`;",
        b"import.metas;",
        b"import a, from 'b';",
        b"import {if} from 'a';",
        b"import 'a' b;",
        b"{import 'a'}",
        b"export {if};",
        b"export default class {",
        b"class {}",
        b"class A { get b(c) {} }",
        b"class A { a() { super(); } }",
        b"class A { constructor() {} constructor() {} }",
        b"export a;",
        b"function () {}",
        b"function f(...a, b) {}",
        b"function f(a = 1) {'use strict'}",
        b"function f() {break}",
        b"while (a) {function f() {continue}}",
        b"if (a) function f() {}",
        b"return;",
        b"delete a;",
        b"delete (a);",
        b"const a;",
        b"const a = 1,;",
        b"const {a};",
        b"let [a];",
        b"let [...a,] = b;",
        b"let {...[a]} = b;",
        b"let {a.b} = c;",
        b"let {if} = a;",
        b"function f(...[a], b) {}",
        b"function f([a]) {'use strict'}",
        b"try {} catch ([a] = b) {}",
        b"for (let [a] = b of c);",
        b"for ([a()] of b);",
        b"[a()] = b;",
        b"({a = 1});",
        b"(a",
        b"()",
        b"(a.b) => c;",
        b"a => {}.b;",
        b"(a, b) = c;",
        b"(a?.b) = c;",
        b"((eval))++;",
        b"const x = <a/> const y = <b/>;",
        b"f(\"a\nb\");",
        b"<a></a>;",
    ];
    for source in rows {
        assert!(rt;
            is_refused(rt.alloc(), source) == Ok(true),
            "the bytes {:?}",
            source
        );
    }
    Ok(())
}

#[test]
fn places_of_syntax_errors(rt: HostRuntime) -> Result<(), Fail> {
    // The place is the begin of the first token with which no tree begins, and its column is counted in characters.
    for (source, line) in &[
        ("a b", "input.js:1:3: syntax error\n"),
        ("x;\n\na b;", "input.js:3:3: syntax error\n"),
        (
            "'\u{e9}\u{20ac}\u{1f600}';a b",
            "input.js:1:9: syntax error\n",
        ),
        ("'\u{e9}'\r\n;a b", "input.js:2:4: syntax error\n"),
        ("/*\u{2028}*/a b", "input.js:1:8: syntax error\n"),
        ("a = [\n", "input.js:2:1: syntax error\n"),
    ] {
        assert_refused(&rt, source.as_bytes(), line)?;
    }
    Ok(())
}

#[test]
fn places_of_early_errors_on_names(rt: HostRuntime) -> Result<(), Fail> {
    // The place is the later name, or the name `eval`.
    for (source, line) in &[
        ("let a; let a;", "input.js:1:12: name error\n"),
        (
            "let a;\n\n'\u{e9}\u{1f600}'; let a;",
            "input.js:3:11: name error\n",
        ),
        (
            "export default 1;\nexport /*\u{20ac}*/ default 2;",
            "input.js:2:14: name error\n",
        ),
        ("eval(a);\nlet a, a;", "input.js:2:8: name error\n"),
        ("(eval)(x);", "input.js:1:2: direct eval\n"),
        ("/*\u{1f600}*/ eval(a)", "input.js:1:7: direct eval\n"),
    ] {
        assert_refused(&rt, source.as_bytes(), line)?;
    }
    Ok(())
}

fn assert_refused(rt: &(impl Abort + AllocGlobal), source: &[u8], line: &str) -> Result<(), Fail> {
    assert_runs(rt, &plain(source), (Status::Fault, "", line))
}

#[test]
fn bytes_that_are_not_utf8(rt: HostRuntime) -> Result<(), Fail> {
    assert_refused(&rt, b"\xff", "input.js: not UTF-8 at byte 0\n")?;
    let middle = b"const x = <\xc3/>;";
    assert_refused(&rt, middle, "input.js: not UTF-8 at byte 11\n")?;
    let end = b"const x = <a/>;\xe2\x82";
    assert_refused(&rt, end, "input.js: not UTF-8 at byte 15\n")?;
    // The bytes are looked at before the text.
    assert_refused(&rt, b"a b;\xc3\xa9\x80", "input.js: not UTF-8 at byte 6\n")
}

const CODE: &str = "const x = /*#__PURE__*/ React.createElement(\"a\", null);\n";

/// A run in which nothing fails.
const WELL: Given<'static> = Given {
    word: None,
    source: b"const x = <a/>;",
    bad_reads: &[],
    bad_writes: &[],
    bad_lines: &[],
};

#[test]
fn faults_of_sources(rt: HostRuntime) -> Result<(), Fail> {
    // With words nothing is read, so no read can fail.
    let word = Given {
        word: Some("--map"),
        bad_reads: &[0],
        ..WELL
    };
    assert_runs(&rt, &word, (Status::Usage, "", BAD_WORDS))?;
    for reads in [&[0u32], &[1]] {
        let read = Given {
            bad_reads: reads,
            ..WELL
        };
        assert_runs(&rt, &read, (Status::Read, "", READ_FAULT))?;
    }
    Ok(())
}

#[test]
fn reads_end_with_the_first_that_gives_nothing(rt: HostRuntime) -> Result<(), Fail> {
    let later_read = Given {
        bad_reads: &[2],
        ..WELL
    };
    assert_runs(&rt, &later_read, (Status::Done, CODE, ""))
}

#[test]
fn code_goes_out_in_one_write(rt: HostRuntime) -> Result<(), Fail> {
    let code_write = Given {
        bad_writes: &[0],
        ..WELL
    };
    assert_runs(&rt, &code_write, (Status::Write, "", ""))?;
    let later_write = Given {
        bad_writes: &[1],
        bad_lines: &[0],
        ..WELL
    };
    assert_runs(&rt, &later_write, (Status::Done, CODE, ""))?;
    // Nothing is written of an empty code, so no write can fail.
    let no_write = Given {
        source: b"",
        bad_writes: &[0],
        ..WELL
    };
    assert_runs(&rt, &no_write, (Status::Done, "", ""))
}

#[test]
fn a_line_goes_out_in_one_write(rt: HostRuntime) -> Result<(), Fail> {
    let line_write = Given {
        source: b"c d",
        bad_lines: &[0],
        ..WELL
    };
    assert_runs(&rt, &line_write, (Status::Write, "", ""))?;
    let later_write = Given {
        source: b"c d",
        bad_lines: &[1],
        bad_writes: &[0],
        ..WELL
    };
    assert_runs(
        &rt,
        &later_write,
        (Status::Fault, "", "input.js:1:3: syntax error\n"),
    )
}

#[test]
fn a_source_as_great_as_may_be(rt: HostRuntime) -> Result<(), Fail> {
    let mut blanks = vec![in rt.alloc(); b' '; MAX_SOURCE]?;
    assert_runs(&rt, &plain(&blanks), (Status::Done, "", ""))?;
    blanks.push(b' ')?;
    // The read with the number 256 gives the byte that is too many, and no further one is made.
    let too_big = Given {
        word: None,
        source: &blanks,
        bad_reads: &[257],
        bad_writes: &[],
        bad_lines: &[],
    };
    assert_runs(&rt, &too_big, (Status::Fault, "", TOO_BIG))
}

/// A name in so many pairs of parentheses, on the second line.
fn in_parentheses(alloc: Global, pairs: usize) -> Result<String, AllocError> {
    let mut text = String::new(alloc);
    text.push('\n')?;
    text.push_str("(".repeat(alloc, pairs)?.as_str())?;
    text.push('a')?;
    text.push_str(")".repeat(alloc, pairs)?.as_str())?;
    text.push(';')?;
    Ok(text)
}

#[test]
fn a_source_as_deep_as_may_be(rt: HostRuntime) -> Result<(), Fail> {
    let deepest = in_parentheses(rt.alloc(), 499)?;
    assert_runs(&rt, &plain(deepest.as_bytes()), (Status::Done, "a;\n", ""))?;
    let too_deep = in_parentheses(rt.alloc(), 500)?;
    assert_runs(
        &rt,
        &plain(too_deep.as_bytes()),
        (Status::Fault, "", "input.js:2:501: nested too deep\n"),
    )
}

/// The place at which a module nests too deep, if it does.
fn too_deep(alloc: Global, text: &str, depth: u32) -> Option<u32> {
    if text.len() >= 1000 {
        return None;
    }
    match compile(alloc, text.as_bytes(), Goal::Module, depth) {
        Err(CompileError::TooDeep(at)) => Some(at),
        _ => None,
    }
}

/// Whether a module is compiled that nests so deep.
fn is_compiled(alloc: Global, text: &str, depth: u32) -> bool {
    text.len() < 1000 && compile(alloc, text.as_bytes(), Goal::Module, depth).is_ok()
}

#[test]
fn compiles_as_deep_as_is_said(rt: HostRuntime) {
    for (text, depth, place) in &[
        ("a;", 0, 0),
        (";", 0, 0),
        ("(a);", 1, 1),
        ("((a));", 2, 2),
        ("((a, [b]) => c);", 3, 6),
        ("<a/>;", 1, 1),
        ("f(<a/>, <B/>, x.y);", 2, 3),
    ] {
        assert!(rt;
            too_deep(rt.alloc(), text, *depth) == Some(*place),
            "at {text}"
        );
        assert!(rt;
            is_compiled(rt.alloc(), text, depth.saturating_add(1)),
            "at {text}"
        );
    }
    assert!(rt; is_compiled(rt.alloc(), "", 0));
}

/// Whether a script is compiled to this code.
fn compiles_to(alloc: Global, text: &str, want: &str) -> bool {
    if text.len() >= 1000 {
        return false;
    }
    match compile(alloc, text.as_bytes(), Goal::Script, MAX_DEPTH) {
        Ok(output) => output.code.as_bytes() == want.as_bytes(),
        Err(_) => false,
    }
}

#[test]
fn compiles_scripts(rt: HostRuntime) {
    for (text, want) in &[
        (
            "'use strict'\n{function f() {}}",
            "'use strict';\n{\n    function f() {}\n}\n",
        ),
        (
            "('use strict');import('a')",
            "('use strict');\nimport('a');\n",
        ),
        (
            "a = class {b() {{function c() {}}}}",
            "a = class {\n    b() {\n        {\n            function c() {}\n        }\n    }\n};\n",
        ),
        (
            "function f() {return <A/>}",
            "function f() {\n    return /*#__PURE__*/ React.createElement(A, null);\n}\n",
        ),
    ] {
        assert!(rt; compiles_to(rt.alloc(), text, want), "at {text}");
    }
}
