//! The first early error of small programs, by their events, and the scope of each name: each name is at
//! its place in the text.

use crate::{EarlyError, Event, Frame, Sort, bindings, check};
use jsx_base::BytePos;
use std::test::Fail;

fn declares(sort: Sort, name: &str, at: u32) -> Event<'_> {
    Event::Declares {
        in_head: false,
        sort,
        name,
        at: BytePos(at),
    }
}

/// `let x; { let y; { var x; } } let y;`
#[test]
fn a_var_clashes_with_what_it_goes_through(rt: HostRuntime) -> Result<(), Fail> {
    let events = [
        Event::Opens(Frame::Script),
        declares(Sort::Lexical, "x", 4),
        Event::Opens(Frame::Block),
        declares(Sort::Lexical, "y", 13),
        Event::Opens(Frame::Block),
        declares(Sort::Var, "x", 22),
        Event::Closes,
        Event::Closes,
        declares(Sort::Lexical, "y", 33),
        Event::Closes,
    ];
    let wanted = Err(EarlyError::Scope(BytePos(22)));
    assert!(rt; check(rt.alloc(), &events)? == wanted);
    Ok(())
}

/// `function f(x) { var x; { let x; } } eval(f);`
#[test]
fn a_call_of_eval_is_found_where_no_names_clash(rt: HostRuntime) -> Result<(), Fail> {
    let events = [
        Event::Opens(Frame::Script),
        declares(Sort::Function, "f", 9),
        Event::Opens(Frame::Function),
        declares(Sort::Parameter, "x", 11),
        Event::Enters,
        declares(Sort::Var, "x", 20),
        Event::Opens(Frame::Block),
        declares(Sort::Lexical, "x", 29),
        Event::Closes,
        Event::Closes,
        Event::Evals(BytePos(36)),
        Event::Refers("eval", BytePos(36)),
        Event::Refers("f", BytePos(41)),
        Event::Closes,
    ];
    let wanted = Err(EarlyError::DirectEval(BytePos(36)));
    assert!(rt; check(rt.alloc(), &events)? == wanted);
    Ok(())
}

/// `export { a }; { var a; } eval(a); export { b };`
#[test]
fn a_name_that_is_exported_must_be_declared(rt: HostRuntime) -> Result<(), Fail> {
    let events = [
        Event::Opens(Frame::Module),
        Event::Wants("a", BytePos(9)),
        Event::Exports("a", BytePos(9)),
        Event::Opens(Frame::Block),
        declares(Sort::Var, "a", 20),
        Event::Closes,
        Event::Evals(BytePos(25)),
        Event::Wants("b", BytePos(43)),
        Event::Exports("b", BytePos(43)),
        Event::Closes,
    ];
    let wanted = Err(EarlyError::Scope(BytePos(43)));
    assert!(rt; check(rt.alloc(), &events)? == wanted);
    Ok(())
}

/// `export let a; export { a as a };`
#[test]
fn a_name_is_exported_once(rt: HostRuntime) -> Result<(), Fail> {
    let events = [
        Event::Opens(Frame::Module),
        declares(Sort::Lexical, "a", 11),
        Event::Exports("a", BytePos(11)),
        Event::Wants("a", BytePos(23)),
        Event::Exports("a", BytePos(28)),
        Event::Closes,
    ];
    assert!(rt; check(rt.alloc(), &events)? == Err(EarlyError::Scope(BytePos(28))));
    assert!(rt; check(rt.alloc(), &events[..4])? == Ok(()));
    Ok(())
}

/// `function f(a = b) { var b; { b; } } f; c;`
#[test]
fn parameters_do_not_see_the_body(rt: HostRuntime) -> Result<(), Fail> {
    let events = [
        Event::Opens(Frame::Script),
        declares(Sort::Function, "f", 9),
        Event::Opens(Frame::Function),
        Event::Declares {
            in_head: true,
            sort: Sort::Parameter,
            name: "a",
            at: BytePos(11),
        },
        Event::Refers("b", BytePos(15)),
        Event::Enters,
        declares(Sort::Var, "b", 24),
        Event::Opens(Frame::Block),
        Event::Refers("b", BytePos(29)),
        Event::Closes,
        Event::Closes,
        Event::Refers("f", BytePos(36)),
        Event::Refers("c", BytePos(39)),
        Event::Closes,
    ];
    let wanted: [Option<usize>; 7] = [Some(0), Some(2), None, Some(2), Some(2), Some(0), None];
    assert!(rt; bindings(rt.alloc(), &events)?.as_slice() == wanted.as_slice());
    Ok(())
}
