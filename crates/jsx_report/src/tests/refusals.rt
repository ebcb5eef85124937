use super::{Lines, delay_bug, holds};
use crate::{EmitError, Handler, HandlerError};
use std::alloc::Global;

/// A handler over an emitter that refuses after one report.
fn refusing(alloc: Global, refusal: EmitError) -> Handler<Lines> {
    let mut lines = Lines::new(alloc);
    lines.left = 1;
    lines.refusal = refusal;
    Handler::with_emitter(alloc, true, false, lines)
}

fn second_is_refused(handler: &mut Handler<Lines>, refusal: EmitError) -> bool {
    let refused = HandlerError::Emit(refusal);
    let second = handler.err("a").is_ok() && handler.err("b") == Err(refused);
    second && handler.bug("c") == refused && handler.err_count() == 1
}

#[test]
fn a_refused_error_is_not_counted(rt: HostRuntime) {
    for refusal in [EmitError::WriteFault, EmitError::Memory] {
        let mut handler = refusing(rt.alloc(), refusal);
        assert!(rt; second_is_refused(&mut handler, refusal));
        assert!(rt; holds(handler, "a\n"));
    }
}

fn bugs_wait_on(alloc: Global, handler: &mut Handler<Lines>) -> bool {
    let refused = Err(HandlerError::Emit(EmitError::WriteFault));
    let first = delay_bug(alloc, handler, "a").is_ok() && delay_bug(alloc, handler, "b").is_ok();
    let second = handler.finish() == refused;
    handler.reset_err_count();
    first && second && handler.finish() == refused
}

#[test]
fn bugs_wait_from_the_refused_one_on(rt: HostRuntime) {
    let mut handler = refusing(rt.alloc(), EmitError::WriteFault);
    assert!(rt; bugs_wait_on(rt.alloc(), &mut handler));
    assert!(rt; holds(handler, "a\n"));
}
