//! The text of a program.

ghost use Rattle.std.specs.Prelude.{◌≡◌, ◌++◌, IfOk, IsTrue, OnOk, map, string_bytes};
ghost use Rattle.std.specs.List.{list_any};
ghost use Rattle.std.specs.Str.{chars};
ghost use Rattle.jsx_base.specs.Comments.{is_marked};
ghost use Rattle.jsx_tree.specs.declared.text.Goal.{Goal};
ghost use Rattle.jsx_tree.specs.Fits.{fits};
ghost use Rattle.jsx_tree.specs.Normal.{laid_tree};
ghost use Rattle.jsx_tree.specs.Program.{is_goal, Reads};
ghost use Rattle.jsx_tree.specs.Told.{told};
ghost use Rattle.jsx_tree.specs.ViewProgram.{view};
ghost use Rattle.jsx_pen.specs.Pen.{begin, joint, mark, portion_of, puts, signs};
ghost use Rattle.jsx_plan.specs.Noted.{noted_program};
ghost use Rattle.jsx_plan.specs.Plan.{job_of, pen_of, with_tree};
ghost use Rattle.jsx_print.specs.Printing.{IsPrinted, marked_text};

use crate::module::open_program;
use crate::run::run;
use jsx_base::{BytePos, Comments};
use jsx_pen::{Draft, Stretch};
use jsx_plan::Printer;
use jsx_tree::Program;
use std::alloc::{AllocError, Global};

/// The text that is printed of a program.
#[derive(Debug, Drop)]
pub struct Printed {
    pub text: String,
}

/// Prints a program. Where it fits its places, the text is its layout, with a mark before the first token of each call for
/// whose place the comments have one, and reads as the program that is laid. No other comment is written. A program with JSX
/// doesn't fit.
///
/// # Errors
///
/// `AllocError` for want of memory.
pub fn print<C: Comments>(
    alloc: Global,
    program: &Program<'_>,
    comments: &C,
) -> Result<Printed, AllocError>
    ensures marks { IfOk result (λ p. IsTrue (fits (view program.now)) → chars (string_bytes p.text) ≡ marked_text (is_marked (C.marked comments.now)) (view program.now) (told program.now)) }
    ensures layout { IfOk result (λ p. IsTrue (fits (view program.now)) → IsPrinted (view program.now) (chars (string_bytes p.text))) }
    ensures reads { IfOk result (λ p. (goal : Goal) → IsTrue (is_goal goal (view program.now)) → IsTrue (fits (view program.now)) → Reads goal (chars (string_bytes p.text)) (laid_tree (view program.now))) }
{
    let draft = draft(alloc, program)?;
    let mut text = marked(alloc, source_len(program), &draft.stretches, comments)?;
    text.push_str(draft.rest.as_str())?;
    Ok(Printed { text })
}

/// The text of a program, in stretches that end where a call begins.
#[tactic(auto, using(crate::proofs::Prints::drafting))]
fn draft(alloc: Global, program: &Program<'_>) -> Result<Draft, AllocError>
    ensures stretches { IfOk result (λ d. map portion_of d.stretches.items ≡ (puts begin (signs (noted_program program.now))).done) }
    ensures rest { IfOk result (λ d. chars (string_bytes d.rest) ≡ (puts begin (signs (noted_program program.now))).written) }
{
    let mut printer = Printer::new(alloc)?;
    match write(&mut printer, program) {
        Ok(()) => Ok(printer.finish()),
        Err(error) => Err(error),
    }
}

/// These stretches one behind the other, each with a mark behind it where the comments have one for a call that begins there.
#[tactic(auto, using(crate::proofs::Prints::nothing))]
fn marked<C: Comments>(
    alloc: Global,
    capacity: usize,
    stretches: &[Stretch],
    comments: &C,
) -> Result<String, AllocError>
    ensures { IfOk result (λ text. chars (string_bytes text) ≡ joint (is_marked (C.marked comments.now)) (map portion_of stretches.now)) }
{
    let mut text = String::with_capacity(alloc, capacity)?;
    for stretch in stretches {
        push_stretch(&mut text, stretch, comments)?;
    }
    Ok(text)
}

/// A stretch, and the mark behind it.
fn push_stretch<C: Comments>(
    text: &mut String,
    stretch: &Stretch,
    comments: &C,
) -> Result<(), AllocError>
    ensures { OnOk result (chars (string_bytes text.new) ≡ chars (string_bytes text.old) ++ ((portion_of stretch.now).0 ++ mark (list_any (is_marked (C.marked comments.now)) (portion_of stretch.now).1))) }
{
    text.push_str(stretch.text.as_str())?;
    if has_mark(&stretch.calls, comments) {
        text.push_str("/*#__PURE__*/ ")?;
    }
    Ok(())
}

/// Whether one of these places has a mark.
fn has_mark<C: Comments>(calls: &[BytePos], comments: &C) -> bool
    ensures { result ≡ list_any (is_marked (C.marked comments.now)) (map (λ b. b.0) calls.now) }
{
    for call in calls {
        if comments.has_pure(*call) {
            return true;
        }
    }
    false
}

/// All of a program.
fn write<'a, 's>(printer: &mut Printer<'a, 's>, program: &'a Program<'s>) -> Result<(), AllocError>
    ensures { OnOk result (pen_of (job_of printer.new) ≡ with_tree (job_of printer.old) (noted_program program.now)) }
{
    open_program(printer, program)?;
    run(printer)
}

/// About how long the text will be.
fn source_len(program: &Program<'_>) -> usize {
    let span = match program {
        Program::Module(module) => module.span,
        Program::Script(script) => script.span,
    };
    span.hi.0.saturating_sub(span.lo.0) as usize
}
