//! The program: its words, a source and two sinks.

ghost use Rattle.std.specs.Prelude.{◌≡◌, ◌⊎◌, ◌≢◌, ◌<◌, ◌≤◌, ℕ, List, [], Option, Some, length};
ghost use Rattle.std.specs.Str.{IsUtf8};
ghost use Rattle.jsx_base.specs.Faults.{Rose};
ghost use Rattle.jsx_base.specs.Sink.{Gains, GainsPrefix};
ghost use Rattle.jsx_tree.specs.declared.text.Goal.TheVariants as goals;
ghost use Rattle.jsx_tree.specs.Kinds.{Tree};
ghost use Rattle.jsx_tree.specs.Depth.{depth};
ghost use Rattle.jsx_tree.specs.Normal.{without_parentheses};
ghost use Rattle.jsx_heard.specs.Early.{IsClean};
ghost use Rattle.react_compile.specs.Status.{exit_code, IsTold};
ghost use Rattle.react_compile.specs.Compiles.{IsSource};
ghost use Rattle.react_compile.specs.Lines.{bad_words, read_fault, out_of_memory, not_utf8, max_depth, fault_at};
ghost use Rattle.react_compile.specs.Run.{WritesCode, WritesPrefix, TakesFew, KeepsTold, TellsWhy, TellsTooBig, TellsPrefix, GainsCode, GainsCodePrefix, GainsWhy, GainsWhyPrefix, IsValid, max_source};

use crate::compiler::{CompileError, compile};
use crate::error_line::{fault_line, not_utf8_line};
#[cfg(test)]
use crate::input::MAX_SOURCE;
use crate::input::{InputError, read_all};
use jsx_base::{Sink, Source};
use jsx_tree::Goal;
use std::alloc::Global;

/// How a run ended.
#[derive(Clone, Copy, Debug, PartialEq, Eq)]
pub enum Status {
    Done,
    /// The source isn't compiled.
    Fault,
    /// The words are wrong.
    Usage,
    /// A read failed.
    Read,
    /// A write failed.
    Write,
    Memory,
}

impl Status {
    /// The exit status.
    pub fn code(self) -> u8
        ensures { result ≡ exit_code self }
    {
        match self {
            Status::Done => 0,
            Status::Fault => 1,
            Status::Usage => 2,
            Status::Read => 3,
            Status::Write => 4,
            Status::Memory => 5,
        }
    }
}

const BAD_WORDS: &str = "error: bad words\n";

const READ_FAULT: &str = "error: read fault\n";

const OUT_OF_MEMORY: &str = "error: out of memory\n";

const TOO_BIG: &str = "input.js: input too big\n";

const SYNTAX_ERROR: &str = "syntax error";

const TOO_DEEP: &str = "nested too deep";

const NAME_ERROR: &str = "name error";

const DIRECT_EVAL: &str = "direct eval";

/// How deep what stands in one another in a source may nest.
const MAX_DEPTH: u32 = 500;

/// Says that memory is wanting, within the room that there is.
fn short_of_memory<E: Sink>(err: &mut E) -> Status
    requires { 64 ≤ E.room err.old }
    ensures ends { (result ≡ Status.Memory) ⊎ (result ≡ Status.Write) }
    ensures said { result ≡ Status.Memory → Gains (E.holds err.old) (E.holds err.new) out_of_memory }
    ensures prefix { result ≡ Status.Write → GainsPrefix (E.holds err.old) (E.holds err.new) out_of_memory }
    ensures write { result ≡ Status.Write → Rose (E.faults err.old) (E.faults err.new) }
{
    match err.write(OUT_OF_MEMORY.as_bytes()) {
        Ok(()) => Status::Memory,
        Err(_) => Status::Write,
    }
}

/// Says a line, and answers the status that goes with it where the line could be said.
fn tell<E: Sink>(err: &mut E, line: &str, status: Status) -> Status
    requires room { 64 ≤ E.room err.old }
    requires told { IsTold status }
    ensures ends { (result ≡ status) ⊎ ((result ≡ Status.Memory) ⊎ (result ≡ Status.Write)) }
    ensures said { result ≡ status → Gains (E.holds err.old) (E.holds err.new) line.now }
    ensures memory { result ≡ Status.Memory → Gains (E.holds err.old) (E.holds err.new) out_of_memory }
    ensures prefix { result ≡ Status.Write → GainsPrefix (E.holds err.old) (E.holds err.new) line.now ⊎ GainsPrefix (E.holds err.old) (E.holds err.new) out_of_memory }
    ensures write { result ≡ Status.Write → Rose (E.faults err.old) (E.faults err.new) }
{
    if err.reserve(line.len()).is_err() {
        return short_of_memory(err);
    }
    match err.write(line.as_bytes()) {
        Ok(()) => status,
        Err(_) => Status::Write,
    }
}

/// Says that the bytes aren't UTF-8, of which so many are.
fn tell_not_utf8<E: Sink>(alloc: Global, at: usize, err: &mut E) -> Status
    requires { 64 ≤ E.room err.old }
    ensures ends { (result ≡ Status.Fault) ⊎ ((result ≡ Status.Memory) ⊎ (result ≡ Status.Write)) }
    ensures said { result ≡ Status.Fault → Gains (E.holds err.old) (E.holds err.new) (not_utf8 at) }
    ensures memory { result ≡ Status.Memory → Gains (E.holds err.old) (E.holds err.new) out_of_memory }
    ensures prefix { result ≡ Status.Write → GainsPrefix (E.holds err.old) (E.holds err.new) (not_utf8 at) ⊎ GainsPrefix (E.holds err.old) (E.holds err.new) out_of_memory }
    ensures write { result ≡ Status.Write → Rose (E.faults err.old) (E.faults err.new) }
{
    match not_utf8_line(alloc, at) {
        Ok(line) => tell(err, line.as_str(), Status::Fault),
        Err(_) => short_of_memory(err),
    }
}

/// Says what is wrong with the source, with the place at which this was seen.
fn tell_fault<E: Sink>(alloc: Global, fault: &str, source: &[u8], at: u32, err: &mut E) -> Status
    requires room { 64 ≤ E.room err.old }
    requires short { length source.now ≤ max_source }
    requires utf8 { IsUtf8 source.now }
    ensures ends { (result ≡ Status.Fault) ⊎ ((result ≡ Status.Memory) ⊎ (result ≡ Status.Write)) }
    ensures said { result ≡ Status.Fault → Gains (E.holds err.old) (E.holds err.new) (fault_at fault.now source.now at) }
    ensures memory { result ≡ Status.Memory → Gains (E.holds err.old) (E.holds err.new) out_of_memory }
    ensures prefix { result ≡ Status.Write → GainsPrefix (E.holds err.old) (E.holds err.new) (fault_at fault.now source.now at) ⊎ GainsPrefix (E.holds err.old) (E.holds err.new) out_of_memory }
    ensures write { result ≡ Status.Write → Rose (E.faults err.old) (E.faults err.new) }
{
    match fault_line(alloc, fault, source, at) {
        Ok(line) => tell(err, line.as_str(), Status::Fault),
        Err(_) => short_of_memory(err),
    }
}

/// Writes the code. An empty one isn't written.
#[tactic(auto, using(crate::proofs::Sinks::telling))]
fn emit<O: Sink, E: Sink>(code: &[u8], out: &mut O, err: &mut E) -> Status
    requires { 64 ≤ E.room err.old }
    ensures ends { (result ≡ Status.Done) ⊎ ((result ≡ Status.Memory) ⊎ (result ≡ Status.Write)) }
    ensures done { result ≡ Status.Done → Gains (O.holds out.old) (O.holds out.new) code.now }
    ensures done_says { result ≡ Status.Done → err.new ≡ err.old }
    ensures unwritten { result ≡ Status.Done → code.now ≡ [] → out.new ≡ out.old }
    ensures memory { result ≡ Status.Memory → O.holds out.new ≡ O.holds out.old }
    ensures memory_says { result ≡ Status.Memory → Gains (E.holds err.old) (E.holds err.new) out_of_memory }
    ensures write { result ≡ Status.Write → Rose (O.faults out.old) (O.faults out.new) ⊎ Rose (E.faults err.old) (E.faults err.new) }
    ensures prefix { result ≡ Status.Write → GainsPrefix (O.holds out.old) (O.holds out.new) code.now }
    ensures prefix_says { result ≡ Status.Write → GainsPrefix (E.holds err.old) (E.holds err.new) out_of_memory }
    ensures one_sink { result ≡ Status.Write → (O.holds out.new ≡ O.holds out.old) ⊎ (err.new ≡ err.old) }
{
    if code.is_empty() {
        return Status::Done;
    }
    if out.reserve(code.len()).is_err() {
        return short_of_memory(err);
    }
    match out.write(code) {
        Ok(()) => Status::Done,
        Err(_) => Status::Write,
    }
}

/// Compiles a source, and writes its code or says why there is none.
#[tactic(auto, using(crate::proofs::Sinks::telling))]
fn compile_to<O: Sink, E: Sink>(alloc: Global, source: &[u8], out: &mut O, err: &mut E) -> Status
    requires short { length source.now ≤ max_source }
    requires room { 64 ≤ E.room err.old }

    ensures ends { (result ≡ Status.Done) ⊎ ((result ≡ Status.Fault) ⊎ ((result ≡ Status.Memory) ⊎ (result ≡ Status.Write))) }

    ensures done { result ≡ Status.Done → GainsCode source.now (O.holds out.old) (O.holds out.new) }
    ensures done_says { result ≡ Status.Done → err.new ≡ err.old }
    ensures done_out { result ≡ Status.Done → KeepsTold (O.holds out.old) (O.holds out.new) → out.new ≡ out.old }

    ensures fault { result ≡ Status.Fault → (tree : Tree) → IsSource goals.Module source.now tree → IsClean (without_parentheses tree) → max_depth < depth tree }
    ensures fault_out { result ≡ Status.Fault → out.new ≡ out.old }
    ensures fault_says { result ≡ Status.Fault → GainsWhy source.now (E.holds err.old) (E.holds err.new) }

    ensures memory { result ≡ Status.Memory → O.holds out.new ≡ O.holds out.old }
    ensures memory_says { result ≡ Status.Memory → Gains (E.holds err.old) (E.holds err.new) out_of_memory }

    ensures write { result ≡ Status.Write → Rose (O.faults out.old) (O.faults out.new) ⊎ Rose (E.faults err.old) (E.faults err.new) }
    ensures prefix { result ≡ Status.Write → (O.holds out.new ≡ O.holds out.old) ⊎ GainsCodePrefix source.now (O.holds out.old) (O.holds out.new) }
    ensures prefix_says { result ≡ Status.Write → GainsPrefix (E.holds err.old) (E.holds err.new) out_of_memory ⊎ GainsWhyPrefix source.now (E.holds err.old) (E.holds err.new) }
    ensures one_sink { result ≡ Status.Write → (O.holds out.new ≡ O.holds out.old) ⊎ (err.new ≡ err.old) }
{
    match compile(alloc, source, Goal::Module, MAX_DEPTH) {
        Ok(output) => emit(output.code.as_bytes(), out, err),
        Err(CompileError::NotUtf8(at)) => tell_not_utf8(alloc, at, err),
        Err(CompileError::Syntax(at)) => tell_fault(alloc, SYNTAX_ERROR, source, at, err),
        Err(CompileError::TooDeep(at)) => tell_fault(alloc, TOO_DEEP, source, at, err),
        Err(CompileError::Scope(at)) => tell_fault(alloc, NAME_ERROR, source, at, err),
        Err(CompileError::DirectEval(at)) => tell_fault(alloc, DIRECT_EVAL, source, at, err),
        Err(CompileError::Memory) => short_of_memory(err),
    }
}

/// Runs the compiler: reads a source to its end, and writes its code to `out` or says on `err` why there is none.
///
/// No words are taken so far, and with words the source isn't read. The code goes out in one write, for which room is
/// reserved before; an empty code isn't written. After a write that fails nothing more is written. A line on `err` ends
/// with LF. The one of a source that isn't UTF-8 names the byte, and the one of a syntax error, of a source that nests too deep, of an
/// early error on names or of a direct call of `eval` the line and the column, in characters, from 1. A source has at most 16,777,216 bytes, and no more than one read beyond them is
/// taken; what stands in one another in it nests at most 500 deep.
#[tactic(auto, using(crate::proofs::Sinks::telling))]
pub fn run<S: Source, O: Sink, E: Sink>(
    alloc: Global,
    words: &[String],
    input: &mut S,
    out: &mut O,
    err: &mut E,
) -> Status
    requires { 64 ≤ E.room err.old }

    // Code is written only for a source that reads, and stands for it.
    ensures done { result ≡ Status.Done → WritesCode (S.left input.old) (S.left input.new) (O.holds out.old) (O.holds out.new) }
    ensures done_says { result ≡ Status.Done → err.new ≡ err.old }
    ensures unwritten { result ≡ Status.Done → KeepsTold (O.holds out.old) (O.holds out.new) → out.new ≡ out.old }
    ensures prefix { result ≡ Status.Write → (O.holds out.new ≡ O.holds out.old) ⊎ WritesPrefix (S.left input.old) (S.left input.new) (O.holds out.old) (O.holds out.new) }
    ensures nothing { result ≢ Status.Done → result ≢ Status.Write → O.holds out.new ≡ O.holds out.old }
    ensures untouched { (result ≡ Status.Fault) ⊎ ((result ≡ Status.Usage) ⊎ (result ≡ Status.Read)) → out.new ≡ out.old }
    ensures one_sink { result ≡ Status.Write → (O.holds out.new ≡ O.holds out.old) ⊎ (err.new ≡ err.old) }

    // Of the source no more is taken than may have to be seen.
    ensures unread { words.now ≢ [] → input.new ≡ input.old }
    ensures bounded { TakesFew (S.left input.old) (S.left input.new) }

    // Each other status has its cause, and its line.
    ensures fault { result ≡ Status.Fault → TellsWhy (S.left input.old) (S.left input.new) (E.holds err.old) (E.holds err.new) ⊎ TellsTooBig (S.left input.old) (S.left input.new) (E.holds err.old) (E.holds err.new) }
    ensures usage { result ≡ Status.Usage → words.now ≢ [] }
    ensures usage_says { result ≡ Status.Usage → Gains (E.holds err.old) (E.holds err.new) bad_words }
    ensures words { words.now ≢ [] → (result ≡ Status.Usage) ⊎ ((result ≡ Status.Memory) ⊎ (result ≡ Status.Write)) }
    ensures read { result ≡ Status.Read → Rose (S.faults input.old) (S.faults input.new) }
    ensures read_says { result ≡ Status.Read → Gains (E.holds err.old) (E.holds err.new) read_fault }
    ensures write { result ≡ Status.Write → Rose (O.faults out.old) (O.faults out.new) ⊎ Rose (E.faults err.old) (E.faults err.new) }
    ensures write_says { result ≡ Status.Write → TellsPrefix (words.now ≢ []) (S.left input.old) (S.left input.new) (S.faults input.old) (S.faults input.new) (E.holds err.old) (E.holds err.new) }
    ensures memory_says { result ≡ Status.Memory → Gains (E.holds err.old) (E.holds err.new) out_of_memory }

    // Valid input, which isn't too deep and has no early errors on names, gives code, or want of memory.
    ensures complete { words.now ≡ [] → IsValid (S.left input.old) (S.faults input.old) (S.faults input.new) (O.faults out.old) (O.faults out.new) (E.faults err.old) (E.faults err.new) → (result ≡ Status.Done) ⊎ (result ≡ Status.Memory) }
{
    if !words.is_empty() {
        return tell(err, BAD_WORDS, Status::Usage);
    }
    match read_all(alloc, input) {
        Ok(source) => compile_to(alloc, &source, out, err),
        Err(InputError::TooBig) => tell(err, TOO_BIG, Status::Fault),
        Err(InputError::Failed) => tell(err, READ_FAULT, Status::Read),
        Err(InputError::Memory) => short_of_memory(err),
    }
}

#[cfg(test)]
mod tests;
