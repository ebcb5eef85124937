//! A source's bytes to its code.

ghost use Rattle.std.specs.Prelude.{◌≡◌, ◌⊎◌, ◌<◌, ◌≤◌, ℕ, IfOk, IfErr, OnOk, IsOkUnless, length, string_bytes};
ghost use Rattle.std.specs.Str.{IsUtf8, IsValidUpTo};
ghost use Rattle.react_compile.specs.ParseErrors.{IsNotUtf8};
ghost use Rattle.jsx_tree.specs.Kinds.{Tree};
ghost use Rattle.jsx_tree.specs.Depth.{depth as tree_depth};
ghost use Rattle.jsx_base.specs.Token as token;
ghost use Rattle.jsx_tree.specs.declared.text.Goal as goals;
ghost use Rattle.jsx_token.specs.Stage.{ReadsSoFar};
ghost use Rattle.jsx_tree.specs.ViewProgram.{view};
ghost use Rattle.jsx_tree.specs.Normal.{without_parentheses};
ghost use Rattle.jsx_heard.specs.Early.{IsClean};
ghost use Rattle.react_compile.specs.Compiles.{Compiles, IsCodeFor, IsSource};
ghost use Rattle.react_compile.specs.Names.{HasClash, HasDirectEval};

use crate::lower::lower;
use jsx_base::BytePos;
use jsx_print::print;
use jsx_scope::{ScopeError, early, parenthesise};
use jsx_syntax::{ParseError, parse};
use jsx_tree::{Goal, Program};
use std::alloc::{AllocError, Global};
use std::str;

/// What the compiler makes of a source.
#[derive(Debug, Drop)]
pub struct Output {
    pub code: String,
}

/// Why a source wasn't compiled.
#[derive(Clone, Copy, Debug, PartialEq, Eq)]
pub enum CompileError {
    /// The bytes aren't UTF-8. The number is how many of them are the longest front that is.
    NotUtf8(usize),
    /// No tree reads the text. The number is the place, in bytes, at which this was seen.
    Syntax(u32),
    /// What stands in one another nests too deep. The number is the place, in bytes, of the token with which it comes to that.
    TooDeep(u32),
    /// A declaration clashes with one before it, or an export with one before it or with what the module declares. The number is the
    /// place, in bytes, of the later one.
    Scope(u32),
    /// `eval` is called directly. The number is the place, in bytes, of its name.
    DirectEval(u32),
    /// There was too little memory.
    Memory,
}

impl From<AllocError> for CompileError {
    ghost use Rattle.std.specs.Prelude.{◌≡◌};
    ghost use Rattle.react_compile.specs.declared.compiler.CompileError.TheVariants.{Memory};

    ghost from_gives = { λ _ e. e ≡ Memory };

    fn from(_: AllocError) -> CompileError {
        CompileError::Memory
    }
}

impl From<ParseError> for CompileError {
    ghost use Rattle.std.specs.Prelude.{◌≡◌};
    ghost use Rattle.react_compile.specs.ParseErrors.{compile_error};

    ghost from_gives = { λ e f. f ≡ compile_error e };

    fn from(e: ParseError) -> CompileError {
        match e {
            ParseError::Syntax(at) => CompileError::Syntax(at.0),
            ParseError::TooDeep(at) => CompileError::TooDeep(at.0),
            ParseError::Memory => CompileError::Memory,
        }
    }
}

impl From<ScopeError> for CompileError {
    ghost use Rattle.std.specs.Prelude.{◌≡◌};
    ghost use Rattle.react_compile.specs.ParseErrors.{error_on_names};

    ghost from_gives = { λ e f. f ≡ error_on_names e };

    fn from(e: ScopeError) -> CompileError {
        match e {
            ScopeError::Scope(at) => CompileError::Scope(at.0),
            ScopeError::DirectEval(at) => CompileError::DirectEval(at.0),
            ScopeError::Memory => CompileError::Memory,
        }
    }
}

/// The text that the bytes are.
fn text_of(source: &[u8]) -> Result<&str, CompileError>
    ensures same { IfOk result (λ text. text.now ≡ source.now) }
    ensures utf8 { OnOk result (IsUtf8 source.now) }
    ensures not_utf8 { IfErr result (IsNotUtf8 source.now) }
{
    match str::from_utf8(source) {
        Ok(text) => Ok(text),
        Err(e) => Err(CompileError::NotUtf8(e.valid_up_to())),
    }
}

/// The code of a program that was read: its elements are lowered, pairs of parentheses put where they are needed, and the whole
/// printed.
fn code_of(alloc: Global, program: &mut Program<'_>) -> Result<String, AllocError>
    ensures { IfOk result (λ code. (goal : goals.Goal) (source : token.Text) (written : Tree) → ReadsSoFar goal source written → view program.old ≡ without_parentheses written → IsCodeFor goal written (string_bytes code)) }
{
    let comments = lower(alloc, program)?;
    parenthesise(alloc, program)?;
    let printed = print(alloc, program, &comments)?;
    Ok(printed.text)
}

/// Compiles a module or a script.
///
/// # Errors
///
/// `NotUtf8` exactly where the bytes aren't UTF-8, before the text is looked at; `Syntax` where no tree reads the text, and `TooDeep`
/// where none does that is no deeper than is said. Of a tree that is no deeper, `Scope` exactly where it has an early error on names,
/// and `DirectEval` where it has none and calls `eval` directly, at the first of these; `Memory` for want of memory.
pub fn compile(alloc: Global, source: &[u8], goal: Goal, depth: u32) -> Result<Output, CompileError>
    requires { length source.now < 4294901760 }
    ensures compiled { IfOk result (λ output. Compiles goal source.now (string_bytes output.code)) }
    ensures not_utf8 { (n : ℕ) → result ≡ Err (CompileError.NotUtf8 n) → IsValidUpTo source.now n }
    ensures up_to { (n : ℕ) → IsValidUpTo source.now n → result ≡ Err (CompileError.NotUtf8 n) }
    ensures text { (at : ℕ) → result ≡ Err (CompileError.Syntax at) → IsUtf8 source.now }
    ensures refused { (at : ℕ) → result ≡ Err (CompileError.Syntax at) → (tree : Tree) → IsSource goal source.now tree → ⊥ }
    ensures place { (at : ℕ) → result ≡ Err (CompileError.Syntax at) → at ≤ length source.now }
    ensures deep_text { (at : ℕ) → result ≡ Err (CompileError.TooDeep at) → IsUtf8 source.now }
    ensures too_deep { (at : ℕ) → result ≡ Err (CompileError.TooDeep at) → (tree : Tree) → IsSource goal source.now tree → depth < tree_depth tree }
    ensures deep_place { (at : ℕ) → result ≡ Err (CompileError.TooDeep at) → at ≤ length source.now }
    ensures scope { (at : ℕ) → result ≡ Err (CompileError.Scope at) → HasClash goal source.now depth at }
    ensures clash { (at : ℕ) → HasClash goal source.now depth at → (result ≡ Err (CompileError.Scope at)) ⊎ (result ≡ Err CompileError.Memory) }
    ensures direct_eval { (at : ℕ) → result ≡ Err (CompileError.DirectEval at) → HasDirectEval goal source.now depth at }
    ensures called { (at : ℕ) → HasDirectEval goal source.now depth at → (result ≡ Err (CompileError.DirectEval at)) ⊎ (result ≡ Err CompileError.Memory) }
    ensures shallow { OnOk result ((tree : Tree) → IsSource goal source.now tree → tree_depth tree ≤ depth) }
    ensures complete { (tree : Tree) → IsSource goal source.now tree → tree_depth tree ≤ depth → IsClean (without_parentheses tree) → IsOkUnless result CompileError.Memory }
{
    let text = text_of(source)?;
    let mut program = parse(alloc, text, BytePos(0), goal, depth)?;
    early(alloc, &program)?;
    let code = code_of(alloc, &mut program)?;
    Ok(Output { code })
}
