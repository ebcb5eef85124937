//! A whole source.

ghost use Rattle.std.specs.Prelude.{◌≡◌, ◌<◌, ◌≤◌, ℕ, IfOk, length, vec_len};
ghost use Rattle.jsx_base.specs.Faults.{Rose};
ghost use Rattle.jsx_base.specs.Source.{Gives};
ghost use Rattle.react_compile.specs.Run.{TakesAll, TakesFew, TakesTooMany, max_source};

use jsx_base::{Failed, Source};
use std::alloc::{AllocError, Global};

/// The greatest number of bytes that a source may have.
pub const MAX_SOURCE: usize = 16_777_216;

/// How many bytes are asked for in one read.
const CHUNK: usize = 65_536;

/// Why there is no whole source.
#[derive(Clone, Copy, Debug, PartialEq, Eq)]
pub enum InputError {
    /// A read failed.
    Failed,
    /// The source gave more than `MAX_SOURCE` bytes.
    TooBig,
    Memory,
}

impl From<Failed> for InputError {
    ghost use Rattle.std.specs.Prelude.{◌≡◌};
    ghost use Rattle.react_compile.specs.declared.input.InputError.TheVariants.{Failed};

    ghost from_gives = { λ _ e. e ≡ Failed };

    fn from(_: Failed) -> InputError {
        InputError::Failed
    }
}

impl From<AllocError> for InputError {
    ghost use Rattle.std.specs.Prelude.{◌≡◌};
    ghost use Rattle.react_compile.specs.declared.input.InputError.TheVariants.{Memory};

    ghost from_gives = { λ _ e. e ≡ Memory };

    fn from(_: AllocError) -> InputError {
        InputError::Memory
    }
}

/// Room for the bytes of one read.
fn new_chunk(alloc: Global) -> Result<Vec<u8>, AllocError>
    ensures { IfOk result (λ chunk. vec_len chunk ≡ CHUNK) }
{
    vec![in alloc; 0u8; CHUNK]
}

/// Reads a source to its end.
pub fn read_all<S: Source>(alloc: Global, input: &mut S) -> Result<Vec<u8>, InputError>
    ensures all { IfOk result (λ bytes. TakesAll (S.left input.old) (S.left input.new) bytes.items) }
    ensures few { IfOk result (λ bytes. vec_len bytes ≤ max_source) }
    ensures too_big { result ≡ Err InputError.TooBig → TakesTooMany (S.left input.old) (S.left input.new) }
    ensures bounded { TakesFew (S.left input.old) (S.left input.new) }
    ensures failed { result ≡ Err InputError.Failed → Rose (S.faults input.old) (S.faults input.new) }
{
    let mut bytes = Vec::new(alloc);
    let mut chunk = new_chunk(alloc)?;
    'reads: while bytes.len() <= MAX_SOURCE {
        let count = input.read(&mut chunk)?;
        if count == 0 {
            return Ok(bytes);
        }
        bytes.extend_from_slice(&chunk[..count])?;
    }
    Err(InputError::TooBig)
}
