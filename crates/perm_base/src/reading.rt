//! Reading a file whole.

ghost use Rattle.std.specs.Prelude.{◌≡◌, ◌⊎◌, ◌+◌, ◌<◌, ◌≤◌, List, ℕ, ◌++◌, length, take, vec_len, IfOk, IfErr, IfSome, IsErrOf, Some};
ghost use Rattle.perm_base.specs.Counts.{Rose};
ghost use Rattle.perm_base.specs.Files.{HasFile, HasNoFile, WhereTold, Copies};
ghost use Rattle.perm_base.specs.Reads.{AreReadsFor, GaveFor, HasCause, IsAnswerFor, LeavesCount};
ghost use Rattle.perm_base.specs.declared.reading.ReadFault.TheVariants as causes;

use crate::outside::{Failed, Shelf};
use perm_tree::errors::NoMemory;
use std::alloc::{AllocError, AllocFailed, Global};
use thiserror::Error;

/// The greatest limit that `read_text` is called with, in bytes.
pub const GREATEST_LIMIT: u64 = 134_217_728;

/// How many bytes one read asks for at most.
const PIECE: usize = 4096;

/// Why a file wasn't read whole.
#[derive(Clone, Copy, Debug, PartialEq, Eq, Error)]
pub enum ReadFault {
    /// A read was refused: the outside failed, or no file is there.
    #[error("a read failed")]
    Fault,
    /// The file has more bytes than the limit.
    #[error("the file is too long")]
    TooLong,
    /// There was no memory for what was read.
    #[error("out of memory")]
    NoMemory,
}

impl From<Failed> for ReadFault {
    ghost from_gives = { λ _ e. e ≡ causes.Fault };

    fn from(_: Failed) -> ReadFault {
        ReadFault::Fault
    }
}

impl From<NoMemory> for ReadFault {
    ghost from_gives = { λ _ e. e ≡ causes.NoMemory };

    fn from(_: NoMemory) -> ReadFault {
        ReadFault::NoMemory
    }
}

impl<T: Drop> From<AllocFailed<T>> for ReadFault {
    ghost from_gives = { λ _ e. e ≡ causes.NoMemory };

    fn from(_: AllocFailed<T>) -> ReadFault {
        ReadFault::NoMemory
    }
}

impl From<AllocError> for ReadFault {
    ghost from_gives = { λ _ e. e ≡ causes.NoMemory };

    fn from(_: AllocError) -> ReadFault {
        ReadFault::NoMemory
    }
}

/// Reads the file under `path` whole, in pieces, if it has at most `limit` bytes.
pub fn read_text<F: Shelf>(
    alloc: Global,
    shelf: &mut F,
    path: &str,
    limit: u64,
) -> Result<Vec<u8>, ReadFault>
    requires { limit ≤ GREATEST_LIMIT }

    // Whether or not a count rose.
    ensures whole { IfOk result (λ text.
        IfSome (F.told shelf.old) (λ files. files path.now ≡ Some text.items)) }
    ensures within { IfOk result (λ text. vec_len text ≤ limit) }
    ensures too_long { IsErrOf result ReadFault.TooLong
        → WhereTold (F.told shelf.old) path.now (λ bytes. limit < length bytes) }
    ensures fault { IsErrOf result ReadFault.Fault
        → Rose (F.faults shelf.old) (F.faults shelf.new)
        ⊎ HasNoFile (F.told shelf.old) path.now }
    ensures missing { HasNoFile (F.told shelf.old) path.now
        → IsErrOf result ReadFault.Fault ⊎ IsErrOf result ReadFault.NoMemory }

    // Where no read failed.
    ensures honest { (bytes : List ℕ) → HasFile (F.told shelf.old) path.now bytes
        → ¬ Rose (F.faults shelf.old) (F.faults shelf.new) → IsAnswerFor bytes limit result }

    ensures unchanged { F.told shelf.new ≡ F.told shelf.old }
    ensures not_fewer { F.faults shelf.old ≤ F.faults shelf.new }
    ensures counts { LeavesCount result (F.faults shelf.old) (F.faults shelf.new) }
    ensures reads { F.reads shelf.new ≤ F.reads shelf.old + limit + 1 }
    ensures pieces { AreReadsFor F.read_gives path.now limit shelf.old result shelf.new }
{
    let most = limit as usize + 1;
    let mut text = Vec::new(alloc);
    let mut piece = [0; PIECE];
    while text.len() < most {
        let size = (most - text.len()).min(PIECE);
        if read_piece(shelf, path, &mut text, &mut piece[..size])? == 0 {
            return Ok(text);
        }
    }
    Err(ReadFault::TooLong)
}

/// Reads once from behind what was read, and appends what came. The number is that of the bytes
/// that came.
fn read_piece<F: Shelf>(
    shelf: &mut F,
    path: &str,
    text: &mut Vec<u8>,
    piece: &mut [u8],
) -> Result<usize, ReadFault>
    ensures within { IfOk result (λ n. n ≤ length piece.old) }
    ensures text_length { IfOk result (λ n. vec_len text.new ≡ vec_len text.old + n) }
    ensures copied { IfOk result (λ n. WhereTold (F.told shelf.old) path.now
        (λ bytes. Copies bytes (vec_len text.old) n piece.new)) }
    ensures appended { IfOk result (λ n. text.new.items ≡ text.old.items ++ take n piece.new) }
    ensures cause { IfErr result (λ e.
        HasCause e (F.told shelf.old) path.now (F.faults shelf.old) (F.faults shelf.new)) }
    ensures unchanged { F.told shelf.new ≡ F.told shelf.old }
    ensures not_fewer { F.faults shelf.old ≤ F.faults shelf.new }
    ensures counts { LeavesCount result (F.faults shelf.old) (F.faults shelf.new) }
    ensures reads { F.reads shelf.new ≤ F.reads shelf.old + 1 }
    ensures given { GaveFor (λ came. F.read_gives shelf.old path.now (vec_len text.old) (length piece.old) came shelf.new) result }
{
    let read = shelf.read(path, text.len() as u64, piece)?;
    text.extend_from_slice(&piece[..read])?;
    Ok(read)
}
