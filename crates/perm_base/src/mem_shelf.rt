//! A shelf in memory, of which chosen calls fail.

ghost use Rattle.std.specs.Prelude.{◌≡◌, ◌⊎◌, ◌≤◌, ◌+◌, ◌↔◌, length, IfOk, OnErr, OnOk, IsErr, IsTrue};
ghost use Rattle.std.specs.Option.{option_copied};
ghost use Rattle.perm_base.specs.Calls.{is_next_failing, faults_after};
ghost use Rattle.perm_base.specs.Counts.{Rose, next_count};
ghost use Rattle.perm_base.specs.Files.{HasNoFile, WhereTold, Copies};
ghost use Rattle.perm_base.specs.MemFiles.{files_of, told_of, copied_count, copied};

use crate::outside::{Failed, Shelf};

/// A file in memory.
#[derive(Debug, Drop)]
pub struct MemFile {
    pub path: String,
    pub bytes: Vec<u8>,
}

/// Files in memory; of equal paths the first counts.
#[derive(Debug, Drop)]
pub struct MemShelf {
    pub files: Vec<MemFile>,
    /// The numbers of the calls that fail. The first call has the number 1.
    pub fail: Vec<u64>,
    /// How many calls were made. At the greatest `u64` the count stands still.
    pub calls: u64,
    /// How many calls failed by their numbers.
    pub faults: u64,
}

impl Shelf for MemShelf {
    ghost told = { λ shelf. told_of shelf.files.items };

    ghost faults = { λ shelf. shelf.faults };

    ghost reads = { λ shelf. shelf.calls };

    ghost read_gives = { λ old _ _ _ _ new. new.calls ≡ next_count old.calls };

    fn read(&mut self, path: &str, at: u64, into: &mut [u8]) -> Result<usize, Failed>
        ensures unchanged { told_of self.new.files.items ≡ told_of self.old.files.items }
        ensures not_fewer { self.old.faults ≤ self.new.faults }
        ensures no_fault { OnOk result (self.new.faults ≡ self.old.faults) }
        ensures reads { self.new.calls ≤ self.old.calls + 1 }
        ensures given { self.new.calls ≡ next_count self.old.calls }

        ensures within { IfOk result (λ n. n ≤ length into.new) }
        ensures copied { IfOk result (λ n.
            WhereTold (told_of self.old.files.items) path.now (λ bytes. Copies bytes at n into.new)) }
        ensures missing { HasNoFile (told_of self.old.files.items) path.now → IsErr result }
        ensures failed { OnErr result
            (Rose self.old.faults self.new.faults ⊎ HasNoFile (told_of self.old.files.items) path.now) }

        // What the call does, exactly.
        ensures refused { IsErr result
            ↔ (IsTrue (is_next_failing self.old.fail.items self.old.calls)
            ⊎ HasNoFile (told_of self.old.files.items) path.now) }
        ensures gives { IfOk result (λ n. WhereTold (told_of self.old.files.items) path.now (λ bytes.
            (n ≡ copied_count bytes at into.old) × (into.new ≡ copied bytes at into.old))) }
        ensures kept { OnErr result (into.new ≡ into.old) }
        ensures after { self.new ≡ record self.old {
          calls = next_count self.old.calls;
          faults = faults_after self.old.fail.items self.old.calls self.old.faults;
        } }
    {
        self.calls = self.calls.saturating_add(1);
        if self.fail.contains(&self.calls) {
            self.faults = self.faults.saturating_add(1);
            return Err(Failed);
        }
        let bytes = find_file(&self.files, path).ok_or(Failed)?;
        Ok(copy_from(bytes, at, into))
    }
}

/// The bytes of the first file with this path.
fn find_file<'a>(files: &'a [MemFile], path: &str) -> Option<&'a [u8]>
    ensures { option_copied result ≡ files_of files.now path.now }
{
    for file in files {
        if file.path.as_str() == path {
            return Some(file.bytes.as_slice());
        }
    }
    None
}

/// Copies from the place on, as many bytes as fit.
fn copy_from(bytes: &[u8], at: u64, into: &mut [u8]) -> usize
    ensures count { result ≡ copied_count bytes.now at into.old }
    ensures into { into.new ≡ copied bytes.now at into.old }
{
    let at = at as usize;
    if at >= bytes.len() {
        return 0;
    }
    let count = (bytes.len() - at).min(into.len());
    into[..count].copy_from_slice(&bytes[at..at + count]);
    count
}
