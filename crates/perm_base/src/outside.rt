//! What a program reads from and writes to, as traits.

ghost use Rattle.std.specs.Prelude.{◌≡◌, ◌⊎◌, ◌+◌, ◌<◌, ◌≤◌, ℕ, List, length, take, Option, IfOk, OnErr, OnOk, IsErr};
ghost use Rattle.std.specs.Result.{result_ok};
ghost use Rattle.perm_base.specs.Counts.{Rose};
ghost use Rattle.perm_base.specs.Files.{Files, HasNoFile, WhereTold, Copies};
ghost use Rattle.perm_base.specs.Pieces.{appended};

/// A read or a write that the outside refused.
#[derive(Clone, Copy, Debug, PartialEq, Eq)]
pub struct Failed;

/// Holds files under paths.
pub trait Shelf {
    /// What stands under each path, where the shelf tells it.
    ghost told: { Self → Option Files };

    /// How often a fault refused a read. At the greatest `u64` the count stands still.
    ghost faults: { Self → ℕ };

    /// A number that a call of `read` raises by one at most, as a count of the calls.
    ghost reads: { Self → ℕ };

    /// What a call of `read` may do: the shelf before it, the path, the place, the length of the buffer,
    /// the number that came where there is one, and the shelf after it.
    ghost read_gives: { Self → List ℕ → ℕ → ℕ → Option ℕ → Self → Type 0 };

    /// Copies bytes of the file under `path`, from the place `at` on, to the front of `into`.
    /// The number is that of the copied bytes.
    fn read(&mut self, path: &str, at: u64, into: &mut [u8]) -> Result<usize, Failed>
        ensures unchanged { told self.new ≡ told self.old }
        ensures not_fewer { faults self.old ≤ faults self.new }
        ensures no_fault { OnOk result (faults self.new ≡ faults self.old) }
        ensures reads { reads self.new ≤ reads self.old + 1 }
        ensures given { read_gives self.old path.now at (length into.old) (result_ok result) self.new }

        ensures within { IfOk result (λ n. n ≤ length into.new) }
        ensures copied { IfOk result (λ n.
            WhereTold (told self.old) path.now (λ bytes. Copies bytes at n into.new)) }
        ensures missing { HasNoFile (told self.old) path.now → IsErr result }
        ensures failed { OnErr result
            (Rose (faults self.old) (faults self.new) ⊎ HasNoFile (told self.old) path.now) };
}

/// Takes the output.
pub trait Sink {
    /// The bytes that were taken, where the sink tells them.
    ghost told: { Self → Option (List ℕ) };

    /// How often a write was refused. At the greatest `u64` the count stands still.
    ghost faults: { Self → ℕ };

    /// What a call of `write` may do: the sink before it, the piece, the number of bytes taken where there
    /// is one, and the sink after it.
    ghost write_gives: { Self → List ℕ → Option ℕ → Self → Type 0 };

    /// Takes bytes from the front of `piece`. The number is that of the taken bytes.
    fn write(&mut self, piece: &[u8]) -> Result<usize, Failed>
        requires { 0 < length piece.now }

        ensures not_fewer { faults self.old ≤ faults self.new }
        ensures no_fault { OnOk result (faults self.new ≡ faults self.old) }
        ensures given { write_gives self.old piece.now (result_ok result) self.new }

        ensures within { IfOk result (λ n. n ≤ length piece.now) }
        ensures some { IfOk result (λ n. 0 < n) }
        ensures taken { IfOk result (λ n.
            told self.new ≡ appended (told self.old) (take n piece.now)) }
        ensures kept { OnErr result (told self.new ≡ told self.old) }
        ensures failed { OnErr result (Rose (faults self.old) (faults self.new)) };
}
