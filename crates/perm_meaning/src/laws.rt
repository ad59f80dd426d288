//! Laws of the meaning, of the machine on names and of the machine on words. A law does nothing: its contract is the claim.

ghost use Rattle.std.specs.Prelude.{ℕ, ℤ, List};
ghost use Rattle.perm_tree.specs.Code.{UnitCode};
ghost use Rattle.perm_tree.specs.CodeOf.{code_of};
ghost use Rattle.perm_tree.specs.Resolves.{IsResolved};
ghost use Rattle.perm_tree.specs.UnitTables.{Tables};
ghost use Rattle.perm_meaning.specs.Claims.{EndsAsMeaning, FillsAsMeaning, HolderGoesLeftFirst, WordsEndAsMeaning, WordsFillAsMeaning, WordsShowNames};
ghost use Rattle.perm_meaning.specs.Custody.{Custody};
ghost use Rattle.perm_meaning.specs.Machine.{Marks};
ghost use Rattle.perm_meaning.specs.NamedHeap.{named};
ghost use Rattle.perm_meaning.specs.Turns.{machine};
ghost use Rattle.perm_meaning.specs.Words.{words};

/// The machine on names, left first, ends as the meaning says, or comes to the refused allocation that fills the heap.
pub fn left_first()
    ensures ends { (u : UnitCode) (limit : ℕ) (input : List ℤ) (turns : ℕ) → EndsAsMeaning u limit input turns }
    ensures fills { (u : UnitCode) (limit : ℕ) (input : List ℤ) (turns : ℕ) → FillsAsMeaning u limit input turns }
{}

/// A holder goes left first, on names and on words, which bear no marks.
pub fn holders()
    ensures on_names { (c : Custody) (u : UnitCode) → HolderGoesLeftFirst (named c u) }
    ensures on_words { (c : Custody) (g : Marks (Unit {0})) (u : UnitCode) → HolderGoesLeftFirst (machine words c g u) }
{}

/// On the code of every unit the machine on words, left first, shows the machine on names after each event, and so it ends as the meaning says, or comes to the refused allocation that fills the heap.
pub fn on_words()
    ensures shows { (unit : Tables) (limit : ℕ) (c : Custody) (input : List ℤ) (turns : ℕ) → IsResolved unit → WordsShowNames (code_of unit) limit c input turns }
    ensures ends { (unit : Tables) (limit : ℕ) (input : List ℤ) (turns : ℕ) → IsResolved unit → WordsEndAsMeaning (code_of unit) limit input turns }
    ensures fills { (unit : Tables) (limit : ℕ) (input : List ℤ) (turns : ℕ) → IsResolved unit → WordsFillAsMeaning (code_of unit) limit input turns }
{}
