//! A whole run on one thread: each par runs its left side to the end, and then its right side.

ghost use Rattle.std.specs.Prelude.{◌≡◌, ◌+◌, ◌^◌, ◌<◌, ◌≤◌, ◌≢◌, [], length, None, Some, IfOk, IfErr, vec_len, vec_capacity};
ghost use Rattle.perm_tree.specs.CodeOf.{code_of};
ghost use Rattle.perm_meaning.specs.Outcome.{outcome};
ghost use Rattle.perm_step.specs.Opens.{opening_size, IsOpened, IsNotOpened};
ghost use Rattle.perm_step.specs.ParMoves.{final_of, EndsAs};
ghost use Rattle.perm_step.specs.Reports.{IsReport};
ghost use Rattle.perm_step.specs.Runs.{weight, CanGoOn, GoesOn, IsAtPar, IsComing, IsShort, IsThrough, Opening, Starts};
ghost use Rattle.perm_step.specs.Working.{Working};
ghost use Rattle.perm_step.specs.Tells.{HasRoot, IsFull, Tells};

use crate::ask::Ask;
use crate::control::{Control, Leaf};
use crate::ends::told_end;
use crate::heap::{Heap, Shortage};
use crate::pars::{Final, Forked};
use perm_core::laws;
use perm_meaning::{End, Outcome};
use perm_rules::Checked;
use perm_tree::bodies::{Action, Bodies};
use perm_tree::errors::NoMemory;
use perm_tree::list::List;
use std::alloc::Global;
use std::mem;

/// A par whose parent waits: for the left side, with the right side kept aside, or for the right side, with the left side, which has ended.
#[derive(Debug, Drop)]
enum Waiting {
    ForLeft { parent: Control, right: Control },
    ForRight { parent: Control, left: Leaf },
}

/// The branch that runs, the pars that wait for it with the innermost last, and the heap.
#[derive(Debug, Drop)]
struct Run {
    leaf: Leaf,
    waiting: Vec<Waiting>,
    heap: Heap,
}

/// Runs `Run` on an object of `Main` and the input, on a heap of so many words. Each par runs its left side first.
pub fn run_alone(
    alloc: Global,
    checked: &Checked,
    input: &[i64],
    turns: u64,
    heap: u64,
) -> Result<Outcome, NoMemory>
    requires input { length input.now ≤ 524288 }
    requires turns { turns ≤ 2 ^ 40 }
    requires heap { heap ≤ 4194304 }
    ensures tells { IfOk result (Tells (outcome (code_of checked.now) input.now turns heap)) }
    ensures root { IfOk result (HasRoot input.now) }
{
    laws::checked(checked);
    let unit = checked.unit();
    unit.resolved();
    let bodies = unit.bodies();
    let mut heap = Heap::new(alloc, heap);
    let control = match open(alloc, bodies, input, turns, &mut heap) {
        Ok(control) => control,
        Err(shortage) => return full(alloc, shortage),
    };
    let mut run = Run {
        leaf: Leaf::running(control),
        waiting: Vec::new(alloc),
        heap,
    };
    match run.to_end(alloc, bodies) {
        Ok(end) => {
            // The object of `Main` lies behind the input.
            let root = input.len().max(1) as u64 + 1;
            Ok(run.report(end, turns, root))
        }
        Err(shortage) => full(alloc, shortage),
    }
}

impl Run {
    /// Runs until the root has ended, and answers how.
    fn to_end(&mut self, alloc: Global, bodies: &Bodies) -> Result<Final, Shortage>
        requires coming { (o : Opening) × IsComing o bodies.now self.old }
        ensures through { IfOk result (λ end. (o : Opening) → IsComing o bodies.now self.old → IsThrough o bodies.now self.new end) }
        ensures short { IfErr result (λ e. (o : Opening) → IsComing o bodies.now self.old → IsShort o e) }
    {
        loop {
            match self.leaf.end(bodies) {
                None => self.turn(alloc, bodies)?,
                Some(end) => match self.waiting.pop() {
                    None => return Ok(end),
                    Some(waiting) => self.go_on(bodies, end, waiting)?,
                },
            }
        }
    }

    /// One turn of the branch that runs.
    #[inline(always)]
    fn turn(&mut self, alloc: Global, bodies: &Bodies) -> Result<(), Shortage>
        requires coming { (o : Opening) × IsComing o bodies.now self.old }
        requires due { EndsAs bodies.now self.old.leaf.control self.old.leaf.ending None }
        ensures goes { IfOk result (λ _. (o : Opening) → IsComing o bodies.now self.old → IsComing o bodies.now self.new) }
        ensures less { IfOk result (λ _. weight self.new < weight self.old) }
        ensures short { IfErr result (λ e. (o : Opening) → IsComing o bodies.now self.old → IsShort o e) }
    {
        let step = self.leaf.control.step(bodies);
        self.leaf.control.make_room(bodies, &step.action)?;
        match self.leaf.control.ask(bodies, &step.action) {
            Ok(ask) => {
                if ask.is_fork() {
                    return Ok(self.start_par(alloc, bodies)?);
                }
                let word = self.heap.answer(ask)?;
                self.leaf.proceed(bodies, step, word);
            }
            Err(kind) => self.leaf.trap(kind, step.span),
        }
        Ok(())
    }

    /// Starts the left side of a par, and keeps the right one aside.
    fn start_par(&mut self, alloc: Global, bodies: &Bodies) -> Result<(), NoMemory>
        requires runs { self.old.leaf.ending ≡ None }
        requires par { IsAtPar bodies.now self.old.leaf.control }
        requires due { 0 < self.old.leaf.control.turns }
        requires deep { self.old.leaf.control.depth < 2 ^ 32 }
        ensures { IfOk result (λ _. Starts bodies.now self.old self.new) }
    {
        let step = self.leaf.control.step(bodies);
        let Action::Par(first, second, _) = step.action else {
            unreachable!();
        };
        self.waiting.reserve(1)?;
        let Forked { parent, right } = self.leaf.control.fork(alloc, first, second)?;
        self.waiting
            .push_reserved(Waiting::ForLeft { parent, right });
        Ok(())
    }

    /// Goes on where a side has ended: with the right side after the left one, and with the parent after the right one.
    fn go_on(&mut self, bodies: &Bodies, end: Final, waiting: Waiting) -> Result<(), NoMemory>
        requires can { CanGoOn bodies.now self.old.leaf end waiting }
        requires room { vec_len self.old.waiting < vec_capacity self.old.waiting }
        ensures { IfOk result (λ _. GoesOn bodies.now end waiting self.old self.new) }
    {
        match waiting {
            Waiting::ForLeft { parent, right } => {
                let left = mem::replace(&mut self.leaf, Leaf::running(right));
                self.waiting
                    .push_reserved(Waiting::ForRight { parent, left });
            }
            Waiting::ForRight { mut parent, left } => {
                let Some(left_end) = left.end(bodies) else {
                    unreachable!();
                };
                let ending = parent.join(bodies, &left.control, left_end, &self.leaf.control, end)?;
                self.leaf = Leaf {
                    control: parent,
                    ending,
                };
            }
        }
        Ok(())
    }

    /// What is told of a run that has ended, where the object of `Main` has this reference.
    fn report(self, end: Final, turns: u64, root: u64) -> Outcome
        requires { end ≢ Final.Fine }
        ensures { IsReport turns (final_of self.leaf.control end) self.heap.words root result }
    {
        let Run {
            leaf,
            waiting: _,
            heap,
        } = self;
        let (printed, left) = leaf.control.into_printed();
        let words = heap.into_words();
        Outcome {
            end: told_end(end),
            printed: List::from_vec(printed),
            spent: turns.saturating_sub(left),
            need: words.len() as u64,
            words: List::from_vec(words),
            root,
        }
    }
}

/// Makes the input array and the object of `Main`, and enters `Run`.
fn open(
    alloc: Global,
    bodies: &Bodies,
    input: &[i64],
    turns: u64,
    heap: &mut Heap,
) -> Result<Control, Shortage>
    requires there { bodies.now.run < length bodies.now.entries }
    requires input { length input.now ≤ 524288 }
    requires fresh { heap.old.words ≡ [] }
    requires small { heap.old.limit ≤ 4194304 }
    ensures opened { IfOk result (λ control. IsOpened bodies.now input.now turns heap.old.limit control heap.new) }
    ensures refused { IfErr result (IsNotOpened (opening_size bodies.now input.now) heap.old.limit) }
{
    let array = heap.answer(Ask::Make(input.len(), input.len()))?;
    heap.write_numbers(input);
    let root = heap.answer(Ask::Make(bodies.fields as usize, 0))?;
    Ok(Control::enter(alloc, bodies, root, array, turns)?)
}

/// What is told of a run that got no more words: of a full heap nothing but that.
fn full(alloc: Global, shortage: Shortage) -> Result<Outcome, NoMemory>
    ensures { IfOk result (λ o. (shortage ≡ Shortage.HeapFull) × IsFull o) }
{
    match shortage {
        Shortage::NoMemory => Err(NoMemory),
        Shortage::HeapFull => Ok(Outcome {
            end: End::HeapFull,
            printed: List::new(alloc),
            spent: 0,
            need: 0,
            words: List::new(alloc),
            root: 0,
        }),
    }
}
