//! The control of a branch event by event, for whoever holds its heap and its other branches.

ghost use Rattle.std.specs.Prelude.{◌≡◌, ℕ, ◌≤◌, ◌^◌, ◌↔◌, IfErr, IfOk, IsTrue, OnErr};
ghost use Rattle.perm_tree.specs.Code.{UnitCode};
ghost use Rattle.perm_tree.specs.CodeOf.{code_of};
ghost use Rattle.perm_meaning.specs.Machine.{Final};
ghost use Rattle.perm_step.specs.Stems.{op_for, HasRoom, IsNext, IsReady, IsRootStack, Means, Stem};
ghost use Rattle.perm_step.specs.StemMoves.{word_by, AreSides, Begins, Forks, IsAnswered, IsAnswerFor, IsAtFork, IsFinished, Rejoins, Resumes, TellsEnd};

use crate::ask::Ask;
use crate::control::{Control, Leaf, reference_to};
use crate::ends::{Finished, told_end};
use crate::pars::Forked;
use perm_core::laws;
use perm_rules::Checked;
use perm_tree::bodies::{Action, Bodies};
use perm_tree::errors::NoMemory;
use perm_tree::list::List;
use std::alloc::Global;
use std::marker::Model;

/// What the next event of a branch asks of whoever runs it: nothing of the heap; to load the word at a place, to store a word there, or to swap it with 0; so many new words, at least one; or to start a par. Or the branch has ended: a side of a par, or the root.
#[derive(Clone, Copy, Debug, PartialEq, Eq)]
pub enum Op {
    Tick,
    Load(u64),
    Store(u64, u64),
    Take(u64),
    Alloc(u64),
    Par,
    BranchEnd,
    Ended,
}

/// What a branch is told of its next event: the word that is found, of new words the place of the first; or that there is no room for new words.
#[derive(Clone, Copy, Debug, PartialEq, Eq)]
pub enum Answered {
    Word(u64),
    Full,
}

/// A branch that runs or has ended, with the parents that wait for it as their left side. It reads the bodies of the unit that it was started for.
#[derive(Debug, Drop)]
pub struct Ctl<'a> {
    bodies: &'a Bodies,
    leaf: Leaf,
    parents: Vec<Control>,
    on_right: bool,
}

impl<'a> Model for Ctl<'a> {
    ghost use Rattle.perm_step.specs.Stems.{Stack};

    ghost Value = { Stack };

    ghost view = { λ c. record { bodies = c.bodies.now; leaf = c.leaf; parents = c.parents.items; on_right = c.on_right } };
}

/// Makes room for the next step. The meaning stays, whatever is answered.
pub fn room(checked: &Checked, ctl: &mut Ctl) -> Result<(), NoMemory>
    requires means { (s : Stem) × Means (code_of checked.now) ctl.old s }
    ensures room { IfOk result (λ _. HasRoom ctl.new) }
    ensures means { (s : Stem) → Means (code_of checked.now) ctl.old s → Means (code_of checked.now) ctl.new s }
{
    let bodies = ctl.bodies;
    let step = ctl.leaf.control.step(bodies);
    ctl.leaf.control.make_room(bodies, &step.action)
}

/// What is next of a branch.
pub fn next(checked: &Checked, ctl: &mut Ctl) -> Op
    requires ready { (s : Stem) × IsReady (code_of checked.now) ctl.old s }
    requires room { HasRoom ctl.old }
    ensures next { (s : Stem) → IsReady (code_of checked.now) ctl.old s → IsNext (code_of checked.now) s result }
    ensures same { ctl.new ≡ ctl.old }
{
    laws::checked(checked);
    let bodies = ctl.bodies;
    match ctl.leaf.end(bodies) {
        Some(_end) => return if ctl.is_root() {
            Op::Ended
        } else {
            Op::BranchEnd
        },
        None => {
            let step = ctl.leaf.control.step(bodies);
            match ctl.leaf.control.ask(bodies, &step.action) {
                Ok(ask) => return op_of(ask),
                Err(_kind) => return Op::Tick,
            }
        }
    }
}

impl Ctl<'_> {
    /// No parent waits for it.
    fn is_root(&self) -> bool
        ensures { IsTrue result ↔ IsRootStack self.now }
    {
        self.parents.is_empty() && !self.on_right
    }
}

/// What a step asks, as it is told outside.
fn op_of(ask: Ask) -> Op
    ensures { result ≡ op_for ask }
{
    match ask {
        Ask::Nothing => Op::Tick,
        Ask::Fork => Op::Par,
        Ask::Load(at) => Op::Load(at as u64),
        Ask::Store(at, word) => Op::Store(at as u64, word),
        Ask::Take(at) => Op::Take(at as u64),
        Ask::Make(count, _) => Op::Alloc(count.max(1) as u64),
    }
}

/// Starts the par that is next: the branch becomes the left side below its parent, which waits. Answers the right side.
pub fn fork<'a>(alloc: Global, checked: &Checked, ctl: &mut Ctl<'a>) -> Result<Ctl<'a>, NoMemory>
    requires atfork { (s : Stem) × IsAtFork (code_of checked.now) ctl.old s }
    ensures forks { IfOk result (λ right. (s : Stem) (a : IsAtFork (code_of checked.now) ctl.old s) → Forks (code_of checked.now) s a.starts ctl.new right) }
    ensures means { IfErr result (λ _. (s : Stem) → Means (code_of checked.now) ctl.old s → Means (code_of checked.now) ctl.new s) }
{
    laws::checked(checked);
    let bodies = ctl.bodies;
    let step = ctl.leaf.control.step(bodies);
    let Action::Par(first, second, _) = step.action else {
        unreachable!();
    };
    ctl.parents.reserve(1)?;
    let Forked { parent, right } = ctl.leaf.control.fork(alloc, first, second)?;
    ctl.parents.push_reserved(parent);
    Ok(Ctl {
        bodies,
        leaf: Leaf::running(right),
        parents: Vec::new(alloc),
        on_right: true,
    })
}

/// Does the next event of a branch, which starts no par, by what it is told.
pub fn resume(checked: &Checked, ctl: &mut Ctl, answer: Answered)
    requires answered { (s : Stem) × IsAnswered (code_of checked.now) ctl.old answer s }
    requires room { HasRoom ctl.old }
    ensures { (s : Stem) → IsAnswered (code_of checked.now) ctl.old answer s → Resumes (code_of checked.now) ctl.new answer s }
{
    laws::checked(checked);
    let bodies = ctl.bodies;
    let step = ctl.leaf.control.step(bodies);
    match ctl.leaf.control.ask(bodies, &step.action) {
        Ok(ask) => match word_for(ask, answer) {
            Some(word) => ctl.leaf.proceed(bodies, step, word),
            None => ctl.leaf.refuse(),
        },
        Err(kind) => ctl.leaf.trap(kind, step.span),
    }
}

/// The word that a step is told by an answer.
fn word_for(ask: Ask, answer: Answered) -> Option<u64>
    requires { IsAnswerFor ask answer }
    ensures { result ≡ word_by ask answer }
{
    match answer {
        Answered::Full => None,
        Answered::Word(word) => match ask {
            Ask::Nothing | Ask::Fork => Some(0),
            Ask::Load(_) | Ask::Store(_, _) | Ask::Take(_) => Some(word),
            Ask::Make(_, length) => Some(reference_to(word, length)),
        },
    }
}

/// Joins the two ended sides of a par: the left one becomes the parent, which goes on or has ended.
pub fn join(checked: &Checked, left: &mut Ctl, right: &Ctl) -> Result<(), NoMemory>
    requires sides { (s : Stem) × (t : Stem) × AreSides (code_of checked.now) left.old right.now s t }
    ensures joined { IfOk result (λ _. (s t : Stem) (a : AreSides (code_of checked.now) left.old right.now s t) → Rejoins (code_of checked.now) left.new s a.parent a.outer a.left_end a.right_end) }
    ensures means { OnErr result ((s : Stem) → Means (code_of checked.now) left.old s → Means (code_of checked.now) left.new s) }
{
    laws::checked(checked);
    checked.unit().resolved();
    let bodies = left.bodies;
    let Some(left_end) = left.leaf.end(bodies) else {
        unreachable!();
    };
    let Some(right_end) = right.leaf.end(right.bodies) else {
        unreachable!();
    };
    let Some(mut parent) = left.parents.pop() else {
        unreachable!();
    };
    let joined = parent.join(
        bodies,
        &left.leaf.control,
        left_end,
        &right.leaf.control,
        right_end,
    );
    match joined {
        Ok(ending) => {
            left.leaf = Leaf {
                control: parent,
                ending,
            };
            Ok(())
        }
        Err(short) => {
            left.parents.push_reserved(parent);
            Err(short)
        }
    }
}

/// Lets go of a root that has ended, and tells what it has come to.
pub fn finished(ctl: Ctl) -> Finished
    requires ended { (u : UnitCode) × (s : Stem) × (f : Final ℕ) × IsFinished u ctl s f }
    ensures { (u : UnitCode) (s : Stem) (f : Final ℕ) → IsFinished u ctl.entry s f → TellsEnd f result }
{
    let Ctl {
        bodies,
        leaf,
        parents: _,
        on_right: _,
    } = ctl;
    let Some(end) = leaf.end(bodies) else {
        unreachable!();
    };
    let (printed, left) = leaf.control.into_printed();
    Finished {
        end: told_end(end),
        printed: List::from_vec(printed),
        left,
    }
}

/// Starts the root of a run of the unit, by the words of its input and of the object of `Main`.
pub fn start<'a>(
    alloc: Global,
    checked: &'a Checked,
    input: u64,
    root: u64,
    turns: u64,
) -> Result<Ctl<'a>, NoMemory>
    requires turns { turns ≤ 2 ^ 40 }
    ensures { IfOk result (Begins (code_of checked.now) input root turns) }
{
    laws::checked(checked);
    let bodies = checked.unit().bodies();
    let control = Control::enter(alloc, bodies, root, input, turns)?;
    Ok(Ctl {
        bodies,
        leaf: Leaf::running(control),
        parents: Vec::new(alloc),
        on_right: false,
    })
}
