//! The one call that does all that the program does.

ghost use Rattle.std.specs.Prelude.{◌≡◌, ◌≤◌, ◌+◌, ℕ, List, length, map, IfOk, OnErr};
ghost use Rattle.std.specs.Option.{option_copied};
ghost use Rattle.perm_base.specs.Counts.{Rose};
ghost use Rattle.perm_base.specs.Pieces.{appended};
ghost use Rattle.perm_tree.specs.TextPlaces.{IsPlaceOf};
ghost use Rattle.perm_answer.specs.declared.Answer.{Answer};
ghost use Rattle.perm_answer.specs.Answers.{status, text_of, IsTold};
ghost use Rattle.perm_check.specs.Checks.{IsOfText, IsRefusalOf};
ghost use Rattle.perm_top.specs.Causes.{most_bytes, named_path, is_option, IsCaused, IsPlain, IsWritten};
ghost use Rattle.perm_top.specs.Programs.{IsAnswerTo, IsRunOf, TellsEnd};

use perm_answer::{Answer, RunText, Which, fill, status_of, text_room};
use perm_base::{ReadFault, Shelf, Sink, read_text, write_all};
use perm_check::check_text;
use perm_meaning::{End, Outcome};
use perm_rules::Checked;
use perm_step::run_alone;
use perm_tree::errors::{CheckFault, NoMemory, Refusal};
use perm_tree::list::Numbers;
use perm_tree::place::{Place, place_of};
use std::alloc::Global;

/// The most bytes of a program's text.
const MAX_TEXT: u64 = 1_048_576;

/// The turns and the heap words of a run where no option says otherwise.
const DEFAULT_TURNS: u64 = 1 << 40;

const DEFAULT_HEAP: u64 = 1 << 20;

/// The status of a text that wasn't written to its end.
const WRITE_FAULT: u8 = 5;

/// Does what the command line's words ask for, and answers the status. The words are those behind the program's name.
pub fn run_words<F: Shelf, K: Sink>(
    alloc: Global,
    words: &[&str],
    shelf: &mut F,
    sink: &mut K,
) -> Result<u8, NoMemory>
    // What is written, and the status, is that of an answer with its cause.
    ensures caused { IfOk result (λ given. (answer : Answer)
        × IsCaused (F.told shelf.old) (F.faults shelf.old) (F.faults shelf.new) (named_path (map (λ w. w.now) words.now)) answer
        × IsWritten (K.told sink.old) (K.told sink.new) (K.faults sink.old) (K.faults sink.new) (text_of answer) (status answer) given) }

    // Without a fault, any answer that a program of the shelf has is the one that is written.
    ensures complete { IfOk result (λ given. (bytes : List ℕ) (answer : Answer)
        → IsPlain (F.told shelf.old) (named_path (map (λ w. w.now) words.now)) bytes → IsAnswerTo bytes answer
        → (Rose (F.faults shelf.old) (F.faults shelf.new) → ⊥) → (Rose (K.faults sink.old) (K.faults sink.new) → ⊥)
        → (given ≡ status answer) × (K.told sink.new ≡ appended (K.told sink.old) (text_of answer))) }
    ensures no_memory { OnErr result (sink.new ≡ sink.old) }
    ensures files { F.told shelf.new ≡ F.told shelf.old }
    ensures not_fewer { F.faults shelf.old ≤ F.faults shelf.new }
    ensures reads { F.reads shelf.new ≤ F.reads shelf.old + most_bytes + 1 }
{
    let answer = answer_to(alloc, words, shelf)?;
    let mut text = text_room(alloc, &answer)?;
    fill(&mut text, &answer);
    Ok(write(sink, text.as_slice(), status_of(&answer)))
}

/// Writes a text, and answers that status, or the one of a text that wasn't written to its end.
fn write<K: Sink>(sink: &mut K, text: &[u8], status: u8) -> u8
    ensures { IsWritten (K.told sink.old) (K.told sink.new) (K.faults sink.old) (K.faults sink.new) text.now status result }
{
    match write_all(sink, text) {
        Ok(()) => status,
        Err(_) => WRITE_FAULT,
    }
}

/// The answer that the words get.
fn answer_to<F: Shelf>(alloc: Global, words: &[&str], shelf: &mut F) -> Result<Answer, NoMemory>
    ensures caused { IfOk result (IsCaused (F.told shelf.old) (F.faults shelf.old) (F.faults shelf.new) (named_path (map (λ w. w.now) words.now))) }
    ensures told { IfOk result IsTold }
    ensures files { F.told shelf.new ≡ F.told shelf.old }
    ensures not_fewer { F.faults shelf.old ≤ F.faults shelf.new }
    ensures reads { F.reads shelf.new ≤ F.reads shelf.old + most_bytes + 1 }
{
    let Some(path) = program_path(words) else {
        return Ok(Answer::Usage);
    };
    match read_text(alloc, shelf, path, MAX_TEXT) {
        Ok(text) => run_text(alloc, text.as_slice()),
        Err(ReadFault::Fault) => Ok(Answer::ReadFault(Which::Program)),
        Err(ReadFault::TooLong) => Ok(Answer::TooLong(Which::Program)),
        Err(ReadFault::NoMemory) => Err(NoMemory),
    }
}

/// The path that the words name: one word, which is no option.
fn program_path<'a>(words: &[&'a str]) -> Option<&'a str>
    ensures { option_copied result ≡ named_path (map (λ w. w.now) words.now) }
{
    match words {
        [word] => {
            if begins_option(word.as_bytes()) {
                None
            } else {
                Some(word)
            }
        }
        _ => None,
    }
}

fn begins_option(word: &[u8]) -> bool
    ensures { result ≡ is_option word.now }
{
    match word {
        [first, ..] => *first == b'-',
        [] => false,
    }
}

/// Checks a program's text and runs it without input. The text is held during the run, since the place of a trap is told of it.
fn run_text(alloc: Global, text: &[u8]) -> Result<Answer, NoMemory>
    requires short { length text.now ≤ 1048576 }
    ensures answer { IfOk result (IsAnswerTo text.now) }
    ensures told { IfOk result IsTold }
{
    match check_text(alloc, text) {
        Ok(checked) => run_unit(alloc, text, &checked),
        Err(CheckFault::Refused(refusal)) => Ok(refused(text, refusal)),
        Err(CheckFault::NoMemory) => Err(NoMemory),
    }
}

/// The answer that tells a refusal of a text.
fn refused(text: &[u8], refusal: Refusal) -> Answer
    requires short { length text.now ≤ 1048576 }
    requires refused { IsRefusalOf text.now refusal }
    requires told { IsOfText refusal }
    ensures answer { IsAnswerTo text.now result }
    ensures told { IsTold result }
{
    match refusal {
        Refusal::Lex(error, span) => Answer::Lex(error, place_in(text, span.start)),
        Refusal::Parse(error, span) => Answer::Syntax(error, place_in(text, span.start)),
        Refusal::Table(error, span) => Answer::Table(error, place_in(text, span.start)),
        Refusal::Typing(error) => Answer::Typing(error, place_in(text, error.span.start)),
    }
}

/// Runs the unit of a text without input.
fn run_unit(alloc: Global, text: &[u8], checked: &Checked) -> Result<Answer, NoMemory>
    requires short { length text.now ≤ 1048576 }
    ensures ran { IfOk result (IsRunOf text.now checked.now) }
{
    let Outcome {
        end,
        printed,
        spent: _,
        need: _,
        words: _,
        root: _,
    } = run_alone(alloc, checked, &[], DEFAULT_TURNS, DEFAULT_HEAP)?;
    Ok(ended(text, &end, printed))
}

/// The answer that tells how a run of a text has ended and what it has printed.
fn ended(text: &[u8], end: &End, printed: Numbers) -> Answer
    requires short { length text.now ≤ 1048576 }
    ensures { TellsEnd text.now end.now printed result }
{
    let run = RunText { printed };
    match end {
        End::Done(returned) => Answer::Done(*returned, run),
        End::Trap(kind, span) => Answer::Trap(*kind, place_in(text, span.start), run),
        End::OutOfTurns => Answer::OutOfTurns(run),
        End::HeapFull => Answer::HeapFull,
    }
}

/// The place of a byte, or of the end of the text.
fn place_in(text: &[u8], at: u32) -> Place
    requires { length text.now ≤ 1048576 }
    ensures { IsPlaceOf text.now at result }
{
    place_of(text, at.min(text.len() as u32))
}
