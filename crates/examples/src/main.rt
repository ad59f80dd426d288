//! Runs the programs of the folder in which it is started, and tells whether what comes of each is what stands beside it: `NAME.perm` writes `NAME.out`, and ends with the status in `NAME.status`, or with 0 where there is no such file. `cases.txt` and `runs.txt` have small texts with their answers. Of each text that is accepted it tells besides where the interpreter and the plain evaluator differ.
#![tactic(auto)]

ghost use Rattle.std.specs.Prelude.{length, ◌≤◌};

#[cfg(test)]
mod tests;

use perm_base::{FileShelf, MemFile, MemShelf, MemSink, Shelf};
use perm_check::check_text;
use perm_lex::MOST_BYTES;
use perm_meaning::{Outcome, Plain, eval_plain};
use perm_step::run_alone;
use perm_top::run_words;
use std::alloc::{AllocError, Global};
use std::rt::Files;
use std::{fs, io};

/// The most bytes that an example writes.
const ROOM: u64 = 65_536;

/// The turns and the words of the heap with which the interpreter and the plain evaluator are compared.
const TURNS: u64 = 100_000;

const WORDS: u64 = 65_536;

/// The path of a text that stands in memory.
const PATH: &str = "case";

fn main(rt: HostRuntime) -> io::Result<()> {
    let names = names(&rt)?;
    for name in &names {
        let verdict = if is_as_told(&rt, name.as_str())? {
            "as told"
        } else {
            "NOT as told"
        };
        println!(rt; "{name}: {verdict}")?;
        let program = format!(in rt.alloc(); "{name}.perm")?;
        if !is_evaluated_alike(rt.alloc(), fs::read(&rt, program.as_str())?.as_slice())? {
            println!(rt; "{name}: evaluated otherwise")?;
        }
    }
    run_cases(&rt, "cases.txt")?;
    run_cases(&rt, "runs.txt")
}

/// The names of the programs, in order.
fn names(rt: &HostRuntime) -> io::Result<Vec<String>> {
    let mut names = Vec::new(rt.alloc());
    for entry in fs::read_dir(rt, ".")? {
        let entry = entry?;
        if let Some(name) = entry.file_name().strip_suffix(".perm") {
            names.push(String::from_str(rt.alloc(), name)?)?;
        }
    }
    names.sort()?;
    Ok(names)
}

/// What a program comes to.
#[derive(Drop)]
struct Answer {
    status: u8,
    text: Vec<u8>,
}

/// Runs the program under a path of a shelf.
fn answer_of<S: Shelf>(alloc: Global, shelf: &mut S, path: &str) -> Result<Answer, AllocError> {
    let mut sink = MemSink::new(alloc, ROOM, ROOM, Vec::new(alloc)).map_err(|_| AllocError)?;
    let status = run_words(alloc, &[path], shelf, &mut sink).map_err(|_| AllocError)?;
    Ok(Answer {
        status,
        text: sink.taken,
    })
}

/// Whether a program writes what stands beside it, and ends with the status there.
fn is_as_told(rt: &HostRuntime, name: &str) -> io::Result<bool> {
    let alloc = rt.alloc();
    let program = format!(in alloc; "{name}.perm")?;
    let answer = answer_of(alloc, &mut FileShelf::new(rt), program.as_str())?;
    let text = fs::read(rt, format!(in alloc; "{name}.out")?.as_str())?;
    Ok(answer.text.as_slice() == text.as_slice() && answer.status == wanted_status(rt, name)?)
}

/// Whether the plain evaluator tells of a text what the interpreter does, on no input. A text that is refused isn't run.
fn is_evaluated_alike(alloc: Global, text: &[u8]) -> Result<bool, AllocError> {
    let Ok(checked) = check_text(alloc, short(text)) else {
        return Ok(true);
    };
    let outcome = run_alone(alloc, &checked, &[], TURNS, WORDS).map_err(|_| AllocError)?;
    let plain = eval_plain(alloc, checked.unit(), &[], TURNS, WORDS).map_err(|_| AllocError)?;
    Ok(match plain {
        Plain::Ran(plain) => are_alike(&plain, &outcome),
        Plain::Stuck => false,
    })
}

/// Whether two outcomes are one, but for the words of the heap.
fn are_alike(plain: &Outcome, outcome: &Outcome) -> bool {
    plain.end == outcome.end
        && plain.printed.as_slice() == outcome.printed.as_slice()
        && plain.spent == outcome.spent
        && plain.need == outcome.need
}

/// A text as it is checked: no longer than a text may be.
fn short(text: &[u8]) -> &[u8]
    ensures { length result.now ≤ MOST_BYTES }
{
    &text[..text.len().min(MOST_BYTES)]
}

/// The status that stands beside a program.
fn wanted_status(rt: &HostRuntime, name: &str) -> io::Result<u8> {
    let path = format!(in rt.alloc(); "{name}.status")?;
    let Ok(text) = fs::read_to_string(rt, path.as_str()) else {
        return Ok(0);
    };
    Ok(text.as_str().trim().parse::<u8>().unwrap_or(u8::MAX))
}

/// Runs the small texts of a file, and tells how many there are and which aren't answered as told.
fn run_cases(rt: &HostRuntime, path: &str) -> io::Result<()> {
    let alloc = rt.alloc();
    let cases = fs::read_to_string(rt, path)?;
    let mut count = 0u32;
    for line in cases.as_str().lines() {
        let Some((program, wanted)) = line.rsplit_once(" -> ") else {
            continue;
        };
        let told = told_of(alloc, program)?;
        if told.as_str() != wanted {
            println!(rt; "{program}: {told}")?;
        }
        if !is_evaluated_alike(alloc, program.as_bytes())? {
            println!(rt; "{program}: evaluated otherwise")?;
        }
        count = count.saturating_add(1);
    }
    println!(rt; "{count} small texts of {path} are answered")?;
    Ok(())
}

/// The status and the answer of a text, on one line, with a slash between the lines of the answer.
fn told_of(alloc: Global, program: &str) -> Result<String, AllocError> {
    let answer = answer_of(alloc, &mut shelf_with(alloc, program)?, PATH)?;
    let text = String::from_utf8_lossy(alloc, answer.text.as_slice())?;
    let told = text.as_str().trim().replace(alloc, "\n", " / ")?;
    format!(in alloc; "{} {}", answer.status, told.as_str())
}

/// A shelf with one text.
fn shelf_with(alloc: Global, text: &str) -> Result<MemShelf, AllocError> {
    let mut files = Vec::new(alloc);
    files.push(MemFile {
        path: String::from_str(alloc, PATH)?,
        bytes: text.as_bytes().to_vec(alloc)?,
    })?;
    Ok(MemShelf {
        files,
        fail: Vec::new(alloc),
        calls: 0,
        faults: 0,
    })
}
