//! The texts and statuses of answers.

ghost use Rattle.perm_answer.specs.Answers.{IsTold};

use crate::{Answer, RunText, Which, fill, status_of, text_room};
use perm_tree::ast::Span;
use perm_tree::errors::{LexError, ParseError, TableError, TrapKind};
use perm_tree::list::List;
use perm_tree::place::Place;
use std::alloc::Global;
use std::test::Fail;

const PLACE: Place = Place {
    line: 12,
    column: 1_048_577,
};

/// The text of an answer, behind its status.
fn told(alloc: Global, answer: &Answer) -> Result<String, Fail>
    requires { IsTold answer.now }
{
    let mut text = text_room(alloc, answer)?;
    fill(&mut text, answer);
    let line = String::from_utf8_lossy(alloc, text.as_slice())?;
    Ok(format!(in alloc; "{} {line}", status_of(answer))?)
}

#[test]
fn faults_name_their_file(rt: HostRuntime) -> Result<(), Fail> {
    let fault = told(rt.alloc(), &Answer::ReadFault(Which::Program))?;
    assert_eq!(rt; fault.as_str(), "3 read fault program\n");
    let fault = told(rt.alloc(), &Answer::ReadFault(Which::Input))?;
    assert_eq!(rt; fault.as_str(), "3 read fault input\n");
    let fault = told(rt.alloc(), &Answer::TooLong(Which::Program))?;
    assert_eq!(rt; fault.as_str(), "4 too long program\n");
    Ok(())
}

#[test]
fn refusals_have_their_place(rt: HostRuntime) -> Result<(), Fail> {
    let span = Span { start: 3, end: 4 };
    let refusal = told(rt.alloc(), &Answer::Lex(LexError::BadByte { at: 3 }, PLACE))?;
    assert_eq!(rt; refusal.as_str(), "10 lex BadByte 12:1048577\n");
    let refusal = told(
        rt.alloc(),
        &Answer::Syntax(ParseError::TooDeep { token: 3 }, PLACE),
    )?;
    assert_eq!(rt; refusal.as_str(), "11 syntax TooDeep 12:1048577\n");
    let refusal = told(
        rt.alloc(),
        &Answer::Table(TableError::BadMain { span }, PLACE),
    )?;
    assert_eq!(rt; refusal.as_str(), "12 table BadMain 12:1048577\n");
    let refusal = told(rt.alloc(), &Answer::Table(TableError::NoMain, PLACE))?;
    assert_eq!(rt; refusal.as_str(), "12 table NoMain\n");
    Ok(())
}

/// The numbers that a run has printed.
fn printed(alloc: Global) -> Result<RunText, Fail> {
    let printed = List::from_vec([0, -7, i64::MIN].to_vec(alloc)?);
    Ok(RunText { printed })
}

#[test]
fn a_run_has_a_line_for_each_number(rt: HostRuntime) -> Result<(), Fail> {
    let run = told(rt.alloc(), &Answer::Done(i64::MAX, printed(rt.alloc())?))?;
    assert_eq!(rt;
        run.as_str(),
        "0 0\n-7\n-9223372036854775808\ndone 9223372036854775807\n"
    );
    let run = told(
        rt.alloc(),
        &Answer::Trap(TrapKind::Overflow, PLACE, printed(rt.alloc())?),
    )?;
    assert_eq!(rt;
        run.as_str(),
        "20 0\n-7\n-9223372036854775808\ntrap Overflow 12:1048577\n"
    );
    let run = told(rt.alloc(), &Answer::OutOfTurns(printed(rt.alloc())?))?;
    assert_eq!(rt;
        run.as_str(),
        "21 0\n-7\n-9223372036854775808\nout of turns\n"
    );
    let run = told(rt.alloc(), &Answer::HeapFull)?;
    assert_eq!(rt; run.as_str(), "22 heap full\n");
    Ok(())
}
