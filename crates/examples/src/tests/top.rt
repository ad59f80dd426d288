//! Runs of the top call over files and output in memory.

use super::POINT;
use perm_base::{MemFile, MemShelf, MemSink};
use perm_top::run_words;
use std::alloc::{AllocError, Global};
use std::test::Fail;

const USAGE: &str =
    "usage: permrun [--check] [--workers N] [--turns N] [--heap N] [--dump] [--stats] (PROGRAM [INPUT] | --make SIZE [--from N])\n";

/// A shelf with one file, under the path `p`, of which these calls fail.
fn shelf_with(alloc: Global, bytes: &[u8], fail: &[u64]) -> Result<MemShelf, AllocError> {
    let mut files = Vec::new(alloc);
    files.push(MemFile {
        path: String::from_str(alloc, "p")?,
        bytes: bytes.to_vec(alloc)?,
    })?;
    Ok(MemShelf {
        files,
        fail: fail.to_vec(alloc)?,
        calls: 0,
        faults: 0,
    })
}

/// The text that a call writes, behind its status on a line of its own.
fn answer_of(alloc: Global, words: &[&str], shelf: &mut MemShelf) -> Result<String, Fail> {
    let mut sink = MemSink::new(alloc, 1000, 1000, Vec::new(alloc))?;
    let status = run_words(alloc, words, shelf, &mut sink)?;
    let text = String::from_utf8_lossy(alloc, sink.taken.as_slice())?;
    Ok(format!(in alloc; "{status}\n{text}")?)
}

/// What a program's text comes to: the status and the text of the answer.
fn run_of(alloc: Global, text: &[u8]) -> Result<String, Fail> {
    let mut shelf = shelf_with(alloc, text, &[])?;
    answer_of(alloc, &["p"], &mut shelf)
}

/// A text with so many parts that differ in a number of four digits.
fn repeated(
    alloc: Global,
    head: &str,
    (front, back): (&str, &str),
    count: u32,
    tail: &str,
) -> Result<String, Fail> {
    let mut text = String::from_str(alloc, head)?;
    for number in 1000..1000 + count.min(2000) {
        let part = format!(in alloc; "{front}{number}{back}")?;
        text.push_str(part.as_str())?;
    }
    text.push_str(tail)?;
    Ok(text)
}

#[test]
fn one_more_than_a_limit_is_too_many(rt: HostRuntime) -> Result<(), Fail> {
    let cases = [
        (
            "",
            ("class C", " { } "),
            1000,
            "",
            "12\ntable NoMain\n",
            "12\ntable TooMany 1:16007\n",
        ),
        (
            "class A {",
            (" long f", ";"),
            256,
            " }",
            "12\ntable NoMain\n",
            "12\ntable TooMany 1:3088\n",
        ),
        (
            "class A {",
            (" long m", "() readable { return 0; }"),
            256,
            " }",
            "12\ntable NoMain\n",
            "12\ntable TooMany 1:9232\n",
        ),
        (
            "class Main { long Run(immutable long[] x) writable {",
            (" long y", ";"),
            254,
            " return 0; } }",
            "0\ndone 0\n",
            "12\ntable TooMany 1:3107\n",
        ),
    ];
    for (head, part, most, tail, at_most, too_many) in cases {
        let text = repeated(rt.alloc(), head, part, most, tail)?;
        let answer = run_of(rt.alloc(), text.as_str().as_bytes())?;
        assert_eq!(rt; answer.as_str(), at_most);
        let text = repeated(rt.alloc(), head, part, most + 1, tail)?;
        let answer = run_of(rt.alloc(), text.as_str().as_bytes())?;
        assert_eq!(rt; answer.as_str(), too_many);
    }
    Ok(())
}

/// A `Run` that returns a number behind so many opening parentheses.
fn nested(alloc: Global, count: usize) -> Result<Vec<u8>, Fail> {
    let mut text = b"class Main { long Run(immutable long[] input) writable { return ".to_vec(
        alloc,
    )?;
    for _ in 0..count {
        text.push(b'(')?;
    }
    Ok(text)
}

#[test]
fn the_level_101_is_too_deep(rt: HostRuntime) -> Result<(), Fail> {
    let answer = run_of(rt.alloc(), nested(rt.alloc(), 99)?.as_slice())?;
    assert_eq!(rt; answer.as_str(), "11\nsyntax TooDeep 1:163\n");
    let answer = run_of(rt.alloc(), nested(rt.alloc(), 98)?.as_slice())?;
    assert_eq!(rt; answer.as_str(), "11\nsyntax Unexpected 1:163\n");
    Ok(())
}

#[test]
fn random_bytes_have_an_answer(rt: HostRuntime) -> Result<(), Fail> {
    let mut state = 1u64;
    for _ in 0..200 {
        let mut text = Vec::new(rt.alloc());
        for _ in 0..64 {
            state = state
                .wrapping_mul(6_364_136_223_846_793_005)
                .wrapping_add(1_442_695_040_888_963_407);
            text.push((state >> 56) as u8)?;
        }
        let answer = run_of(rt.alloc(), text.as_slice())?;
        let is_lexical = answer.as_str().starts_with("10\nlex ");
        let is_syntactic = answer.as_str().starts_with("11\nsyntax ");
        assert!(rt; is_lexical || is_syntactic, "{answer:?}");
    }
    Ok(())
}

#[test]
fn words_that_name_no_program_get_the_usage(rt: HostRuntime) -> Result<(), Fail> {
    let lists: [&[&str]; 4] = [&[], &["p", "p"], &["-p"], &["--check"]];
    for words in lists {
        let mut shelf = shelf_with(rt.alloc(), POINT.as_bytes(), &[])?;
        let answer = answer_of(rt.alloc(), words, &mut shelf)?;
        let usage = format!(in rt.alloc(); "2\n{USAGE}")?;
        assert_eq!(rt; answer.as_str(), usage.as_str());
    }
    Ok(())
}

#[test]
fn files_that_are_not_read(rt: HostRuntime) -> Result<(), Fail> {
    let alloc = rt.alloc();
    let mut failing = shelf_with(alloc, POINT.as_bytes(), &[2])?;
    let answer = answer_of(alloc, &["p"], &mut failing)?;
    assert_eq!(rt; answer.as_str(), "3\nread fault program\n");
    let missing = answer_of(alloc, &["q"], &mut failing)?;
    assert_eq!(rt; missing.as_str(), "3\nread fault program\n");
    let mut long = shelf_with(alloc, vec![in alloc; b' '; 1_048_577]?.as_slice(), &[])?;
    let answer = answer_of(alloc, &["p"], &mut long)?;
    assert_eq!(rt; answer.as_str(), "4\ntoo long program\n");
    let mut blank = shelf_with(alloc, vec![in alloc; b' '; 1_048_576]?.as_slice(), &[])?;
    let answer = answer_of(alloc, &["p"], &mut blank)?;
    assert_eq!(rt; answer.as_str(), "12\ntable NoMain\n");
    Ok(())
}

#[test]
fn a_write_that_fails_leaves_the_front(rt: HostRuntime) -> Result<(), Fail> {
    let alloc = rt.alloc();
    let mut shelf = shelf_with(alloc, POINT.as_bytes(), &[])?;
    let mut sink = MemSink::new(alloc, 1000, 3, [2].to_vec(alloc)?)?;
    let status = run_words(alloc, &["p"], &mut shelf, &mut sink)?;
    assert_eq!(rt; status, 5);
    assert_eq!(rt; sink.taken.as_slice(), b"7\nd".as_slice());
    Ok(())
}
