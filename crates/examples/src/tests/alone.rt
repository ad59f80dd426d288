//! Runs of the interpreter with an input, turns and a heap of their own.

use super::POINT;
use crate::short;
use perm_check::check_text;
use perm_meaning::{End, Outcome};
use perm_step::run_alone;
use perm_tree::ast::Span;
use perm_tree::errors::TrapKind::{
    DivideByZero, IndexOutOfRange, NullReference, Overflow, StackOverflow,
};
use perm_tree::errors::{CheckFault, TrapKind};
use std::alloc::Global;
use std::process::Abort;

/// A list is made of the input, frozen, and its cells are added up by calls.
const LIST: &str = "class Cell {
  long value;
  writable Cell next;
  long Total() readable {
    long s = this.value;
    readable Cell n = this.next;
    if (n == null) {
    } else {
      long t = n.Total();
      s = s + t;
    }
    return s;
  }
}
class Main {
  immutable Cell list;
  long Run(immutable long[] input) writable {
    immutable Cell c = recover {
      writable Cell head = null;
      long i = 0;
      long n = input.Length;
      while (i < n) {
        writable Cell k = new Cell();
        long v = input[i];
        k.value = v;
        k.next = head;
        head = k;
        i = i + 1;
      }
      readable Cell r = head;
      give r;
    };
    this.list = c;
    long total = c.Total();
    print total;
    return total;
  }
}
";

/// The quotient, the rest and the difference of two numbers of the input.
const DIVISION: &str = "class Main {
  long Run(immutable long[] input) writable {
    long a = input[0];
    long b = input[1];
    print a / b;
    print a % b;
    return a - b;
  }
}
";

/// The left side of the par traps behind a `print`.
const FAILING_SIDE: &str = "class Main {
  long Run(immutable long[] input) writable {
    long z = 0;
    par {
      print 1;
      print 1 / z;
    } {
      print 2;
    }
    return 0;
  }
}
";

/// The left side traps, and the right one makes an array.
const FAILING_BESIDE_AN_ARRAY: &str = "class Main {
  long Run(immutable long[] input) writable {
    long z = 0;
    par {
      print 1 / z;
    } {
      writable long[] a = new long[8];
    }
    return 0;
  }
}
";

/// Each side of the par assigns a variable.
const TWO_SIDES: &str = "class Main {
  long Run(immutable long[] input) writable {
    long a = 0;
    long b = 0;
    par {
      a = 1;
    } {
      b = 2;
    }
    print a + b;
    return 0;
  }
}
";

/// Two objects that refer to each other share a third one.
const RING: &str = "class Leaf {
  long n;
}
class Ring {
  writable Ring next;
  immutable Leaf leaf;
}
class Main {
  writable Ring ring;
  long Run(immutable long[] input) writable {
    isolated Leaf m = new Leaf();
    m.n = 9;
    immutable Leaf f = consume m;
    writable Ring a = new Ring();
    writable Ring b = new Ring();
    a.next = b;
    b.next = a;
    a.leaf = f;
    b.leaf = f;
    this.ring = a;
    return 0;
  }
}
";

/// A method that calls itself without end.
const ENDLESS: &str = "class Main {
  long F() readable {
    long t = this.F();
    return t;
  }
  long Run(immutable long[] input) writable {
    long t = this.F();
    return t;
  }
}
";

/// The input is kept in a field.
const KEPT_INPUT: &str = "class Main {
  immutable long[] kept;
  bool on;
  long Run(immutable long[] input) writable {
    this.kept = input;
    this.on = true;
    return 0;
  }
}
";

/// The turns and the words of a heap where a case doesn't matter of them.
const MANY: u64 = 1_000_000;

/// A run: its program and input, its turns and the size of its heap.
type Start<'a> = (&'a str, &'a [i64], u64, u64);

/// What it comes to: how it ends, what it prints, the turns that it spends and the words that it needs.
type Told<'a> = (End, &'a [i64], u64, u64);

fn outcome_of(alloc: Global, (program, input, turns, heap): Start) -> Result<Outcome, CheckFault> {
    let checked = check_text(alloc, short(program.as_bytes()))?;
    let input = &input[..input.len().min(1000)];
    Ok(run_alone(alloc, &checked, input, turns.min(MANY), heap.min(MANY))?)
}

/// A trap in the part of a text that begins there.
fn trap(kind: TrapKind, start: u32) -> End {
    End::Trap(kind, Span { start, end: start })
}

/// The end, with no more of a trap's span than where it begins.
fn beginning(end: End) -> End {
    match end {
        End::Trap(kind, span) => trap(kind, span.start),
        _ => end,
    }
}

/// Runs each case, and compares.
fn compare(rt: &impl Abort, alloc: Global, cases: &[(Start, Told)]) -> Result<(), CheckFault> {
    for (start, (end, printed, spent, need)) in cases {
        let outcome = outcome_of(alloc, *start)?;
        assert_eq!(rt; beginning(outcome.end), *end, "{start:?}");
        assert_eq!(rt; outcome.printed.as_slice(), *printed, "{start:?}");
        assert_eq!(rt; outcome.spent, *spent, "{start:?}");
        assert_eq!(rt; outcome.need, *need, "{start:?}");
    }
    Ok(())
}

#[test]
fn runs_end_by_their_input(rt: HostRuntime) -> Result<(), CheckFault> {
    compare(
        &rt,
        rt.alloc(),
        &[
            (
                (DIVISION, &[i64::MIN, -1], MANY, MANY),
                (trap(Overflow, 109), &[], 3, 3),
            ),
            (
                (DIVISION, &[5, 0], MANY, MANY),
                (trap(DivideByZero, 109), &[], 3, 3),
            ),
            (
                (DIVISION, &[5], MANY, MANY),
                (trap(IndexOutOfRange, 86), &[], 2, 2),
            ),
            (
                (DIVISION, &[-7, 2], MANY, MANY),
                (End::Done(-9), &[-3, -1], 5, 3),
            ),
            (
                (DIVISION, &[i64::MAX, -1], MANY, MANY),
                (End::Done(i64::MIN), &[-i64::MAX, 0], 5, 3),
            ),
            (
                (LIST, &[5, 6, 7], MANY, MANY),
                (End::Done(18), &[18], 48, 10),
            ),
            (
                (LIST, &[], MANY, MANY),
                (trap(NullReference, 681), &[], 9, 2),
            ),
            (
                (KEPT_INPUT, &[5, -6], MANY, MANY),
                (End::Done(0), &[], 3, 4),
            ),
            ((RING, &[], MANY, MANY), (End::Done(0), &[], 11, 7)),
            (
                (FAILING_SIDE, &[], MANY, MANY),
                (trap(DivideByZero, 106), &[1], 5, 2),
            ),
            (
                (ENDLESS, &[], MANY, MANY),
                (trap(StackOverflow, 39), &[], 100000, 2),
            ),
        ],
    )
}

#[test]
fn an_object_that_has_no_room_fills_the_heap(rt: HostRuntime) -> Result<(), CheckFault> {
    compare(
        &rt,
        rt.alloc(),
        &[
            ((POINT, &[], MANY, 5), (End::Done(0), &[7], 7, 5)),
            ((POINT, &[], MANY, 4), (End::HeapFull, &[], 0, 0)),
            (
                (FAILING_BESIDE_AN_ARRAY, &[], MANY, 10),
                (trap(DivideByZero, 91), &[], 4, 10),
            ),
            (
                (FAILING_BESIDE_AN_ARRAY, &[], MANY, 9),
                (End::HeapFull, &[], 0, 0),
            ),
            ((TWO_SIDES, &[], MANY, 1), (End::HeapFull, &[], 0, 0)),
        ],
    )
}

#[test]
fn a_side_without_turns_ends_the_run(rt: HostRuntime) -> Result<(), CheckFault> {
    compare(
        &rt,
        rt.alloc(),
        &[
            ((TWO_SIDES, &[], 7, MANY), (End::Done(0), &[3], 7, 2)),
            ((TWO_SIDES, &[], 6, MANY), (End::OutOfTurns, &[3], 6, 2)),
            ((TWO_SIDES, &[], 4, MANY), (End::OutOfTurns, &[], 4, 2)),
            ((TWO_SIDES, &[], 0, MANY), (End::OutOfTurns, &[], 0, 2)),
        ],
    )
}
