//! Tests of the calls of other crates. They stand here since the tests of a crate are proved with all of the crate.

mod alone;
mod lexer;
mod top;

/// A program in its canonical text.
const POINT: &str = "class Main {
  long x;
  long y;
  long Run(immutable long[] input) writable {
    isolated Main p = new Main();
    p.x = 3;
    p.y = 4;
    long a = p.x;
    long b = p.y;
    print a + b;
    return 0;
  }
}
";
