//! The dump of a heap, and when two heaps have one shape.
#![tactic(auto)]
