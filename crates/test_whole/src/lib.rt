//! Hard use of the crates below. It has no calls of its own, and tests alone: limits that no text of a scene can pass, each at its greatest number
//! and one past it, by the calls of a context, and the draw order of all items that a frame can have.
#![tactic(auto)]

#[cfg(test)]
mod cases;
#[cfg(test)]
mod limit_tests;
#[cfg(test)]
mod order_tests;
