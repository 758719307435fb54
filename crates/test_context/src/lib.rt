//! Tests of a context and its lock, over the libraries as the gate has proved them. Each file has the name of the library that it tests.
#![tactic(auto)]

#[cfg(test)]
mod context_core_tests;
#[cfg(test)]
mod gfx_context_tests;
#[cfg(test)]
mod res_lock_tests;
