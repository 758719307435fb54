//! Tests of the stores and the things of a context, over the libraries as the gate has proved them. Each file has the name of the library that it tests.
#![tactic(auto)]

#[cfg(test)]
mod buffer_store_tests;
#[cfg(test)]
mod render_stores_tests;
#[cfg(test)]
mod resource_book_tests;
#[cfg(test)]
mod texture_store_tests;
