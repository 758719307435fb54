//! Tests of words, layouts, command bytes, views and pixels, over the libraries as the gate has proved them. Each file has the name of the library that it tests.
#![tactic(auto)]

#[cfg(test)]
mod c_words_tests;
#[cfg(test)]
mod cmd_buffer_tests;
#[cfg(test)]
mod fix_math_tests;
#[cfg(test)]
mod gfx_words_tests;
#[cfg(test)]
mod handle_alloc_tests;
#[cfg(test)]
mod pixel_ops_tests;
#[cfg(test)]
mod slot_row_tests;
#[cfg(test)]
mod sort_key_tests;
#[cfg(test)]
mod vertex_layout_tests;
#[cfg(test)]
mod view_table_tests;
