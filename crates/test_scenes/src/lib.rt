//! Tests of scene texts and their lines, over the libraries as the gate has proved them. Each file has the name of the library that it tests.
#![tactic(auto)]

#[cfg(test)]
mod frame_capture_tests;
#[cfg(test)]
mod generated_scene_tests;
#[cfg(test)]
mod io_edge_tests;
#[cfg(test)]
mod picture_diff_tests;
#[cfg(test)]
mod scene_lines_tests;
#[cfg(test)]
mod scene_text_journal_tests;
#[cfg(test)]
mod scene_text_tests;
