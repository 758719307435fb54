//! Tests of held places, frames, their exchange and their recording, over the libraries as the gate has proved them. Each file has the name of the library that it tests.
#![tactic(auto)]

#[cfg(test)]
mod block_recording_tests;
#[cfg(test)]
mod frame_keeping_tests;
#[cfg(test)]
mod frame_record_tests;
#[cfg(test)]
mod frame_swap_field_tests;
#[cfg(test)]
mod frame_swap_tests;
#[cfg(test)]
mod hold_table_tests;
#[cfg(test)]
mod letter_boxes_tests;
#[cfg(test)]
mod recorded_keys_tests;
