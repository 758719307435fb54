//! Laws of the pictures of scenes: each has the sides of its scene, and a colour of four bytes for each pixel; their texts
//! are of one length in all, by any lawful journal.
#![tactic(auto)]

pub mod laws;
