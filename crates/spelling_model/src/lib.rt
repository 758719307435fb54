//! How a scene is spelled: the lines and fields that its text has, and which text is which scene.
#![tactic(auto)]
