//! The laws of views that are drawn at one go.
//!
//! A renderer that gathers views of one target clears them all, and then makes their draws in one list; the laws say that the stores are
//! then as if each view had been entered by itself. Each is a function without parameters: it has an empty body, and its contract is the
//! law.
#![tactic(auto)]

ghost use Rattle.pass_laws.specs.Passed.{ClearsLaw, OnePassLaw, PassLaw};

/// Views of one target without blits, entered one after the other, are all cleared first, and then drawn in one list, where each later
/// clear takes nothing or no pixel of an earlier view.
pub fn pass_law()
    ensures { PassLaw }
{}

/// The same where their target's surface is taken out once, cleared for them all, and then drawn on in one list.
pub fn one_pass_law()
    ensures { OnePassLaw }
{}

/// The clears of views of one target, one after the other, are made on its surface, which is taken out once.
pub fn clears_law()
    ensures { ClearsLaw }
{}
