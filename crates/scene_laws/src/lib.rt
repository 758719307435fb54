//! A scene's frames as its lines write them for the renderer, and the law that they have the scene's pictures.
//!
//! The laws are functions without parameters: each has an empty body, and its contract is the law.
#![tactic(auto)]

ghost use Rattle.scene_laws.specs.Laws.{ScenePicturesLaw, GatheredLaw};
ghost use Rattle.scene_laws.specs.Readables.{ColorsLaw};

/// Where the colours with which a scene's lines fill textures are four bytes, the frames that its accepted lines write, rendered by
/// index in order from empty stores, have the scene's pictures by the journal.
pub fn scene_pictures_law()
    ensures { ScenePicturesLaw }
{}

/// Where each encoder of a frame has one recording, of the items that the scene's block gives, each recording's numbers ascend, and
/// each item is a blit or has its place in the draw order, the journal of the recordings is lawful for the frame, and their items, in
/// the journal's order and in that of the drawing, are the frame's.
pub fn gathered_law()
    ensures { GatheredLaw }
{}

/// The colours with which the lines of a readable scene fill textures are four bytes.
pub fn colors_law()
    ensures { ColorsLaw }
{}
