//! Stores by index, as contracts see them: rows of slots, and what each call makes of them.
//!
//! The functions are laws of these definitions: each has an empty body, and its contract is the law.
#![tactic(auto)]

ghost use Rattle.store_model.specs.Laws.{PutBackLaw, PutChangedLaw, OthersStayLaw, TwoTexturesLaw, NewestLaw, NoneNamedLaw, BlitLaw};

/// Texels that are taken out of a frame buffer's textures and put back leave the textures as they were; put back
/// changed, they are changed in their place. The texels of other textures stay meanwhile.
pub fn put_back_law()
    ensures same { PutBackLaw }
    ensures changed { PutChangedLaw }
    ensures others { OthersStayLaw }
{}

/// The colour texture and the depth texture of a frame buffer are two textures.
pub fn two_textures_law()
    ensures { TwoTexturesLaw }
{}

/// A slot that has the newest uniform of a name and a kind is the one that is looked up; without one, none is.
pub fn newest_law()
    ensures found { NewestLaw }
    ensures none { NoneNamedLaw }
{}

/// A blit copies its region.
pub fn blit_law()
    ensures { BlitLaw }
{}
