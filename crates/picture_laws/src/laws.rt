//! The laws as contracts.
ghost use Rattle.picture_laws.specs.Whole.{ClearedLaw, LengthLaw, WholeLaw};

/// Where the views of a scene clear to colours of four bytes, each picture of it has its sides, and for each pixel a colour of four bytes.
pub fn cleared_law()
    ensures { ClearedLaw }
{}

/// Each picture of a readable scene has its sides, and for each pixel a colour of four bytes.
pub fn whole_law()
    ensures { WholeLaw }
{}

/// The texts of a readable scene's pictures are of one length in all, by any lawful journal.
pub fn length_law()
    ensures { LengthLaw }
{}
