//! The laws as contracts.
ghost use Rattle.item_lines.specs.Laws.{BehindLaw, ItemsLaw};

use dropped_lines::number_law;

/// Of a text that is a scene as many lines record an encoder's items in a frame as the frame's plan has items of the encoder.
pub fn items_law()
    ensures { ItemsLaw }
{
    number_law();
}

/// What stands behind a text that is a scene changes no number.
pub fn behind_law()
    ensures { BehindLaw }
{
    number_law();
}
