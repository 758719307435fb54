//! Laws of the definitions, as functions without parameters: each has an empty body, and its contract is the law.
//!
//! They speak of definitions alone, so that a reader can rely on a law without reading its proof, and a program's proof can use it by a call.
//! There are twelve laws: of order, of a journal's first fault, of reading, of writing, of readable scenes, of fronts, of a journal's text,
//! two of recordings, and three of journals and draw orders.
//! `one_reading` and `written_front` are corollaries: of the law of reading, and of those of fronts and of writing.
#![tactic(auto)]

ghost use Rattle.gfx_model.specs.Frames.{CollectedLaw, DrawOrderLaw, OrderedItemsLaw};
ghost use Rattle.scene_model.specs.Journal.{FaultLaw, OrderLaw};
ghost use Rattle.scene_model.specs.Recordings.{RecordingsLaw, SameItemsLaw};
ghost use Rattle.scene_model.specs.TextLaws.{FrontLaw, JournalTextLaw};
ghost use Rattle.spelling_model.specs.Spelling.{OneReading, ReadingLaw};
ghost use Rattle.spelling_model.specs.Written.{ReadableLaw, WritingLaw, WrittenFrontLaw};

/// The law of order: where no key is shared between encoders, any two lawful journals of a scene give the same pictures.
pub fn order_law()
    ensures { OrderLaw }
{}

/// The law of a journal's first fault: there is no fault place exactly where the journal is lawful.
pub fn fault_law()
    ensures { FaultLaw }
{}

/// The law of reading: bytes are read as a scene exactly where the scene is readable and each kept line has the fields that the scene spells.
pub fn reading_law()
    ensures { ReadingLaw }
{}

/// A scene has one reading: two scenes of one text are equal. A corollary of the law of reading.
pub fn one_reading()
    ensures { OneReading }
{}

/// The law of writing: each text made of a readable scene's lines is read as that scene.
pub fn writing_law()
    ensures { WritingLaw }
{}

/// A scene is readable exactly where some text is read as it, and exactly where what is written of it is read as it.
pub fn readable_law()
    ensures { ReadableLaw }
{}

/// The law of fronts: a text whose last line ends its scene is read as the front of each text that begins with it, in whatever language, and
/// the rest begins where it ends.
pub fn front_law()
    ensures { FrontLaw }
{}

/// What is written of a readable scene is read as the front of each text that begins with it. A corollary of the laws of fronts and of writing.
pub fn written_front()
    ensures { WrittenFrontLaw }
{}

/// The law of a journal's text: it is read as that journal, where each encoder's number is at most 255 and each ordinal at most 4,294,967,295.
pub fn journal_text_law()
    ensures { JournalTextLaw }
{}

/// The journal of recordings has each item of each encoder once, in the encoder's order.
pub fn collected_law()
    ensures { CollectedLaw }
{}

/// The draw order has each entry of a journal that has a key just as often as the journal, and no other.
pub fn draw_order_law()
    ensures { DrawOrderLaw }
{}

/// The items of a draw order are the journal's in the order of the frame step.
pub fn ordered_items_law()
    ensures { OrderedItemsLaw }
{}

/// The journal of the recordings of a scene's frame is lawful for that frame.
pub fn recordings_law()
    ensures { RecordingsLaw }
{}

/// An entry names the same item by the scene's frame as by its recordings.
pub fn same_items_law()
    ensures { SameItemsLaw }
{}
