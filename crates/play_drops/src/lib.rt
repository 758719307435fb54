//! What a play drops of encoders' lines is what the definition of dropped lines says: the law that joins the two.
#![tactic(auto)]

ghost use Rattle.play_drops.specs.Laws.{EncoderLaw};

use dropped_lines::step_law;

/// A line that is recorded on an encoder is dropped exactly where it has a reason, by each state of the definition that the names and the
/// seat's beginning stand for, whatever the other threads do meanwhile.
pub fn encoder_law()
    ensures { EncoderLaw }
{
    step_law();
}
