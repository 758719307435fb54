//! Laws that join a scene's pictures to captures.
ghost use Rattle.std.specs.Prelude.{◌≡◌, ◌≤◌, List, ℕ, length};
ghost use Rattle.scene_model.specs.Scene.{Scene};
ghost use Rattle.scene_model.specs.Journal.{Journal, IsLawful};
ghost use Rattle.scene_model.specs.Output.{pictures_text};
ghost use Rattle.spelling_model.specs.Readable.{IsReadable};
ghost use Rattle.frame_capture.specs.Film.{Film, CanBeCaptured, texts};
ghost use Rattle.frame_capture.specs.Capture.{IsCapture};
ghost use Rattle.capture_running.specs.Filmed.{all_texts_length, film_of, longest_texts};
ghost use Rattle.capture_running.specs.Ended.{show_status};
ghost use Rattle.capture_running.specs.declared.status.CaptureStatus.TheVariants as status;

/// The pictures of a readable scene, as those of a capture, have the scene's picture texts. By a lawful journal these texts have the length
/// that the scene tells, and the pictures can be captured where it is at most 134,217,728.
pub fn film_law()
    ensures texts { (s : Scene) (j : Journal) → IsReadable s → texts (film_of s j) ≡ pictures_text s j }
    ensures length { (s : Scene) (j : Journal) → IsReadable s → IsLawful s j → length (pictures_text s j) ≡ all_texts_length s }
    ensures captured { (s : Scene) (j : Journal) → IsReadable s → IsLawful s j → all_texts_length s ≤ longest_texts → CanBeCaptured (film_of s j) }
{}

/// Pictures that can be captured have a capture.
pub fn capture_law()
    ensures { (f : Film) → CanBeCaptured f → (bytes : List ℕ) × IsCapture bytes f }
{}

/// The capture of pictures is shown, so `show` of what `record` wrote gives the pictures: it is not too long, and it is read as their texts.
pub fn shown_again_law()
    ensures { (bytes : List ℕ) (f : Film) → IsCapture bytes f → show_status bytes ≡ status.Done }
{}
