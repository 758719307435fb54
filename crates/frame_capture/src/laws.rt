//! Laws of captures.
ghost use Rattle.std.specs.Prelude.{◌≡◌, ◌≤◌, List, ℕ, Ok, length};
ghost use Rattle.frame_capture.specs.Film.{Film, texts};
ghost use Rattle.frame_capture.specs.Capture.{IsCapture};
ghost use Rattle.frame_capture.specs.Fault.{shown};

/// Each list of pictures has one spelling.
pub fn one_spelling()
    ensures { (a b : List ℕ) → (f : Film) → IsCapture a f → IsCapture b f → a ≡ b }
{}

/// A capture is read as the texts of its pictures, so no bytes are the capture of pictures with other texts.
pub fn one_reading()
    ensures read { (bytes : List ℕ) → (f : Film) → IsCapture bytes f → shown bytes ≡ Ok (texts f) }
    ensures alone { (bytes : List ℕ) → (f g : Film) → IsCapture bytes f → IsCapture bytes g → texts f ≡ texts g }
{}

/// A capture has at most 201,326,592 bytes.
pub fn length_law()
    ensures { (bytes : List ℕ) → (f : Film) → IsCapture bytes f → length bytes ≤ 201326592 }
{}
