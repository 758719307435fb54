// Laws about the definitions.
ghost use Rattle.std.specs.Prelude.{◌≡◌, ◌↔◌, ℕ, true, List, Option, Ok};
ghost use Rattle.picture_diff.specs.Picture.{AreTextsOf, IsPicture, Picture};
ghost use Rattle.std.specs.List.{AllByRecursion};
ghost use Rattle.picture_diff.specs.Difference.{AreNear, difference};
ghost use Rattle.picture_diff.specs.Frames.{AreAllNear, are_all_same, judged};
ghost use Rattle.picture_diff.specs.declared.difference.Difference.{Difference};

/// No pixel differs exactly where each channel is near enough.
pub fn near_law()
    ensures { (near : ℕ) (p q : Picture) → IsPicture p → IsPicture q → p.width ≡ q.width → p.height ≡ q.height → ((difference near p q).differ ≡ 0) ↔ AreNear near p q }
{}

/// The same of two streams: no pixel of any frame differs exactly where in each frame each channel is near enough.
pub fn all_near_law()
    ensures { (near : ℕ) (asked : Option ℕ) (ps : List Picture) (ds : List Difference) → AllByRecursion IsPicture ps → judged near asked ps ≡ Ok ds → (are_all_same ds ≡ true) ↔ AreAllNear near ps }
{}

/// Bytes are the texts of one list of pictures at most.
pub fn one_reading()
    ensures { (bytes : List ℕ) (ps qs : List Picture) → AreTextsOf bytes ps → AreTextsOf bytes qs → ps ≡ qs }
{}
