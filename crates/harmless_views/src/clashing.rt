// Marks that clash.
ghost use Rattle.std.specs.Prelude.{◌≡◌};
ghost use Rattle.harmless_views.specs.Checked.{are_clashing, is_clashing};

use shared_keys::Mark;

/// Whether two marks are of two encoders, of one view, and clash.
fn are_clashing(left: &Mark, right: &Mark) -> bool
    ensures { result ≡ are_clashing left.now right.now }
{
    left.encoder != right.encoder
        && left.view == right.view
        && left.is_blit == right.is_blit
        && left.key == right.key
}

/// Whether a mark clashes with one of some.
pub(crate) fn is_clashing(marks: &[Mark], mark: &Mark) -> bool
    ensures { result ≡ is_clashing marks.now mark.now }
{
    marks.iter().any(|other| are_clashing(mark, other))
}
