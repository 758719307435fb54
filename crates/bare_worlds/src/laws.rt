//! The laws as contracts.
ghost use Rattle.bare_worlds.specs.Laws.{HarmlessLaw, ShapedLaw};

use cover_laws::bare_law;

/// The stores on which of a scene's frames the commands alone are executed hold for each draw of a frame what it takes its triangles from in
/// the world in which nothing is drawn.
pub fn shaped_law()
    ensures { ShapedLaw }
{}

/// Where each view of each frame in which two encoders share a key is harmless in the worlds in which nothing is drawn, any two lawful journals
/// of the scene give the same pictures.
pub fn harmless_law()
    ensures { HarmlessLaw }
{
    bare_law();
}
