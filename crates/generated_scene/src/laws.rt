// What is known of the generated scene, whatever made it.
ghost use Rattle.generated_scene.specs.Laws.{GeneratedLaw};

/// The generated scene of 1 to 512 frames is readable, and keeps the bounds of a scene that was read.
pub fn generated_law()
    ensures { GeneratedLaw }
{}
