// The layout that the parts of a line make.
ghost use Rattle.std.specs.Prelude.{◌≡◌, ◌++◌, ◌∷◌, [], List, map};
ghost use Rattle.gfx_model.specs.Vertex as model;
ghost use Rattle.gfx_model.specs.Vertex.{layout_of_parts};
ghost use Rattle.vertex_layout.specs.Building.{built};
ghost use Rattle.scene_text.specs.Seen.{part_seen};

use scene_text::LayoutPart;
use vertex_layout::{LayoutBuilder, VertexLayout};

/// Adds a part behind those so far.
fn add_part(builder: &mut LayoutBuilder, part: &LayoutPart)
    ensures { (parts : List model.LayoutPart) → builder.old ≡ built parts → builder.new ≡ built (parts ++ part_seen part.now ∷ []) }
{
    match part {
        LayoutPart::Attribute { attr, kind, count } => builder.add(*attr, *kind, *count),
        LayoutPart::Skip { bytes } => builder.skip(*bytes),
    }
}

/// The layout that the parts make, if they are admitted.
pub(crate) fn layout_of(parts: &[LayoutPart]) -> Option<VertexLayout>
    ensures { result ≡ layout_of_parts (map part_seen parts.now) }
{
    let mut builder = LayoutBuilder::new();
    for part in parts {
        add_part(&mut builder, part);
    }
    match builder.end() {
        Ok(layout) => Some(layout),
        Err(_) => None,
    }
}
