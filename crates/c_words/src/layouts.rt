// Layouts as C has them.
ghost use Rattle.std.specs.Prelude.{◌≡◌, List, Some, option_map};
ghost use Rattle.gfx_model.specs.Vertex.{LayoutPart};
ghost use Rattle.vertex_layout.specs.Building.{built};
ghost use Rattle.vertex_layout.specs.Kinds.{attribute_seen, component_seen};
ghost use Rattle.c_words.specs.Layouts.{attribute_of_number, component_of_number, parts_of, AddsPart, IsLayoutOf};

use crate::faults::Fault;
use gfx_words::Refusal;
use vertex_layout::{Attr, AttrType, LayoutBuilder, VertexLayout};

/// The number of an attribute that stands for bytes that are passed over.
const SKIP: u8 = 255;

/// A part of a layout: an attribute of one to four components of a type, or as many bytes to pass over as `count` says.
#[repr(C)]
#[derive(Clone, Copy, Drop)]
pub struct Part {
    pub attribute: u8,
    pub component: u8,
    pub count: u8,
}

fn attribute_of(number: u8) -> Option<Attr>
    ensures { option_map attribute_seen result ≡ attribute_of_number number }
{
    match number {
        0 => Some(Attr::Position),
        1 => Some(Attr::Normal),
        2 => Some(Attr::Tangent),
        3 => Some(Attr::Color0),
        4 => Some(Attr::Color1),
        5 => Some(Attr::Texcoord0),
        6 => Some(Attr::Texcoord1),
        _ => None,
    }
}

fn component_of(number: u8) -> Option<AttrType>
    ensures { option_map component_seen result ≡ component_of_number number }
{
    match number {
        0 => Some(AttrType::U8),
        1 => Some(AttrType::I16),
        2 => Some(AttrType::Fixed),
        _ => None,
    }
}

// Adds a part behind the parts so far, where its numbers stand for something.
fn add(builder: &mut LayoutBuilder, part: &Part) -> Option<()>
    ensures { AddsPart result part.now builder.old builder.new }
{
    if part.attribute == SKIP {
        builder.skip(part.count);
        return Some(());
    }
    let attribute = attribute_of(part.attribute)?;
    let component = component_of(part.component)?;
    builder.add(attribute, component, part.count);
    Some(())
}

// The layout of the parts that were added.
fn finished(builder: LayoutBuilder) -> Result<VertexLayout, Fault>
    ensures { (parts : List LayoutPart) → builder ≡ built parts → IsLayoutOf (Some parts) result }
{
    match builder.end() {
        Ok(layout) => Ok(layout),
        Err(_) => Err(Fault::Refused(Refusal::BadSize)),
    }
}

/// The layout of parts. `BadValue` where a number of a part stands for nothing; else `BadSize` where they make no layout.
pub fn layout_of(parts: &[Part]) -> Result<VertexLayout, Fault>
    ensures { IsLayoutOf (parts_of parts.now) result }
{
    let mut builder = LayoutBuilder::new();
    for part in parts {
        match add(&mut builder, part) {
            Some(()) => {}
            None => return Err(Fault::BadValue),
        }
    }
    finished(builder)
}
