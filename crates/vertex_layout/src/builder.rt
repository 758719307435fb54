// Builds layouts part by part.
ghost use Rattle.std.specs.Prelude.{◌≡◌, List, [], ◌∷◌, ◌++◌, Some, None, MatchResult};
ghost use Rattle.gfx_model.specs.Resources.{bad_size};
ghost use Rattle.gfx_model.specs.Vertex.{Layout, LayoutPart, attribute_part, skip_part, layout_of_parts};
ghost use Rattle.gfx_words.specs.Seen.{refusal_seen};
ghost use Rattle.vertex_layout.specs.Kinds.{attribute_seen, component_seen};
ghost use Rattle.vertex_layout.specs.Building.{built, with_part, ended};

use crate::attributes::{Attr, AttrList, AttrType, PlacedAttr};
use crate::layout::VertexLayout;
use gfx_words::Refusal;
use std::marker::Model;

/// A layout that is being built: what its parts make so far, as long as they are admitted. It takes no memory.
#[derive(Drop)]
pub struct LayoutBuilder {
    attributes: AttrList,
    stride: u8,
    is_good: bool,
}

impl Model for LayoutBuilder {
    ghost use Rattle.std.specs.Prelude.{◌≡◌, Option, Some, None, true, if◌then◌else◌};
    ghost use Rattle.std.specs.List.{list_all};
    ghost use Rattle.gfx_model.specs.Vertex.{Layout};
    ghost use Rattle.vertex_layout.specs.Placed.{ends_within};

    ghost Value = { Option Layout };

    ghost view = { λ s. if s.is_good then Some (record { attributes = s.attributes; stride = s.stride }) else None };

    ghost invariant = { λ s. list_all (ends_within s.stride) s.attributes ≡ true };
}

impl LayoutBuilder {
    /// A layout without parts.
    pub fn new() -> LayoutBuilder
        ensures { result ≡ built [] }
    {
        LayoutBuilder {
            attributes: AttrList::new(),
            stride: 0,
            is_good: true,
        }
    }

    /// Adds an attribute of one to four components behind the parts so far.
    pub fn add(&mut self, attr: Attr, kind: AttrType, count: u8)
        ensures { (parts : List LayoutPart) → self.old ≡ built parts → self.new ≡ built (parts ++ attribute_part (attribute_seen attr) (component_seen kind) count ∷ []) }
    {
        self.add_part(attr, kind, count);
    }

    fn add_part(&mut self, attr: Attr, kind: AttrType, count: u8)
        ensures { self.new ≡ with_part (attribute_part (attribute_seen attr) (component_seen kind) count) self.old }
    {
        let placed = PlacedAttr {
            attr,
            kind,
            count,
            offset: self.stride,
        };
        let end = placed.end();
        if end > 255 {
            self.is_good = false;
            return;
        }
        if self.attributes.add(placed) {
            self.stride = end as u8;
        } else {
            self.is_good = false;
        }
    }

    /// Passes over bytes behind the parts so far.
    pub fn skip(&mut self, bytes: u8)
        ensures { (parts : List LayoutPart) → self.old ≡ built parts → self.new ≡ built (parts ++ skip_part bytes ∷ []) }
    {
        self.skip_bytes(bytes);
    }

    fn skip_bytes(&mut self, bytes: u8)
        ensures { self.new ≡ with_part (skip_part bytes) self.old }
    {
        let end = self.stride as u16 + bytes as u16;
        if end > 255 {
            self.is_good = false;
        } else {
            self.stride = end as u8;
        }
    }

    /// The layout of the parts. `BadSize` exactly where the stride is 0 or over 255, an attribute stands twice,
    /// or a count is outside 1 to 4.
    pub fn end(self) -> Result<VertexLayout, Refusal>
        ensures { (parts : List LayoutPart) → self ≡ built parts → MatchResult result (λ layout. layout_of_parts parts ≡ Some layout) (λ refusal. (refusal_seen refusal ≡ Some bad_size) × (layout_of_parts parts ≡ None)) }
    {
        self.ended()
    }

    fn ended(self) -> Result<VertexLayout, Refusal>
        ensures { MatchResult result (λ layout. ended self ≡ Some layout) (λ refusal. (refusal_seen refusal ≡ Some bad_size) × (ended self ≡ None)) }
    {
        if !self.is_good {
            return Err(Refusal::BadSize);
        }
        match VertexLayout::of(self.attributes, self.stride) {
            Some(layout) => Ok(layout),
            None => Err(Refusal::BadSize),
        }
    }
}
