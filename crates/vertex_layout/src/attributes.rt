// Attributes, their component types, and short lists of attributes with their places.
ghost use Rattle.std.specs.Prelude.{◌≡◌, ◌<◌, ◌≤◌, ◌&&◌, ◌++◌, ◌∷◌, [], length, true, if◌then◌else◌, map, option_map, nat_le};
ghost use Rattle.gfx_model.specs.Vertex.{attribute_number, component_number, component_size, is_absent, find_attribute, has_good_attributes};
ghost use Rattle.vertex_layout.specs.Kinds.{attribute_seen, component_seen};
ghost use Rattle.vertex_layout.specs.Placed.{placed_seen, is_addable, end_of};

use std::marker::Model;

/// What a vertex has.
#[derive(Clone, Copy, Drop, PartialEq, Eq, Debug)]
pub enum Attr {
    Position,
    Normal,
    Tangent,
    Color0,
    Color1,
    Texcoord0,
    Texcoord1,
}

/// What a component is: a byte that is a share of 255, an `i16` that counts 1/32768, or an `i32` that counts 1/65536.
#[derive(Clone, Copy, Drop, PartialEq, Eq, Debug)]
pub enum AttrType {
    U8,
    I16,
    Fixed,
}

/// An attribute with the place of its first byte within a vertex.
#[derive(Clone, Copy, Drop, PartialEq, Eq, Debug)]
pub struct PlacedAttr {
    pub attr: Attr,
    pub kind: AttrType,
    pub count: u8,
    pub offset: u8,
}

impl Attr {
    /// The number of this attribute in command bytes, from 0.
    pub fn number(self) -> u8
        ensures { result ≡ attribute_number (attribute_seen self) }
    {
        match self {
            Attr::Position => 0,
            Attr::Normal => 1,
            Attr::Tangent => 2,
            Attr::Color0 => 3,
            Attr::Color1 => 4,
            Attr::Texcoord0 => 5,
            Attr::Texcoord1 => 6,
        }
    }
}

impl AttrType {
    /// The number of this type in command bytes, from 0.
    pub fn number(self) -> u8
        ensures { result ≡ component_number (component_seen self) }
    {
        match self {
            AttrType::U8 => 0,
            AttrType::I16 => 1,
            AttrType::Fixed => 2,
        }
    }

    /// How many bytes a component has.
    pub fn size(self) -> u8
        ensures { result ≡ component_size (component_seen self) }
    {
        match self {
            AttrType::U8 => 1,
            AttrType::I16 => 2,
            AttrType::Fixed => 4,
        }
    }
}

impl PlacedAttr {
    /// The place behind the last byte.
    pub fn end(&self) -> u16
        ensures { result ≡ end_of self.now }
    {
        self.offset as u16 + self.kind.size() as u16 * self.count as u16
    }
}

const BLANK: PlacedAttr = PlacedAttr {
    attr: Attr::Position,
    kind: AttrType::U8,
    count: 0,
    offset: 0,
};

/// Attributes in order, of one to four components each, none of them twice. It takes no memory.
#[derive(Clone, Copy, PartialEq, Debug)]
pub struct AttrList {
    slots: [PlacedAttr; 7],
    count: u8,
}

impl Model for AttrList {
    ghost use Rattle.std.specs.Prelude.{List};
    ghost use Rattle.gfx_model.specs.Vertex.{PlacedAttribute};

    ghost Value = { List PlacedAttribute };

    ghost use Rattle.vertex_layout.specs.Slots.{view_of, IsInside, inside_of, inside_of-view};

    ghost view = { view_of };

    ghost invariant = { IsInside };

    ghost inverse = { inside_of };

    ghost inverse_ok = { inside_of-view };
}

impl AttrList {
    /// No attributes.
    pub fn new() -> AttrList
        ensures { result ≡ [] }
    {
        AttrList {
            slots: [BLANK; 7],
            count: 0,
        }
    }

    /// The attributes, for reading.
    pub fn as_slice(&self) -> &[PlacedAttr]
        ensures items { map placed_seen result.now ≡ self.now }
        ensures good { has_good_attributes self.now ≡ true }
        ensures few { length result.now ≤ 7 }
    {
        &self.slots[..self.count as usize]
    }

    /// The attribute with its place, where it is there.
    pub fn find(&self, attr: Attr) -> Option<PlacedAttr>
        ensures { option_map placed_seen result ≡ find_attribute (attribute_seen attr) self.now }
    {
        for placed in self.as_slice() {
            if placed.attr.number() == attr.number() {
                return Some(*placed);
            }
        }
        None
    }

    /// Adds an attribute at the end and answers true. It answers false, and changes nothing, where the count
    /// is not 1 to 4 or the attribute is there.
    pub fn add(&mut self, placed: PlacedAttr) -> bool
        ensures answer { result ≡ is_addable (placed_seen placed) self.old }
        ensures added { self.new ≡ (if is_addable (placed_seen placed) self.old then self.old ++ placed_seen placed ∷ [] else self.old) }
    {
        if placed.count < 1 || placed.count > 4 {
            return false;
        }
        if !self.is_absent(placed.attr) {
            return false;
        }
        self.push(placed);
        true
    }

    fn is_absent(&self, attr: Attr) -> bool
        ensures { result ≡ is_absent (attribute_seen attr) self.now }
    {
        self.find(attr).is_none()
    }

    fn push(&mut self, placed: PlacedAttr)
        requires { is_addable (placed_seen placed) self.old ≡ true }
        ensures { self.new ≡ self.old ++ placed_seen placed ∷ [] }
    {
        self.slots[self.count as usize] = placed;
        self.count += 1;
    }
}
