// The names of a block, in the order in which they were bound.
ghost use Rattle.std.specs.Prelude.{◌≡◌, [], IfOk};
ghost use Rattle.load_text.specs.Text.{with_name, place_of};
ghost use Rattle.load_text.specs.SeenReading.{Binds};

use indexmap::IndexSet;
use std::alloc::{AllocError, Global};
use std::marker::Model;
use text_fields::is_name;

/// The names of a block. Each was bound by a create line, the first by the first.
#[derive(Drop)]
pub(crate) struct Names {
    bound: IndexSet<Vec<u8>>,
}

impl Model for Names {
    ghost use Rattle.std.specs.Prelude.{List, map};
    ghost use Rattle.scene_model.specs.Field.{BoundName};
    ghost use Rattle.load_text.specs.SeenNames.{name_seen};

    ghost Value = { List BoundName };

    ghost view = { λ n. map name_seen n.bound.keys };
}

impl Names {
    /// No names. It takes no memory.
    pub fn new(alloc: Global) -> Names
        ensures { result ≡ [] }
    {
        Names {
            bound: IndexSet::new(alloc),
        }
    }

    /// The place of a name that is bound.
    #[tactic(auto, unfolding(crate::specs::Text::place_of))]
    pub fn place_of(&self, field: &[u8]) -> Option<usize>
        ensures { result ≡ place_of self.now field.now }
    {
        if !is_name(field) {
            return None;
        }
        self.bound.get_index_of(field)
    }

    /// Binds a name that is not bound. False where it is none, or is bound.
    #[tactic(auto, unfolding(crate::specs::Text::with_name))]
    pub fn bind(&mut self, alloc: Global, field: &[u8]) -> Result<bool, AllocError>
        ensures { IfOk result (λ ok. Binds ok self.new (with_name self.old field.now)) }
    {
        if !is_name(field) {
            return Ok(false);
        }
        match self.bound.get_index_of(field) {
            Some(_) => Ok(false),
            None => {
                let name = Vec::from_slice(alloc, field)?;
                self.bound.insert(name)?;
                Ok(true)
            }
        }
    }
}
