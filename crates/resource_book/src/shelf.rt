// The definitions' state of the calls in code.
ghost use Rattle.std.specs.Prelude.{◌≡◌, ◌<◌, ◌≤◌, ◌+◌, ◌-◌, ℕ, [], false, length, option_map, Some, None, IfSome, slice_index_or};
ghost use Rattle.gfx_model.specs.Resources as model;
ghost use Rattle.gfx_model.specs.Resources.{Thing, is_kept_thing};
ghost use Rattle.store_laws.specs.Standing.{content_kind};
ghost use Rattle.std.specs.List.{list_all};
ghost use Rattle.gfx_model.specs.World.{Content};
ghost use Rattle.gfx_words.specs.Kinds.{kind_seen, info_seen};
ghost use Rattle.resource_book.specs.Answered.{HasLiveThing};
ghost use Rattle.resource_laws.specs.Bare.{bare_content, bare_of};
ghost use Rattle.resource_laws.specs.Lawful.{IsLawful};
ghost use Rattle.resource_book.specs.Seen.{fact_seen};
ghost use Rattle.resource_book.specs.Tables.{name_of};

use crate::rows::{Fact, Row};
use crate::stacks::{Stack, all_keep, reclaim_all};
use crate::table::ThingTable;
use gfx_words::{Handle, Info, Kind};
use view_table::ViewTable;

/// Indices, things, the next serial and the views.
#[derive(Drop)]
pub struct Shelf {
    pub latency: u8,
    pub frame: u32,
    pub stacks: [Stack; 7],
    pub table: ThingTable,
    pub next_serial: u64,
    pub views: ViewTable,
}

impl Shelf {
    ghost use Rattle.resource_book.specs.Shelves.{resources_of, HasLimits};

    /// Whether all indices of a kind are given.
    pub fn lacks_index(&self, kind: Kind) -> bool
        ensures { result ≡ (model.lacks_index (resources_of self.now) (kind_seen kind)).0 }
    {
        self.stacks[kind.number() as usize].is_full()
    }

    /// Whether all serials are given.
    pub fn lacks_serial(&self) -> bool
        ensures { result ≡ (model.lacks_serial (resources_of self.now)).0 }
    {
        self.next_serial > 4_294_967_295
    }

    /// Makes a thing of the top index and the next serial, with its name once more if it is a uniform.
    pub fn make(&mut self, kind: Kind, info: Info, fact: Fact, name: Option<Vec<u8>>) -> Handle
        requires limits { HasLimits self.old }
        requires lawful { IsLawful (resources_of self.old) }
        requires index { (model.lacks_index (resources_of self.old) (kind_seen kind)).0 ≡ false }
        requires serial { (model.lacks_serial (resources_of self.old)).0 ≡ false }
        requires kind { content_kind (fact_seen fact) ≡ kind_seen kind }
        requires name { option_map (λ v. v.items) name ≡ name_of (fact_seen fact) }
        requires unused { IfSome name (λ v. model.named_uniform (resources_of self.old) v.items ≡ None) }
        requires room { 1 ≤ self.old.table.spare }
        ensures limits { HasLimits self.new }
        ensures made { Some result ≡ (model.make (kind_seen kind) (info_seen info) (fact_seen fact) (resources_of self.old)).made }
        ensures after { (content : Content) → bare_content content ≡ fact_seen fact → resources_of self.new ≡ bare_of (model.make (kind_seen kind) (info_seen info) content (resources_of self.old)).after }
    {
        let index = self.stacks[kind.number() as usize].take();
        let handle = Handle::of(kind, index, self.next_serial as u32, info);
        self.next_serial += 1;
        let row = Row {
            handle,
            birth: self.frame,
            death: None,
            fact,
            references: 1,
        };
        self.table.push(row, name);
        handle
    }

    /// One reference more of the uniform of a number.
    pub fn refer(&mut self, number: usize)
        requires within { number < length self.old.table.things }
        requires lawful { IsLawful (resources_of self.old) }
        requires few { (d : Thing) → (slice_index_or self.old.table.things number d).references < 65535 }
        ensures after { (d : Thing) → resources_of self.new ≡ model.on_thing (model.with_references (λ n. n + 1)) (slice_index_or self.old.table.things number d).handle.serial (resources_of self.old) }
        ensures bare { bare_of (resources_of self.new) ≡ resources_of self.new }
        ensures stacks { self.new.stacks ≡ self.old.stacks }
    {
        self.table.refer(number);
    }

    /// One reference less.
    pub fn forget(&mut self, number: usize)
        requires within { number < length self.old.table.things }
        requires lawful { IsLawful (resources_of self.old) }
        requires some { (d : Thing) → 1 < (slice_index_or self.old.table.things number d).references }
        ensures after { (d : Thing) → resources_of self.new ≡ model.on_thing (model.with_references (λ n. n - 1)) (slice_index_or self.old.table.things number d).handle.serial (resources_of self.old) }
        ensures bare { bare_of (resources_of self.new) ≡ resources_of self.new }
        ensures stacks { self.new.stacks ≡ self.old.stacks }
    {
        self.table.forget(number);
    }

    /// The live thing of a number and a handle dies, and its index waits.
    pub fn die(&mut self, number: usize, h: Handle)
        requires limits { HasLimits self.old }
        requires lawful { IsLawful (resources_of self.old) }
        requires within { number < length self.old.table.things }
        requires live { (d : Thing) → HasLiveThing h self.old.table.things (slice_index_or self.old.table.things number d) }
        requires frame { self.old.frame ≤ 1073741823 }
        ensures limits { HasLimits self.new }
        ensures after { resources_of self.new ≡ model.die h (resources_of self.old) }
        ensures bare { bare_of (resources_of self.new) ≡ resources_of self.new }
    {
        let death = self.frame;
        let kind = h.kind();
        let index = h.index();
        self.table.kill(number, death);
        self.stacks[kind.number() as usize].wait(index, death);
    }

    /// The start of a frame: indices and things whose death is over are given back, and a view whose target died has
    /// the back buffer.
    pub fn start_frame(&mut self, frame: u32)
        requires limits { HasLimits self.old }
        requires lawful { IsLawful (resources_of self.old) }
        ensures limits { HasLimits self.new }
        ensures after { resources_of self.new ≡ model.start_frame frame (resources_of self.old) }
    {
        let keeps_all = self.keeps_all(frame);
        self.views.keep_targets(&self.table);
        reclaim_all(&mut self.stacks, self.latency, frame);
        self.frame = frame;
        if !keeps_all {
            self.table.start_frame(self.latency, frame);
        }
    }

    /// Whether the start of a frame keeps all things. It looks at those that wait alone.
    pub fn keeps_all(&self, frame: u32) -> bool
        requires limits { HasLimits self.now }
        requires lawful { IsLawful (resources_of self.now) }
        ensures { result ≡ list_all (is_kept_thing self.now.latency frame) self.now.table.things }
    {
        all_keep(&self.stacks, self.latency, frame)
    }
}
