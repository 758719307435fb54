// The creates.
ghost use Rattle.gfx_model.specs.Resources as model;
ghost use Rattle.gfx_model.specs.Resources.{Thing};
ghost use Rattle.gfx_words.specs.Kinds.{uniform_seen};
ghost use Rattle.gfx_words.specs.Seen.{program_seen, IsFirstRefusal};
ghost use Rattle.resource_laws.specs.Bare.{bare_of};
ghost use Rattle.resource_laws.specs.Laws.{Gives};
ghost use Rattle.resource_laws.specs.Lawful.{IsLawful};
ghost use Rattle.resource_book.specs.Answered.{Creates};
ghost use Rattle.resource_book.specs.Orders.{HasRoom, orders_sent};
ghost use Rattle.resource_book.specs.Shelves.{resources_of};
ghost use Rattle.resource_book.specs.Written.{depth_word};
ghost use Rattle.std.specs.Prelude.{◌≡◌, ◌≤◌, ◌<◌, ◌+◌, length, slice_index_or, Some, None, MatchResult, IfOk, IfErr};

use crate::book::Book;
use crate::find::{can_attach, uniform_kind_of};
use crate::orders::Orders;
use crate::rows::Fact;
use crate::shelf::Shelf;
use cmd_buffer::Command;
use gfx_words::{Handle, Info, Kind, ProgramKind, Refusal, UniformKind};
use vertex_layout::VertexLayout;

// how many bytes a buffer can have
const MOST_BUFFER_BYTES: usize = 524_288;

/// Makes room for one thing, one command of so many bytes and one payload.
pub fn reserve(shelf: &mut Shelf, orders: &mut Orders, bytes: u32) -> Result<(), Refusal>
    ensures same { resources_of shelf.new ≡ resources_of shelf.old }
    ensures stacks { shelf.new.stacks ≡ shelf.old.stacks }
    ensures commands { orders.new.commands.commands ≡ orders.old.commands.commands }
    ensures payloads { orders_sent orders.new ≡ orders_sent orders.old }
    ensures thing { IfOk result (λ _. 1 ≤ shelf.new.table.spare) }
    ensures room { IfOk result (λ _. HasRoom bytes orders.new) }
    ensures refused { IfErr result (λ r. r ≡ Refusal.OutOfMemory) }
{
    if shelf.table.reserve().is_err() {
        return Err(Refusal::OutOfMemory);
    }
    orders.reserve(bytes)
}

fn serial_of(h: Option<Handle>) -> Option<u32>
    ensures { result ≡ model.serial_option h }
{
    match h {
        None => None,
        Some(h) => Some(h.serial()),
    }
}

fn index_of(h: Option<Handle>) -> u16
    ensures { result ≡ depth_word h }
{
    match h {
        None => 65_535,
        Some(h) => h.index(),
    }
}

// One reference more of the uniform of a number, if it is of a kind.
fn refer(shelf: &mut Shelf, number: usize, kind: UniformKind) -> Result<Handle, Refusal>
    requires lawful { IsLawful (resources_of shelf.old) }
    requires within { number < length shelf.old.table.things }
    ensures stacks { shelf.new.stacks ≡ shelf.old.stacks }
    ensures answer { (d : Thing) → MatchResult result
        (λ h. (model.first_refusal (model.uniform_refusals (resources_of shelf.old) (uniform_seen kind) (Some (slice_index_or shelf.old.table.things number d))) ≡ None)
        × (h ≡ (slice_index_or shelf.old.table.things number d).handle)
        × (resources_of shelf.new ≡ bare_of (model.on_thing (model.with_references (λ n. n + 1)) h.serial (resources_of shelf.old))))
        (λ r. IsFirstRefusal (model.first_refusal (model.uniform_refusals (resources_of shelf.old) (uniform_seen kind) (Some (slice_index_or shelf.old.table.things number d)))) r × (resources_of shelf.new ≡ resources_of shelf.old)) }
{
    let row = shelf.table.row(number);
    if !kind.is(uniform_kind_of(&row.fact)) {
        return Err(Refusal::WrongKind);
    }
    if row.references >= 65_535 {
        return Err(Refusal::Full);
    }
    let handle = row.handle;
    shelf.refer(number);
    Ok(handle)
}

impl Book {
    /// Makes a layout. `Full` exactly where 64 layouts live or wait; then `SerialsSpent` exactly where no serial is left.
    pub fn create_layout(&mut self, layout: VertexLayout) -> Result<Handle, Refusal>
        ensures answer { Creates result (model.create_layout layout) self.old self.new }
        ensures free { IfOk result (λ h. Gives self.old.resources (model.create_layout layout) h) }
    {
        if self.shelf.lacks_index(Kind::Layout) {
            return Err(Refusal::Full);
        }
        if self.shelf.lacks_serial() {
            return Err(Refusal::SerialsSpent);
        }
        // as long as with any other index
        let bytes = Command::CreateLayout { index: 0, layout }.size();
        reserve(&mut self.shelf, &mut self.orders, bytes)?;
        let handle = self
            .shelf
            .make(Kind::Layout, Info::Plain, Fact::Layout(layout), None);
        self.orders.write(Command::CreateLayout {
            index: handle.index(),
            layout,
        });
        Ok(handle)
    }

    /// Makes a vertex buffer of a layout. `BadSize` exactly where there are not 1 to 524,288 bytes; then `WrongKind`, `Stale`, `Full` (1,024) and `SerialsSpent`.
    pub fn create_vertex_buffer(&mut self, layout: Handle, bytes: &[u8]) -> Result<Handle, Refusal>
        ensures answer { Creates result (model.create_vertex_buffer layout bytes.now) self.old self.new }
        ensures free { IfOk result (λ h. Gives self.old.resources (model.create_vertex_buffer layout bytes.now) h) }
    {
        if bytes.len() < 1 || bytes.len() > MOST_BUFFER_BYTES {
            return Err(Refusal::BadSize);
        }
        if !layout.kind().is(Kind::Layout) {
            return Err(Refusal::WrongKind);
        }
        self.must_live(layout)?;
        if self.shelf.lacks_index(Kind::VertexBuffer) {
            return Err(Refusal::Full);
        }
        if self.shelf.lacks_serial() {
            return Err(Refusal::SerialsSpent);
        }
        let Ok(sent) = bytes.to_vec(self.alloc) else {
            return Err(Refusal::OutOfMemory)
        };
        reserve(&mut self.shelf, &mut self.orders, 9)?;
        let payload = self.orders.next_payload();
        let fact = Fact::Vertices {
            bytes: bytes.len() as u32,
        };
        let handle = self.shelf.make(Kind::VertexBuffer, Info::Plain, fact, None);
        let index = handle.index();
        self.orders.send(
            Command::CreateVertexBuffer {
                index,
                layout: layout.index(),
                payload,
            },
            sent,
        );
        Ok(handle)
    }

    /// Makes an index buffer. `BadSize` exactly where there are not 2 to 524,288 bytes, or an odd number; then `Full` (1,024) and `SerialsSpent`.
    pub fn create_index_buffer(&mut self, bytes: &[u8]) -> Result<Handle, Refusal>
        ensures answer { Creates result (model.create_index_buffer bytes.now) self.old self.new }
        ensures free { IfOk result (λ h. Gives self.old.resources (model.create_index_buffer bytes.now) h) }
    {
        if bytes.len() < 1 || bytes.len() > MOST_BUFFER_BYTES || bytes.len() % 2 != 0 {
            return Err(Refusal::BadSize);
        }
        if self.shelf.lacks_index(Kind::IndexBuffer) {
            return Err(Refusal::Full);
        }
        if self.shelf.lacks_serial() {
            return Err(Refusal::SerialsSpent);
        }
        let Ok(sent) = bytes.to_vec(self.alloc) else {
            return Err(Refusal::OutOfMemory)
        };
        reserve(&mut self.shelf, &mut self.orders, 7)?;
        let payload = self.orders.next_payload();
        let fact = Fact::Indices {
            bytes: bytes.len() as u32,
        };
        let handle = self.shelf.make(Kind::IndexBuffer, Info::Plain, fact, None);
        let index = handle.index();
        self.orders
            .send(Command::CreateIndexBuffer { index, payload }, sent);
        Ok(handle)
    }

    /// Makes a program. `Full` exactly where 256 programs live or wait; then `SerialsSpent`.
    pub fn create_program(&mut self, kind: ProgramKind) -> Result<Handle, Refusal>
        ensures answer { Creates result (model.create_program (program_seen kind)) self.old self.new }
        ensures free { IfOk result (λ h. Gives self.old.resources (model.create_program (program_seen kind)) h) }
    {
        if self.shelf.lacks_index(Kind::Program) {
            return Err(Refusal::Full);
        }
        if self.shelf.lacks_serial() {
            return Err(Refusal::SerialsSpent);
        }
        reserve(&mut self.shelf, &mut self.orders, 4)?;
        let handle = self
            .shelf
            .make(Kind::Program, Info::Plain, Fact::Program(kind), None);
        self.orders.write(Command::CreateProgram {
            index: handle.index(),
            kind: kind.number(),
        });
        Ok(handle)
    }

    /// Makes a frame buffer. `WrongKind` exactly where the colour is no rgba8 texture, or a depth is given that is no d24s8 texture of the same sides; then `Stale` of the colour and of the depth, `Full` (128) and `SerialsSpent`.
    pub fn create_frame_buffer(
        &mut self,
        color: Handle,
        depth: Option<Handle>,
    ) -> Result<Handle, Refusal>
        ensures answer { Creates result (model.create_frame_buffer color depth) self.old self.new }
        ensures free { IfOk result (λ h. Gives self.old.resources (model.create_frame_buffer color depth) h) }
    {
        if !can_attach(color, depth) {
            return Err(Refusal::WrongKind);
        }
        self.must_live(color)?;
        match self.must_live_option(&depth) {
            Ok(()) => {}
            Err(r) => return Err(r),
        }
        if self.shelf.lacks_index(Kind::FrameBuffer) {
            return Err(Refusal::Full);
        }
        if self.shelf.lacks_serial() {
            return Err(Refusal::SerialsSpent);
        }
        reserve(&mut self.shelf, &mut self.orders, 7)?;
        let fact = Fact::FrameBuffer {
            color: color.serial(),
            depth: serial_of(depth),
        };
        let handle = self.shelf.make(Kind::FrameBuffer, Info::Plain, fact, None);
        let index = handle.index();
        self.orders.write(Command::CreateFrameBuffer {
            index,
            color: color.index(),
            depth: index_of(depth),
        });
        Ok(handle)
    }

    /// Makes a uniform, or refers to the live one of that name once more. `BadSize` exactly where the name has not 1 to 32 bytes; then, where one lives, `WrongKind` for the other kind and `Full` at 65,535 references; else `Full` (256) and `SerialsSpent`. Memory can be wanting only where none of the name lives.
    pub fn create_uniform(&mut self, name: &[u8], kind: UniformKind) -> Result<Handle, Refusal>
        ensures answer { Creates result (model.create_uniform name.now (uniform_seen kind)) self.old self.new }
        ensures free { IfOk result (λ h. Gives self.old.resources (model.create_uniform name.now (uniform_seen kind)) h) }
        ensures memory { IfErr result (λ r. r ≡ Refusal.OutOfMemory → model.named_uniform self.old.resources name.now ≡ None) }
    {
        if name.len() < 1 || name.len() > 32 {
            return Err(Refusal::BadSize);
        }
        match self.shelf.table.named(name) {
            Some(number) => refer(&mut self.shelf, number, kind),
            None => self.new_uniform(name, kind),
        }
    }

    fn new_uniform(&mut self, name: &[u8], kind: UniformKind) -> Result<Handle, Refusal>
        requires size { (1 ≤ length name.now) × (length name.now ≤ 32) }
        requires none { model.named_uniform self.old.resources name.now ≡ None }
        ensures { Creates result (model.create_uniform name.now (uniform_seen kind)) self.old self.new }
    {
        if self.shelf.lacks_index(Kind::Uniform) {
            return Err(Refusal::Full);
        }
        if self.shelf.lacks_serial() {
            return Err(Refusal::SerialsSpent);
        }
        let Ok(own) = name.to_vec(self.alloc) else {
            return Err(Refusal::OutOfMemory)
        };
        let Ok(key) = name.to_vec(self.alloc) else {
            return Err(Refusal::OutOfMemory)
        };
        let Ok(sent) = name.to_vec(self.alloc) else {
            return Err(Refusal::OutOfMemory)
        };
        reserve(&mut self.shelf, &mut self.orders, 12)?;
        let payload = self.orders.next_payload();
        let fact = Fact::Uniform { kind, name: own };
        let handle = self
            .shelf
            .make(Kind::Uniform, Info::Uniform(kind), fact, Some(key));
        let index = handle.index();
        let serial = handle.serial();
        self.orders.send(
            Command::CreateUniform {
                index,
                serial,
                kind: kind.number(),
                payload,
            },
            sent,
        );
        Ok(handle)
    }
}
