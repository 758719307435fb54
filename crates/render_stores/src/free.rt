// Whether an index takes a new thing: it is one of its kind's, and has none.
ghost use Rattle.std.specs.Prelude.{◌≡◌, ◌<◌, ◌&&◌, true, None};
ghost use Rattle.gfx_model.specs.Words.{layout_kind, vertex_buffer_kind, index_buffer_kind, texture_kind, frame_buffer_kind, program_kind, uniform_kind, greatest};
ghost use Rattle.store_model.specs.Slots.{at};
ghost use Rattle.render_stores.specs.Free.{is_free};

use crate::programs::ProgramRow;
use buffer_store::BufferStore;
use gfx_words::Kind;
use texture_store::TextureStore;

fn both(first: bool, second: bool) -> bool
    ensures { result ≡ (first && second) }
{
    first && second
}

pub(crate) fn is_layout_free(buffers: &BufferStore, index: u16) -> bool
    ensures same { result ≡ is_free index buffers.now.layouts }
    ensures below { result ≡ true → index < greatest layout_kind }
    ensures none { result ≡ true → at buffers.now.layouts index ≡ None }
{
    buffers.tell_facts();
    let nothing = buffers.layout_of(Kind::Layout, index).is_none();
    both(index < Kind::Layout.greatest(), nothing)
}

pub(crate) fn is_vertex_buffer_free(buffers: &BufferStore, index: u16) -> bool
    ensures same { result ≡ is_free index buffers.now.vertices }
    ensures below { result ≡ true → index < greatest vertex_buffer_kind }
    ensures none { result ≡ true → at buffers.now.vertices index ≡ None }
{
    buffers.tell_facts();
    let nothing = buffers.bytes_of(Kind::VertexBuffer, index).is_none();
    both(index < Kind::VertexBuffer.greatest(), nothing)
}

pub(crate) fn is_index_buffer_free(buffers: &BufferStore, index: u16) -> bool
    ensures same { result ≡ is_free index buffers.now.indices }
    ensures below { result ≡ true → index < greatest index_buffer_kind }
    ensures none { result ≡ true → at buffers.now.indices index ≡ None }
{
    buffers.tell_facts();
    let nothing = buffers.bytes_of(Kind::IndexBuffer, index).is_none();
    both(index < Kind::IndexBuffer.greatest(), nothing)
}

pub(crate) fn is_uniform_free(buffers: &BufferStore, index: u16) -> bool
    ensures same { result ≡ is_free index buffers.now.uniforms }
    ensures below { result ≡ true → index < greatest uniform_kind }
    ensures none { result ≡ true → at buffers.now.uniforms index ≡ None }
{
    buffers.tell_facts();
    let nothing = buffers.value_of(index).is_none();
    both(index < Kind::Uniform.greatest(), nothing)
}

pub(crate) fn is_texture_free(textures: &TextureStore, index: u16) -> bool
    ensures same { result ≡ is_free index textures.now.textures }
    ensures below { result ≡ true → index < greatest texture_kind }
    ensures none { result ≡ true → at textures.now.textures index ≡ None }
{
    textures.tell_facts();
    let nothing = !textures.has_texture(index);
    both(index < Kind::Texture.greatest(), nothing)
}

pub(crate) fn is_target_free(textures: &TextureStore, index: u16) -> bool
    ensures same { result ≡ is_free index textures.now.targets }
    ensures below { result ≡ true → index < greatest frame_buffer_kind }
    ensures none { result ≡ true → at textures.now.targets index ≡ None }
{
    textures.tell_facts();
    let nothing = !textures.has_target(index);
    both(index < Kind::FrameBuffer.greatest(), nothing)
}

pub(crate) fn is_program_free(programs: &ProgramRow, index: u16) -> bool
    ensures same { result ≡ is_free index programs.now }
    ensures below { result ≡ true → index < greatest program_kind }
{
    programs.tell_facts();
    let nothing = programs.get(index).is_none();
    both(index < Kind::Program.greatest(), nothing)
}
