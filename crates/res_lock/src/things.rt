// The context's calls on things and views, by the call that the history keeps.
ghost use Rattle.std.specs.Prelude.{◌≡◌, IfOk};
ghost use Rattle.gfx_words.specs.Seen.{own_source_seen};
ghost use Rattle.res_lock.specs.Seen.{call_seen};
ghost use Rattle.res_lock.specs.Called.{CreatesBy, ChangesBy, IsCreate, IsChange};

use crate::entry::ResCall;
use draw_encoder::Naming;
use frame_record::FrameLink;
use gfx_context::Context;
use gfx_words::{Handle, Refusal, TexSource};
use std::alloc::AllocError;

/// Makes the thing of a call.
pub(crate) fn create<'t, C: Naming, L: FrameLink + Drop>(
    context: &mut Context<'t, C, L>,
    call: &ResCall,
) -> Result<Handle, Refusal>
    requires { IsCreate (call_seen call.now) }
    ensures { CreatesBy (call_seen call.now) result context.old context.new }
{
    match call {
        ResCall::CreateLayout { layout } => context.create_layout(*layout),
        ResCall::CreateVertexBuffer { layout, bytes } => {
            context.create_vertex_buffer(*layout, bytes.as_slice())
        }
        ResCall::CreateIndexBuffer { bytes } => context.create_index_buffer(bytes.as_slice()),
        ResCall::CreateTexture {
            width,
            height,
            format,
            blit_dst,
            source,
        } => {
            let Ok(copy) = copied(source) else {
                return Err(Refusal::OutOfMemory);
            };
            context.create_texture(*width, *height, *format, *blit_dst, copy)
        }
        ResCall::CreateFrameBuffer { color, depth } => context.create_frame_buffer(*color, *depth),
        ResCall::CreateProgram { kind } => context.create_program(*kind),
        ResCall::CreateUniform { name, kind } => context.create_uniform(name.as_slice(), *kind),
        _ => unreachable!(),
    }
}

/// Changes the thing or the view of a call, or lets the thing die.
pub(crate) fn change<'t, C: Naming, L: FrameLink + Drop>(
    context: &mut Context<'t, C, L>,
    call: &ResCall,
) -> Result<(), Refusal>
    requires { IsChange (call_seen call.now) }
    ensures { ChangesBy (call_seen call.now) result context.old context.new }
{
    match call {
        ResCall::UpdateBuffer {
            buffer,
            offset,
            bytes,
        } => context.update_buffer(*buffer, *offset, bytes.as_slice()),
        ResCall::UpdateTexture {
            texture,
            rect,
            bytes,
        } => context.update_texture(*texture, *rect, bytes.as_slice()),
        ResCall::Destroy { thing } => context.destroy(*thing),
        ResCall::ViewRect { view, rect } => context.set_view_rect(*view, *rect),
        ResCall::ViewScissor { view, rect } => context.set_view_scissor(*view, *rect),
        ResCall::ViewClear {
            view,
            flags,
            color,
            depth,
            stencil,
        } => context.set_view_clear(*view, *flags, *color, *depth, *stencil),
        ResCall::ViewMode { view, mode } => context.set_view_mode(*view, *mode),
        ResCall::ViewTransform { view, transform } => {
            context.set_view_transform(*view, *transform)
        }
        ResCall::ViewTarget { view, target } => context.set_view_target(*view, *target),
        ResCall::ViewOrder { ids } => context.set_view_order(ids.as_slice()),
        ResCall::ViewReset { view } => context.reset_view(*view),
        _ => unreachable!(),
    }
}

// A source with the same texels.
fn copied(source: &TexSource) -> Result<TexSource, AllocError>
    ensures { IfOk result (λ s. own_source_seen s ≡ own_source_seen source.now) }
{
    match source {
        TexSource::Fill(color) => Ok(TexSource::Fill(*color)),
        TexSource::Bytes(bytes) => {
            let bytes = bytes.clone()?;
            Ok(TexSource::Bytes(bytes))
        }
    }
}
