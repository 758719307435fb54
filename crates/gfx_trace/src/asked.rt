// What an input asks for.
ghost use Rattle.std.specs.Prelude.{◌≡◌, ◌≤◌, length, option_map, IfOk};
ghost use Rattle.spelling_model.specs.Readable.{IsReadable};
ghost use Rattle.scene_model.specs.Grammar.{front_of, whole_language};
ghost use Rattle.scene_model.specs.JournalText.{journal_of};
ghost use Rattle.scene_text.specs.Bounds.{IsBounded};
ghost use Rattle.scene_text.specs.Seen.{journal_seen, scene_seen};
ghost use Rattle.scene_tracing.specs.Asked.{IsLawfulOrder};
ghost use Rattle.gfx_trace.specs.Asked.{asked_of, behind_front, by_journal};
ghost use Rattle.gfx_trace.specs.Found.{IsFound, ReadsLawful};

use scene_showing::item_counts;
use scene_text::{
    Journal, JournalFault, Scene, SceneFault, fault_place, read, read_front, read_journal,
};
use std::alloc::Global;
use std::sync::Wait;
use std::thread::Threads;

/// A scene, and the journal behind it, where one stands there.
#[derive(Drop)]
pub(crate) struct Asked {
    pub scene: Scene,
    pub journal: Option<Journal>,
}

/// Why an input asks for nothing.
#[derive(Clone, Copy, Drop)]
pub(crate) enum AskedFault {
    Scene { line: u32, cause: u8 },
    Journal { place: u32 },
    OutOfMemory,
}

/// The journal behind a scene, which is lawful for it.
fn read_lawful<R: Threads + Wait + Sync>(
    rt: &R,
    alloc: Global,
    scene: &Scene,
    bytes: &[u8],
) -> Result<Journal, JournalFault>
    requires readable { IsReadable (scene_seen scene.now) }
    requires bounded { IsBounded (scene_seen scene.now) }
    requires few { length bytes.now ≤ 16777216 }
    ensures { ReadsLawful result (scene_seen scene.now) (journal_of bytes.now (length (scene_seen scene.now).frames)) }
{
    let journal = read_journal(alloc, bytes, scene.frames.as_slice().len() as u32)?;
    let counts = item_counts(rt, alloc, scene)?;
    match fault_place(&journal, &counts) {
        Some(place) => Err(JournalFault::At { place }),
        None => Ok(journal),
    }
}

/// A scene with the journal that stands in the bytes behind it.
fn read_behind<R: Threads + Wait + Sync>(
    rt: &R,
    alloc: Global,
    scene: Scene,
    bytes: &[u8],
) -> Result<Asked, AskedFault>
    requires readable { IsReadable (scene_seen scene) }
    requires bounded { IsBounded (scene_seen scene) }
    requires few { length bytes.now ≤ 16777216 }
    ensures found { IsFound result (by_journal (scene_seen scene) (journal_of bytes.now (length (scene_seen scene).frames))) }
    ensures readable { IfOk result (λ asked. IsReadable (scene_seen asked.scene)) }
    ensures bounded { IfOk result (λ asked. IsBounded (scene_seen asked.scene)) }
    ensures lawful { IfOk result (λ asked. IsLawfulOrder (scene_seen asked.scene) (option_map journal_seen asked.journal)) }
{
    match read_lawful(rt, alloc, &scene, bytes) {
        Ok(journal) => Ok(Asked {
            scene,
            journal: Some(journal),
        }),
        Err(JournalFault::At { place }) => Err(AskedFault::Journal { place }),
        Err(JournalFault::OutOfMemory) => Err(AskedFault::OutOfMemory),
    }
}

/// The scene at the front of the bytes, and the journal behind it.
fn read_both<R: Threads + Wait + Sync>(
    rt: &R,
    alloc: Global,
    bytes: &[u8],
) -> Result<Asked, AskedFault>
    requires { length bytes.now ≤ 16777216 }
    ensures found { IsFound result (behind_front bytes.now (front_of whole_language bytes.now)) }
    ensures readable { IfOk result (λ asked. IsReadable (scene_seen asked.scene)) }
    ensures bounded { IfOk result (λ asked. IsBounded (scene_seen asked.scene)) }
    ensures lawful { IfOk result (λ asked. IsLawfulOrder (scene_seen asked.scene) (option_map journal_seen asked.journal)) }
{
    match read_front(alloc, bytes) {
        Ok((scene, end)) => read_behind(rt, alloc, scene, &bytes[end..]),
        Err(SceneFault::At { line, cause }) => Err(AskedFault::Scene { line, cause }),
        Err(SceneFault::OutOfMemory) => Err(AskedFault::OutOfMemory),
    }
}

/// What the bytes ask for: a scene alone, or one with a journal behind it.
pub(crate) fn read_asked<R: Threads + Wait + Sync>(
    rt: &R,
    alloc: Global,
    bytes: &[u8],
) -> Result<Asked, AskedFault>
    requires { length bytes.now ≤ 16777216 }
    ensures found { IsFound result (asked_of bytes.now) }
    ensures readable { IfOk result (λ asked. IsReadable (scene_seen asked.scene)) }
    ensures bounded { IfOk result (λ asked. IsBounded (scene_seen asked.scene)) }
    ensures lawful { IfOk result (λ asked. IsLawfulOrder (scene_seen asked.scene) (option_map journal_seen asked.journal)) }
{
    match read(alloc, bytes) {
        Ok(scene) => Ok(Asked {
            scene,
            journal: None,
        }),
        Err(SceneFault::At { .. }) => read_both(rt, alloc, bytes),
        Err(SceneFault::OutOfMemory) => Err(AskedFault::OutOfMemory),
    }
}
