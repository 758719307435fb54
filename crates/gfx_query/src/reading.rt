// The state of reading, and what each line does to it.
ghost use Rattle.std.specs.Prelude.{◌≡◌, ◌≤◌, ◌++◌, ◌∷◌, [], nat_lt, length, map, IfOk};
ghost use Rattle.scene_model.specs.Field.{split_at};
ghost use Rattle.scene_model.specs.Grammar.{on_last, is_skipped};
ghost use Rattle.gfx_query.specs.Text as text;
ghost use Rattle.text_fields.specs.Fields.{texts};
ghost use Rattle.gfx_query.specs.Seen.{step_seen, frame_seen, AreShort};
ghost use Rattle.gfx_query.specs.SeenReading.{stage_seen, reading_seen, Reads};

use crate::fields::{has_count, is_word, when};
use crate::forms::{draw_form, instances_form, setting_form, size_form, version_form};
use crate::script::Step;
use crate::sides::TargetSides;
use crate::stages::{Reading, Stage};
use std::alloc::{AllocError, Global};
use std::mem::replace;
use text_fields::split_fields;

/// A frame more, without lines.
fn add_frame(alloc: Global, frames: &mut Vec<Vec<Step>>) -> Result<(), AllocError>
    ensures { IfOk result (λ _. map frame_seen frames.new.items ≡ map frame_seen frames.old.items ++ [] ∷ []) }
{
    let frame = Vec::new(alloc);
    frames.push(frame)?;
    Ok(())
}

/// A step more in the last frame.
fn add_step(frames: &mut Vec<Vec<Step>>, step: Step) -> Result<(), AllocError>
    ensures { IfOk result (λ _. map frame_seen frames.new.items ≡ on_last (text.with_one (step_seen step)) (map frame_seen frames.old.items)) }
{
    match frames.last_mut() {
        Some(frame) => frame.push(step)?,
        None => drop(step),
    }
    Ok(())
}

/// There are fewer than 1,024 frames.
fn has_room(frames: &[Vec<Step>]) -> Option<bool>
    ensures { result ≡ text.when (nat_lt (length (map frame_seen frames.now)) 1024) }
{
    when(frames.len() < 1024)
}

/// Whether a line is empty or begins with `#`.
fn is_skipped(line: &[u8]) -> bool
    ensures { result ≡ is_skipped line.now }
{
    match line {
        [] => true,
        [first, ..] => *first == b'#',
    }
}

impl Reading {
    /// Before the first line. It takes no memory.
    pub fn new(alloc: Global) -> Reading
        ensures { reading_seen result ≡ text.nothing_read }
    {
        Reading {
            stage: Stage::Front,
            sides: TargetSides {
                width: 1,
                height: 1,
            },
            frames: Vec::new(alloc),
            instances: Vec::new(alloc),
        }
    }

    /// `frame`, one of at most 1,024.
    #[tactic(auto, unfolding(crate::specs::Text::after_frame))]
    fn after_frame(&mut self, alloc: Global, fields: &[&[u8]]) -> Result<bool, AllocError>
        ensures { IfOk result (λ ok. Reads ok (reading_seen self.new) (text.after_frame (reading_seen self.old) (texts fields.now))) }
    {
        match has_count(fields, 1) {
            Some(_) => {}
            None => return Ok(false),
        }
        match has_room(&self.frames) {
            Some(_) => {}
            None => return Ok(false),
        }
        add_frame(alloc, &mut self.frames)?;
        self.stage = Stage::InFrame;
        self.instances = Vec::new(alloc);
        Ok(true)
    }

    /// `done`.
    #[tactic(auto, unfolding(crate::specs::Text::after_done))]
    fn after_done(&mut self, fields: &[&[u8]]) -> bool
        ensures { Reads result (reading_seen self.new) (text.after_done (reading_seen self.old) (texts fields.now)) }
    {
        match has_count(fields, 1) {
            Some(_) => {
                self.stage = Stage::End;
                true
            }
            None => false,
        }
    }

    /// An `instances` line, which takes the place of an earlier one.
    #[tactic(auto, unfolding(crate::specs::Text::after_instances))]
    fn after_instances(&mut self, alloc: Global, fields: &[&[u8]]) -> Result<bool, AllocError>
        requires { AreShort (texts fields.now) }
        ensures { IfOk result (λ ok. Reads ok (reading_seen self.new) (text.after_instances (reading_seen self.old) (texts fields.now))) }
    {
        match instances_form(alloc, fields)? {
            Some(bytes) => {
                self.instances = bytes;
                Ok(true)
            }
            None => Ok(false),
        }
    }

    /// A `draw` line, which takes the transforms.
    #[tactic(auto, unfolding(crate::specs::Text::after_draw_line))]
    fn after_draw_line(&mut self, alloc: Global, fields: &[&[u8]]) -> Result<bool, AllocError>
        requires { AreShort (texts fields.now) }
        ensures { IfOk result (λ ok. Reads ok (reading_seen self.new) (text.after_draw_line (reading_seen self.old) (texts fields.now))) }
    {
        let instances = replace(&mut self.instances, Vec::new(alloc));
        match draw_form(alloc, instances, fields)? {
            Some(draw) => {
                add_step(&mut self.frames, Step::Draw(draw))?;
                Ok(true)
            }
            None => Ok(false),
        }
    }

    /// A line that sets something.
    #[tactic(auto, unfolding(crate::specs::Text::after_setting))]
    fn after_setting(&mut self, fields: &[&[u8]]) -> Result<bool, AllocError>
        ensures { IfOk result (λ ok. Reads ok (reading_seen self.new) (text.after_setting (reading_seen self.old) (texts fields.now))) }
    {
        match setting_form(fields) {
            Some(step) => {
                add_step(&mut self.frames, step)?;
                Ok(true)
            }
            None => Ok(false),
        }
    }

    /// A line of a frame.
    #[tactic(auto, unfolding(crate::specs::Text::in_frame_after))]
    fn in_frame_after(&mut self, alloc: Global, fields: &[&[u8]]) -> Result<bool, AllocError>
        requires { AreShort (texts fields.now) }
        ensures { IfOk result (λ ok. Reads ok (reading_seen self.new) (text.in_frame_after (reading_seen self.old) (texts fields.now))) }
    {
        if is_word(b"frame", fields) {
            let stands = self.after_frame(alloc, fields)?;
            return Ok(stands);
        }
        if is_word(b"done", fields) {
            let stands = self.after_done(fields);
            return Ok(stands);
        }
        if is_word(b"instances", fields) {
            let stands = self.after_instances(alloc, fields)?;
            return Ok(stands);
        }
        if is_word(b"draw", fields) {
            let stands = self.after_draw_line(alloc, fields)?;
            return Ok(stands);
        }
        let stands = self.after_setting(fields)?;
        Ok(stands)
    }

    /// The first line.
    #[tactic(auto, unfolding(crate::specs::Text::front_after))]
    fn front_after(&mut self, fields: &[&[u8]]) -> bool
        ensures { Reads result (reading_seen self.new) (text.front_after (reading_seen self.old) (texts fields.now)) }
    {
        match version_form(fields) {
            Some(_) => {
                self.stage = Stage::Size;
                true
            }
            None => false,
        }
    }

    /// The `size` line.
    #[tactic(auto, unfolding(crate::specs::Text::size_after))]
    fn size_after(&mut self, fields: &[&[u8]]) -> bool
        ensures { Reads result (reading_seen self.new) (text.size_after (reading_seen self.old) (texts fields.now)) }
    {
        match size_form(fields) {
            Some(sides) => {
                self.sides = sides;
                self.stage = Stage::FirstFrame;
                true
            }
            None => false,
        }
    }

    /// The first `frame` line.
    #[tactic(auto, unfolding(crate::specs::Text::first_frame_after))]
    fn first_frame_after(&mut self, alloc: Global, fields: &[&[u8]]) -> Result<bool, AllocError>
        ensures { IfOk result (λ ok. Reads ok (reading_seen self.new) (text.first_frame_after (reading_seen self.old) (texts fields.now))) }
    {
        if is_word(b"frame", fields) {
            let stands = self.after_frame(alloc, fields)?;
            return Ok(stands);
        }
        Ok(false)
    }

    /// A line by the stage.
    fn after_fields(&mut self, alloc: Global, fields: &[&[u8]]) -> Result<bool, AllocError>
        requires { AreShort (texts fields.now) }
        ensures { IfOk result (λ ok. Reads ok (reading_seen self.new) (text.after_fields (stage_seen self.old.stage) (reading_seen self.old) (texts fields.now))) }
    {
        match self.stage {
            Stage::Front => Ok(self.front_after(fields)),
            Stage::Size => Ok(self.size_after(fields)),
            Stage::FirstFrame => {
                let stands = self.first_frame_after(alloc, fields)?;
                Ok(stands)
            }
            Stage::InFrame => {
                let stands = self.in_frame_after(alloc, fields)?;
                Ok(stands)
            }
            Stage::End => Ok(false),
        }
    }

    /// A line that is not passed over.
    fn after_text<'a>(
        &mut self,
        alloc: Global,
        line: &'a [u8],
        fields: &mut Vec<&'a [u8]>,
    ) -> Result<bool, AllocError>
        requires { length line.now ≤ 16777216 }
        ensures { IfOk result (λ ok. Reads ok (reading_seen self.new) (text.after_fields (stage_seen self.old.stage) (reading_seen self.old) (split_at 32 line.now))) }
    {
        split_fields(line, b' ', fields)?;
        let stands = self.after_fields(alloc, fields)?;
        Ok(stands)
    }

    /// A line: whether it stands where it does, and what is read then.
    pub fn after_line<'a>(
        &mut self,
        alloc: Global,
        line: &'a [u8],
        fields: &mut Vec<&'a [u8]>,
    ) -> Result<bool, AllocError>
        requires { length line.now ≤ 16777216 }
        ensures { IfOk result (λ ok. Reads ok (reading_seen self.new) (text.after_line (reading_seen self.old) line.now)) }
    {
        if is_skipped(line) {
            return Ok(true);
        }
        let stands = self.after_text(alloc, line, fields)?;
        Ok(stands)
    }
}
