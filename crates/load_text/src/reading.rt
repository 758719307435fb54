// What each line does to the state of reading.
ghost use Rattle.std.specs.Prelude.{◌≡◌, ◌≤◌, ◌<◌, ◌++◌, ◌∷◌, [], map, IfOk};
ghost use Rattle.scene_model.specs.Field.{split_at};
ghost use Rattle.scene_model.specs.Grammar.{on_last, is_skipped};
ghost use Rattle.load_text.specs.Text as text;
ghost use Rattle.text_fields.specs.Fields.{texts};
ghost use Rattle.load_text.specs.Seen.{line_seen, block_seen};
ghost use Rattle.load_text.specs.SeenReading.{stage_seen, reading_seen, Reads};

use crate::fields::{has_count, is_word, number, when};
use crate::load::{Block, BlockLine};
use crate::names::Names;
use crate::stages::{Reading, Stage};
use crate::words::{program_word, uniform_word};
use std::alloc::{AllocError, Global};
use text_fields::{field, split_fields};

// A text of at most 16,777,216 bytes has fewer lines.
const MOST_LINES: usize = 16_777_216;

/// A block more, without lines.
fn add_block(alloc: Global, blocks: &mut Vec<Block>, caller: u8) -> Result<(), AllocError>
    requires { caller < 8 }
    ensures { IfOk result (λ _. map block_seen blocks.new.items ≡ map block_seen blocks.old.items ++ record { caller = caller; lines = [] } ∷ []) }
{
    let block = Block {
        caller,
        lines: Vec::new(alloc),
    };
    blocks.push(block)?;
    Ok(())
}

/// A line more in a block. A block of so many lines, which no text has, is as where there is no memory.
fn push_line(block: &mut Block, line: BlockLine) -> Result<(), AllocError>
    ensures { IfOk result (λ _. block_seen block.new ≡ text.with_one (line_seen line) (block_seen block.old)) }
{
    if block.lines.len() >= MOST_LINES {
        return Err(AllocError);
    }
    block.lines.push(line)?;
    Ok(())
}

/// A line more in the last block.
fn add_line(blocks: &mut Vec<Block>, line: BlockLine) -> Result<(), AllocError>
    ensures { IfOk result (λ _. map block_seen blocks.new.items ≡ on_last (text.with_one (line_seen line)) (map block_seen blocks.old.items)) }
{
    match blocks.last_mut() {
        Some(block) => push_line(block, line)?,
        None => drop(line),
    }
    Ok(())
}

/// Whether a line is empty or begins with `#`.
fn is_skipped(line: &[u8]) -> bool
    ensures { result ≡ is_skipped line.now }
{
    match line {
        [] => true,
        [first, ..] => *first == b'#',
    }
}

impl Reading {
    /// Before the first line. It takes no memory.
    pub fn new(alloc: Global) -> Reading
        ensures { reading_seen result ≡ text.nothing_read }
    {
        Reading {
            stage: Stage::Front,
            callers: 0,
            names: Names::new(alloc),
            blocks: Vec::new(alloc),
        }
    }

    /// `load 1`.
    #[tactic(auto, unfolding(crate::specs::Text::front_after))]
    fn front_after(&mut self, fields: &[&[u8]]) -> bool
        ensures { Reads result (reading_seen self.new) (text.front_after (reading_seen self.old) (texts fields.now)) }
    {
        if !is_word(b"load", fields) {
            return false;
        }
        match has_count(fields, 2) {
            Some(_) => {}
            None => return false,
        }
        match number(field(fields, 1), 1, 1) {
            Some(_) => {
                self.stage = Stage::Callers;
                true
            }
            None => false,
        }
    }

    /// `callers N`.
    #[tactic(auto, unfolding(crate::specs::Text::callers_after))]
    fn callers_after(&mut self, fields: &[&[u8]]) -> bool
        ensures { Reads result (reading_seen self.new) (text.callers_after (reading_seen self.old) (texts fields.now)) }
    {
        if !is_word(b"callers", fields) {
            return false;
        }
        match has_count(fields, 2) {
            Some(_) => {}
            None => return false,
        }
        match number(field(fields, 1), 1, 8) {
            Some(callers) => {
                self.stage = Stage::FirstBlock;
                self.callers = callers as u8;
                true
            }
            None => false,
        }
    }

    /// `caller C`, where C is not below `low`.
    #[tactic(auto, unfolding(crate::specs::Text::caller_after))]
    fn caller_after(
        &mut self,
        alloc: Global,
        low: u16,
        fields: &[&[u8]],
    ) -> Result<bool, AllocError>
        ensures { IfOk result (λ ok. Reads ok (reading_seen self.new) (text.caller_after low (reading_seen self.old) (texts fields.now))) }
    {
        match has_count(fields, 2) {
            Some(_) => {}
            None => return Ok(false),
        }
        let most = self.callers.saturating_sub(1);
        match number(field(fields, 1), low as u64, most as u64) {
            Some(caller) => {
                add_block(alloc, &mut self.blocks, caller as u8)?;
                self.stage = Stage::InBlock(caller as u8);
                self.names = Names::new(alloc);
                Ok(true)
            }
            None => Ok(false),
        }
    }

    /// `done`.
    #[tactic(auto, unfolding(crate::specs::Text::done_after))]
    fn done_after(&mut self, fields: &[&[u8]]) -> bool
        ensures { Reads result (reading_seen self.new) (text.done_after (reading_seen self.old) (texts fields.now)) }
    {
        match has_count(fields, 1) {
            Some(_) => {
                self.stage = Stage::End;
                true
            }
            None => false,
        }
    }

    /// A line between blocks. The next block's caller is not below `low`.
    #[tactic(auto, unfolding(crate::specs::Text::between_after))]
    fn between_after(
        &mut self,
        alloc: Global,
        low: u16,
        fields: &[&[u8]],
    ) -> Result<bool, AllocError>
        ensures { IfOk result (λ ok. Reads ok (reading_seen self.new) (text.between_after low (reading_seen self.old) (texts fields.now))) }
    {
        if is_word(b"caller", fields) {
            let stands = self.caller_after(alloc, low, fields)?;
            return Ok(stands);
        }
        if is_word(b"done", fields) {
            let stands = self.done_after(fields);
            return Ok(stands);
        }
        Ok(false)
    }

    /// `program NAME KIND`.
    #[tactic(auto, unfolding(crate::specs::Text::program_after))]
    fn program_after(&mut self, alloc: Global, fields: &[&[u8]]) -> Result<bool, AllocError>
        ensures { IfOk result (λ ok. Reads ok (reading_seen self.new) (text.program_after (reading_seen self.old) (texts fields.now))) }
    {
        match has_count(fields, 3) {
            Some(_) => {}
            None => return Ok(false),
        }
        if !self.names.bind(alloc, field(fields, 1))? {
            return Ok(false);
        }
        match program_word(field(fields, 2)) {
            Some(kind) => {
                add_line(&mut self.blocks, BlockLine::Program { kind })?;
                Ok(true)
            }
            None => Ok(false),
        }
    }

    /// `uniform NAME KIND`.
    #[tactic(auto, unfolding(crate::specs::Text::uniform_after))]
    fn uniform_after(&mut self, alloc: Global, fields: &[&[u8]]) -> Result<bool, AllocError>
        ensures { IfOk result (λ ok. Reads ok (reading_seen self.new) (text.uniform_after (reading_seen self.old) (texts fields.now))) }
    {
        match has_count(fields, 3) {
            Some(_) => {}
            None => return Ok(false),
        }
        if !self.names.bind(alloc, field(fields, 1))? {
            return Ok(false);
        }
        match uniform_word(field(fields, 2)) {
            Some(kind) => {
                let name = Vec::from_slice(alloc, field(fields, 1))?;
                add_line(&mut self.blocks, BlockLine::Uniform { name, kind })?;
                Ok(true)
            }
            None => Ok(false),
        }
    }

    /// `destroy NAME`.
    #[tactic(auto, unfolding(crate::specs::Text::destroy_after))]
    fn destroy_after(&mut self, fields: &[&[u8]]) -> Result<bool, AllocError>
        ensures { IfOk result (λ ok. Reads ok (reading_seen self.new) (text.destroy_after (reading_seen self.old) (texts fields.now))) }
    {
        match has_count(fields, 2) {
            Some(_) => {}
            None => return Ok(false),
        }
        match self.names.place_of(field(fields, 1)) {
            Some(create_line) => {
                add_line(&mut self.blocks, BlockLine::Destroy { create_line })?;
                Ok(true)
            }
            None => Ok(false),
        }
    }

    /// `frame`, which caller 0 alone has.
    #[tactic(auto, unfolding(crate::specs::Text::frame_after))]
    fn frame_after(&mut self, caller: u8, fields: &[&[u8]]) -> Result<bool, AllocError>
        ensures { IfOk result (λ ok. Reads ok (reading_seen self.new) (text.frame_after caller (reading_seen self.old) (texts fields.now))) }
    {
        match when(caller == 0) {
            Some(_) => {}
            None => return Ok(false),
        }
        match has_count(fields, 1) {
            Some(_) => {
                add_line(&mut self.blocks, BlockLine::Frame)?;
                Ok(true)
            }
            None => Ok(false),
        }
    }

    /// A line where the last block is a caller's.
    #[tactic(auto, unfolding(crate::specs::Text::block_after))]
    fn block_after(
        &mut self,
        alloc: Global,
        caller: u8,
        fields: &[&[u8]],
    ) -> Result<bool, AllocError>
        ensures { IfOk result (λ ok. Reads ok (reading_seen self.new) (text.block_after caller (reading_seen self.old) (texts fields.now))) }
    {
        if is_word(b"program", fields) {
            let stands = self.program_after(alloc, fields)?;
            return Ok(stands);
        }
        if is_word(b"uniform", fields) {
            let stands = self.uniform_after(alloc, fields)?;
            return Ok(stands);
        }
        if is_word(b"destroy", fields) {
            let stands = self.destroy_after(fields)?;
            return Ok(stands);
        }
        if is_word(b"frame", fields) {
            let stands = self.frame_after(caller, fields)?;
            return Ok(stands);
        }
        let stands = self.between_after(alloc, caller as u16 + 1, fields)?;
        Ok(stands)
    }

    /// A line by the stage.
    fn after_fields(&mut self, alloc: Global, fields: &[&[u8]]) -> Result<bool, AllocError>
        ensures { IfOk result (λ ok. Reads ok (reading_seen self.new) (text.after_fields (stage_seen self.old.stage) (reading_seen self.old) (texts fields.now))) }
    {
        match self.stage {
            Stage::Front => Ok(self.front_after(fields)),
            Stage::Callers => Ok(self.callers_after(fields)),
            Stage::FirstBlock => {
                let stands = self.between_after(alloc, 0, fields)?;
                Ok(stands)
            }
            Stage::InBlock(caller) => {
                let stands = self.block_after(alloc, caller, fields)?;
                Ok(stands)
            }
            Stage::End => Ok(false),
        }
    }

    /// A line that is not passed over.
    fn after_text<'a>(
        &mut self,
        alloc: Global,
        line: &'a [u8],
        fields: &mut Vec<&'a [u8]>,
    ) -> Result<bool, AllocError>
        ensures { IfOk result (λ ok. Reads ok (reading_seen self.new) (text.after_fields (stage_seen self.old.stage) (reading_seen self.old) (split_at 32 line.now))) }
    {
        split_fields(line, b' ', fields)?;
        let stands = self.after_fields(alloc, fields)?;
        Ok(stands)
    }

    /// A line: whether it stands where it does, and what is read then.
    pub fn after_line<'a>(
        &mut self,
        alloc: Global,
        line: &'a [u8],
        fields: &mut Vec<&'a [u8]>,
    ) -> Result<bool, AllocError>
        ensures { IfOk result (λ ok. Reads ok (reading_seen self.new) (text.after_line (reading_seen self.old) line.now)) }
    {
        if is_skipped(line) {
            return Ok(true);
        }
        let stands = self.after_text(alloc, line, fields)?;
        Ok(stands)
    }
}
