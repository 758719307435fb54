// The table, and the letter boxes beside it.
ghost use Rattle.std.specs.Prelude.{◌≡◌, ◌<◌, true, None, IfSome, IfErr, IfOk, All, is_some, vec_len};
ghost use Rattle.hold_table.specs.Seats.{table_of};
ghost use Rattle.letter_boxes.specs.Letters.{IsOf};

use crate::boxes::LetterBox;
use crate::letter::Letter;
use crate::posting::Posting;
use draw_encoder::Recorder;
use hold_table::HoldTable;
use std::alloc::{AllocError, Global};

// How many boxes there are, as many as a frame has encoders.
const BOXES: u8 = 8;

/// The table, a box for each of eight encoder numbers, and one for an encoder that was given up.
#[derive(Drop)]
pub struct Shared<C: Posting> {
    pub table: HoldTable,
    boxes: Vec<LetterBox<C>>,
    lost: LetterBox<C>,
    ghost same: { All (λ b. table_of b.mail.shared.key ≡ table_of table) boxes.items },
    ghost lost_same: { table_of lost.mail.shared.key ≡ table_of table },
    ghost eight: { vec_len boxes ≡ 8 },
}

impl<C: Posting> Shared<C> {
    /// Empty boxes beside a table.
    pub fn new(alloc: Global, table: HoldTable) -> Result<Shared<C>, AllocError>
        ensures { IfOk result (λ s. s.table ≡ table) }
    {
        let mut boxes = Vec::new(alloc);
        for _ in 0..8usize {
            let empty = LetterBox::new(alloc, &table)?;
            boxes.push(empty)?;
        }
        let lost = LetterBox::new(alloc, &table)?;
        Ok(Shared { table, boxes, lost })
    }

    /// Ends a recorder and puts what it ended with into the box of its number, where that is empty. Else the recorder comes back.
    pub fn try_post(&self, recorder: Recorder, dropped: u32) -> Result<(), Recorder>
        requires table { recorder.table ≡ table_of self.now.table }
        requires views { recorder.state.recorder.view_count ≡ 512 }
        requires posted { C.posted recorder.state.seat.encoder recorder.state.seat.frame recorder.state.recorder.items dropped }
        ensures { IfErr result (λ r. r ≡ recorder) }
    {
        let number = recorder.number() % BOXES;
        self.boxes[number as usize].try_post(recorder, dropped)
    }

    /// Takes the letter out of the box of this number, where there is one. It is of the table, and has what was posted.
    pub fn try_take(&self, number: u8) -> Option<Letter<C>>
        requires { number < 8 }
        ensures of { IfSome result (λ l. IsOf (table_of self.now.table) l) }
        ensures ended { IfSome result (λ l. is_some l.0 ≡ true) }
    {
        self.boxes[number as usize].try_take()
    }

    /// Gives a recorder of the table up with what it recorded, and says so. Where that was said of another and not found yet, it is not said
    /// again.
    pub fn give_up(&self, recorder: Recorder)
        requires table { recorder.table ≡ table_of self.now.table }
        requires given_up { C.given_up recorder.state.seat.encoder recorder.state.seat.frame }
    {
        let _ = self.lost.try_give_up(recorder);
    }

    /// Finds the letter of an encoder of the table that was given up, once. None where none was, or where it was found before.
    pub fn find_given_up(&self) -> Option<Letter<C>>
        ensures of { IfSome result (λ l. IsOf (table_of self.now.table) l) }
        ensures given_up { IfSome result (λ l. l.0 ≡ None) }
    {
        self.lost.try_find()
    }
}
