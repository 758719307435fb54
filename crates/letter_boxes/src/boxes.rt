// A letter box of one place, in which each letter is of the box's table.
ghost use Rattle.std.specs.Prelude.{◌≡◌, None, IfSome, IfErr, IfOk, is_some, true};
ghost use Rattle.hold_table.specs.Seats.{table_of};
ghost use Rattle.letter_boxes.specs.Letters.{IsOf};

use crate::letter::Letter;
use crate::letter_rule::{Claim, Enter, Find, Grab, Knows, Law, Rest};
use crate::posting::Posting;
use atomic_table::Table;
use draw_encoder::Recorder;
use hold_table::HoldTable;
use std::alloc::{AllocError, Global};

type Mail<C> = Table<Option<Letter<C>>, Knows, HoldTable, Law, Global>;

/// A box of one place. Its key is the table.
#[derive(Drop)]
pub struct LetterBox<C: Posting> {
    mail: Mail<C>,
    ghost one: { (mail.shared.table_id.words ≡ 1) × (mail.shared.table_id.slots ≡ 1) },
}

impl<C: Posting> LetterBox<C> {
    /// An empty box for letters of a table.
    pub fn new(alloc: Global, table: &HoldTable) -> Result<LetterBox<C>, AllocError>
        ensures { IfOk result (λ b. b.mail.shared.key ≡ table.now) }
    {
        let (mail, _seat) = Table::vacant(alloc, &[0], 1, table)?;
        Ok(LetterBox { mail })
    }

    /// Ends a recorder and puts in what it ended with, where the box is empty. Else the recorder comes back.
    pub fn try_post(&self, recorder: Recorder, dropped: u32) -> Result<(), Recorder>
        requires table { recorder.table ≡ table_of self.now.mail.shared.key }
        requires views { recorder.state.recorder.view_count ≡ 512 }
        requires posted { C.posted recorder.state.seat.encoder recorder.state.seat.frame recorder.state.recorder.items dropped }
        ensures { IfErr result (λ r. r ≡ recorder) }
    {
        let mail = &self.mail;
        let shared = &mail.shared;
        let (_, mut seat) = shared.load_new_seat::<Enter>(0);
        if shared.compare_exchange::<Claim>(&mut seat, 0, 0, 1) != 0 {
            return Err(recorder);
        }
        let letter = Letter::ended(recorder, dropped);
        match shared.exchange(&mut seat, 0, Some(letter)) {
            None => {}
            Some(_) => unreachable!(),
        }
        shared.store::<Rest>(&mut seat, 0, 2);
        Ok(())
    }

    /// Gives a recorder up and puts in that it was, where the box is empty. Else the recorder comes back.
    pub fn try_give_up(&self, recorder: Recorder) -> Result<(), Recorder>
        requires table { recorder.table ≡ table_of self.now.mail.shared.key }
        requires given_up { C.given_up recorder.state.seat.encoder recorder.state.seat.frame }
        ensures { IfErr result (λ r. r ≡ recorder) }
    {
        let mail = &self.mail;
        let shared = &mail.shared;
        let (_, mut seat) = shared.load_new_seat::<Enter>(0);
        if shared.compare_exchange::<Claim>(&mut seat, 0, 0, 1) != 0 {
            return Err(recorder);
        }
        let letter = Letter::given_up(recorder);
        match shared.exchange(&mut seat, 0, Some(letter)) {
            None => {}
            Some(_) => unreachable!(),
        }
        shared.store::<Rest>(&mut seat, 0, 3);
        Ok(())
    }

    /// Takes the letter of an encoder that was ended out, where there is one. It is of the table.
    pub fn try_take(&self) -> Option<Letter<C>>
        ensures of { IfSome result (λ l. IsOf (table_of self.now.mail.shared.key) l) }
        ensures ended { IfSome result (λ l. is_some l.0 ≡ true) }
    {
        let mail = &self.mail;
        let shared = &mail.shared;
        let (_, mut seat) = shared.load_new_seat::<Enter>(0);
        if shared.compare_exchange::<Grab>(&mut seat, 0, 2, 1) != 2 {
            return None;
        }
        match shared.exchange(&mut seat, 0, None) {
            Some(letter) => {
                shared.store::<Rest>(&mut seat, 0, 0);
                Some(letter)
            }
            None => unreachable!(),
        }
    }

    /// Takes the letter of an encoder that was given up out, where there is one. It is of the table.
    pub fn try_find(&self) -> Option<Letter<C>>
        ensures of { IfSome result (λ l. IsOf (table_of self.now.mail.shared.key) l) }
        ensures given_up { IfSome result (λ l. l.0 ≡ None) }
    {
        let mail = &self.mail;
        let shared = &mail.shared;
        let (_, mut seat) = shared.load_new_seat::<Enter>(0);
        if shared.compare_exchange::<Find>(&mut seat, 0, 3, 1) != 3 {
            return None;
        }
        match shared.exchange(&mut seat, 0, None) {
            Some(letter) => {
                shared.store::<Rest>(&mut seat, 0, 0);
                Some(letter)
            }
            None => unreachable!(),
        }
    }
}
