// What the seats of a letter box know, its rule, and the kinds of step.
use crate::letter::Letter;
use crate::posting::Posting;
use atomic_table::{Play, TableRule};
use hold_table::HoldTable;
use std::marker::Model;

/// What a seat of a box knows. No value of it is made.
pub struct Knows {
    nothing: (),
}

impl Model for Knows {
    ghost use Rattle.letter_boxes.specs.Mails.{MailView, no_table};

    ghost Value = { MailView };

    ghost view = { λ _. record { holds = 0; of = no_table } };
}

/// The rule of a box. Its key is the hold table, of which the rule alone knows.
pub struct Law;

impl<C: Posting> TableRule<Option<Letter<C>>, Knows, HoldTable> for Law {
    ghost use Rattle.letter_boxes.specs.Mail.{IsMail, first_view};

    ghost holds = { IsMail };

    ghost first = { first_view };
}

/// A seat is made.
pub struct Enter;

impl<C: Posting> Play<Option<Letter<C>>, Knows> for Enter {
    ghost use Rattle.letter_boxes.specs.Mail.{Enters};

    ghost then = { Enters };
}

/// An empty box is taken.
pub struct Claim;

impl<C: Posting> Play<Option<Letter<C>>, Knows> for Claim {
    ghost use Rattle.letter_boxes.specs.Mail.{Claims};

    ghost then = { Claims };
}

/// A box with the letter of an encoder that was ended is taken.
pub struct Grab;

impl<C: Posting> Play<Option<Letter<C>>, Knows> for Grab {
    ghost use Rattle.letter_boxes.specs.Mail.{Grabs};

    ghost then = { Grabs };
}

/// A box with the letter of an encoder that was given up is taken.
pub struct Find;

impl<C: Posting> Play<Option<Letter<C>>, Knows> for Find {
    ghost use Rattle.letter_boxes.specs.Mail.{Finds};

    ghost then = { Finds };
}

/// A box is given back.
pub struct Rest;

impl<C: Posting> Play<Option<Letter<C>>, Knows> for Rest {
    ghost use Rattle.letter_boxes.specs.Mail.{Rests};

    ghost then = { Rests };
}
