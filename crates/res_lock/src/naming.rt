// Which history a lock keeps.
use std::marker::Brand;

/// Which table counts the lock's history, and from which state of the calls the history begins. The caller of the generic function
/// in which the lock lives picks all of these meanings.
pub trait HistoryNaming {
    ghost use Rattle.atomic_table.specs.Seated.{TableId};
    ghost use Rattle.gfx_model.specs.FrameCalls.{CallState};
    ghost use Rattle.resource_book.specs.Written.{BookView};
    ghost use Rattle.std.specs.Prelude.{List};
    ghost use Rattle.frame_record.specs.declared.frame.Frame.{Frame};

    /// The named table.
    ghost table: { TableId };

    /// The state of the context's calls before the first entry.
    ghost start: { CallState };

    /// What they wrote in this frame before the first entry.
    ghost book: { BookView };

    /// The frames that were given before the first entry.
    ghost given: { List Frame };
}

impl HistoryNaming for Brand {
    ghost use Rattle.std.specs.Prelude.{[]};
    ghost use Rattle.gfx_model.specs.Resources.{opening};
    ghost use Rattle.gfx_model.specs.FrameCalls.{opened};
    ghost use Rattle.gfx_context.specs.States.{no_book};
    ghost use Rattle.draw_encoder.specs.Bundles.{no_table};

    ghost table = { no_table };

    ghost start = { opened (opening 0 0 0 0) };

    ghost book = { no_book };

    ghost given = { [] };
}
