// The end of a frame and the start of the next.
ghost use Rattle.gfx_model.specs.Resources as model;
ghost use Rattle.std.specs.Prelude.{◌≡◌, ◌≤◌, [], MatchResult};

use crate::book::Book;
use crate::opening::post_buffer;
use crate::orders::Orders;
use cmd_buffer::CmdBytes;
use std::alloc::AllocError;
use std::mem;
use view_table::ViewTable;

/// What the calls of a frame wrote for the renderer, and the frame's views.
#[derive(Drop)]
pub struct Work {
    pub views: ViewTable,
    /// What is done before the frame's draws.
    pub pre: CmdBytes,
    /// What is done behind them.
    pub post: CmdBytes,
    pub payloads: Vec<Vec<u8>>,
}

impl Book {
    ghost use Rattle.resource_book.specs.Works.{IsWork, with_nothing_written};

    /// Takes what the calls of the frame wrote, with a copy of the views. Memory for the next frame's destroys is taken
    /// here; after want of memory nothing is taken.
    pub fn take_work(&mut self) -> Result<Work, AllocError>
        ensures { MatchResult result
            (λ work. IsWork self.old work × (self.new ≡ with_nothing_written self.old))
            (λ _. self.new ≡ self.old) }
    {
        // the end of each row
        self.orders.commands.reserve(1)?;
        self.post.reserve(1)?;
        let destroys = post_buffer(self.alloc)?;
        let views = self.shelf.views.copy()?;
        let orders = mem::replace(&mut self.orders, Orders::new(self.alloc));
        let post = mem::replace(&mut self.post, destroys);
        Ok(Work {
            views,
            pre: orders.commands.finish().unwrap(),
            post: post.finish().unwrap(),
            payloads: orders.payloads,
        })
    }

    /// Starts a frame: indices and things whose death is over are given back, and a view whose target died has the back
    /// buffer. What was written has been taken. The rows that `Row::is_kept` refuses tell before the call which places
    /// it leaves free. It takes no memory.
    pub fn start_frame(&mut self, frame: u32)
        requires later { self.old.resources.frame ≤ frame }
        requires most { frame ≤ 1073741823 }
        requires taken { self.old.post ≡ [] }
        ensures { self.new ≡ record self.old { resources = model.start_frame frame self.old.resources } }
    {
        self.shelf.start_frame(frame);
    }
}
