//! Room for the replies and emits of an attempt.
ghost use Rattle.std.specs.Prelude.{◌≡◌, ◌<◌, ◌+◌, [], ◌∷◌, ◌++◌, IfOk, length};
ghost use Rattle.work_script.specs.Outputs.{Output, HasRoom, with_reply};

use crate::lists::Words;
use crate::op::Op;
use smallvec::SmallVec;
use std::alloc::Global;
use std::marker::Model;
use stm_model::memory::Memory;

/// The replies and emits so far, with room for `room` of each.
#[derive(Drop)]
pub struct Replies {
    replies: SmallVec<u64, 1>,
    emits: SmallVec<u64, 1>,
    room: usize,
}

impl Model for Replies {
    ghost use Rattle.std.specs.Prelude.{◌≤◌};
    ghost use Rattle.work_script.specs.Outputs.{Output};

    ghost Value = { Output };

    ghost view = { λ r. record { replies = r.replies.items; emits = r.emits.items; room = r.room } };

    ghost invariant = { λ r. (r.room ≤ r.replies.capacity) × (r.room ≤ r.emits.capacity) };
}

impl Replies {
    /// Room for `ops` replies and as many emits. Memory may be refused; one operation takes none.
    pub fn new(alloc: Global, ops: usize) -> Result<Replies, Memory>
        ensures { IfOk result (λ r. r ≡ record { replies = []; emits = []; room = ops }) }
    {
        let replies = SmallVec::with_capacity(alloc, ops)?;
        let emits = SmallVec::with_capacity(alloc, ops)?;
        Ok(Replies {
            replies,
            emits,
            room: ops,
        })
    }

    /// Drops what is there and keeps the room.
    pub fn clear(&mut self)
        ensures { self.new ≡ record self.old { replies = []; emits = [] } }
    {
        self.replies.clear();
        self.emits.clear();
    }

    /// The replies and the emits.
    pub fn into_words(self) -> (Words, Words)
        ensures { (result.0 ≡ self.replies) × (result.1 ≡ self.emits) }
    {
        let Replies {
            replies,
            emits,
            room: _,
        } = self;
        (Words::new(replies), Words::new(emits))
    }

    /// Adds the reply of an operation, and what it emits. Takes no memory.
    pub fn add(&mut self, op: &Op, reply: u64)
        requires { HasRoom self.old 1 }
        ensures { self.new ≡ with_reply self.old op.now reply }
    {
        match op {
            Op::Emit(_) => {
                self.emit(reply);
                self.reply(reply);
            }
            _ => self.reply(reply),
        }
    }

    /// Adds a reply. Takes no memory.
    pub fn reply(&mut self, v: u64)
        requires { length self.old.replies < self.old.room }
        ensures { self.new ≡ record self.old { replies = self.old.replies ++ v ∷ [] } }
    {
        self.replies.push_reserved(v);
    }

    /// Adds an emit. Takes no memory.
    fn emit(&mut self, v: u64)
        requires { length self.old.emits < self.old.room }
        ensures { self.new ≡ record self.old { emits = self.old.emits ++ v ∷ [] } }
    {
        self.emits.push_reserved(v);
    }
}
