//! Replies to the steps of a segment.

use act_index::Answer;
use act_script::Batch;
use std::marker::Model;

/// A line of text. Contracts see it as bytes.
#[derive(Debug, Drop)]
pub struct Line {
    bytes: Vec<u8>,
}

impl Model for Line {
    ghost use Rattle.std.specs.Prelude.{List, ℕ};

    ghost Value = { List ℕ };

    ghost view = { λ line. line.bytes.items };
}

impl Line {
    ghost use Rattle.std.specs.Prelude.{◌≡◌};
    ghost use Rattle.std.specs.Borrow.{Lends, sem, u8};
    ghost use Rattle.std.specs.contracts.alloc.Global as global;
    ghost use Rattle.std.specs.contracts.vec.Vec as vec;
    ghost use Rattle.std.specs.contracts.impls.GlobalAllocator.TheImpl.{ghosts};
    ghost use Rattle.act_join.specs.contracts.reply.Line.{the_row};

    /// The line of these bytes. It takes constant time.
    pub fn from_vec(bytes: Vec<u8>) -> Line
        ensures { result ≡ bytes.items }
    {
        Line { bytes }
    }

    /// The bytes.
    pub fn into_vec(self) -> Vec<u8>
        ensures { result.items ≡ self }
    {
        self.bytes
    }

    pub fn as_slice(&self) -> &[u8]
        ensures { result.now ≡ self.now }
    {
        &self.bytes
    }

    /// The bytes, to be changed in place.
    pub fn vec_mut(&mut self) -> &mut Vec<u8>
        ensures* writes_back { sem 𝓛 (Lends the_row (vec.the_row u8 global.the_row ghosts) self.entry result (λ v. v.items)) }
        ensures shows { result.now.items ≡ self.old }
    {
        &mut self.bytes
    }
}

/// The reply to a step.
#[derive(Drop)]
pub enum Reply {
    /// An update was decided. `added` is the key of a zone that was added, and comes exactly where one was. The line
    /// is the reply with its line feed.
    Update {
        added: Option<u32>,
        line: Line,
    },
    /// A batch was answered over the zones that stand after the first `after` updates.
    Batch {
        batch: Batch,
        after: u64,
        answer: Answer,
    },
}

/// The replies to the steps of a segment, in the order of the script. Contracts see them as the list.
#[derive(Drop)]
pub struct Solved {
    replies: Vec<Reply>,
}

impl Model for Solved {
    ghost use Rattle.std.specs.Prelude.{List};
    ghost use Rattle.act_join.specs.declared.reply.Reply.{Reply};

    ghost Value = { List Reply };

    ghost view = { λ solved. solved.replies.items };
}

impl Solved {
    ghost use Rattle.std.specs.Prelude.{◌≡◌};
    ghost use Rattle.std.specs.Borrow.{Lends, sem};
    ghost use Rattle.std.specs.contracts.alloc.Global as global;
    ghost use Rattle.std.specs.contracts.vec.Vec as vec;
    ghost use Rattle.std.specs.contracts.impls.GlobalAllocator.TheImpl.{ghosts};
    ghost use Rattle.act_join.specs.contracts.reply.Reply as reply;
    ghost use Rattle.act_join.specs.contracts.reply.Solved.{the_row};

    /// The replies of the vector. It takes constant time.
    pub fn from_vec(replies: Vec<Reply>) -> Solved
        ensures { result ≡ replies.items }
    {
        Solved { replies }
    }

    /// The vector of the replies.
    pub fn into_vec(self) -> Vec<Reply>
        ensures { result.items ≡ self }
    {
        self.replies
    }

    pub fn as_slice(&self) -> &[Reply]
        ensures { result.now ≡ self.now }
    {
        &self.replies
    }

    /// The replies, to be changed in place.
    pub fn vec_mut(&mut self) -> &mut Vec<Reply>
        ensures* writes_back { sem 𝓛 (Lends the_row (vec.the_row reply.the_row global.the_row ghosts) self.entry result (λ v. v.items)) }
        ensures shows { result.now.items ≡ self.old }
    {
        &mut self.replies
    }
}
