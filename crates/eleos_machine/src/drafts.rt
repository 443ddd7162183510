// The entry that a pass is to stamp next.
ghost use Rattle.std.specs.Prelude.{◌≡◌, ◌<◌, ◌≤◌, length, []};
ghost use Rattle.eleos_core.specs.Applying.{stamp_of};
ghost use Rattle.eleos_plot.specs.Entries.{HasSweep, sweep_of, with_block, with_looked};
ghost use Rattle.eleos_plot.specs.Refs.{event_bytes, event_of, reply_bytes, reply_of};

use crate::pass::Pass;
use eleos_base::Looked;
use eleos_plot::{EventRef, ReplyRef};

impl Pass {
    /// Makes the draft this entry of the pass, with no blocks, with an empty sweep, and with no
    /// length.
    pub fn set(&mut self, event: EventRef<'_>, reply: ReplyRef<'_>)
        requires written { length (event_bytes event) ≤ 8192 }
        requires text { length (reply_bytes reply) ≤ 1024 }
        ensures { self.new ≡ record self.old {
          draft
              = stamp_of self.old.hand.number (event_of event.entry) [] (reply_of reply.entry) 0;
        } }
    {
        let who = self.hand.number();
        self.local.draft.set(who, event, reply);
    }

    /// Says how many sub-pages the block has that the draft's entry frees or shares.
    pub fn set_len(&mut self, len: u32)
        ensures { self.new ≡ record self.old { draft = record self.old.draft { len = len } } }
    {
        self.local.draft.set_len(len);
    }

    /// Appends a block to the draft.
    pub fn add_block(&mut self, block: &[u8])
        requires room { length self.old.draft.entry.blocks < 4 }
        requires whole { length block.now ≡ 1024 }
        ensures { self.new ≡ record self.old { draft = with_block self.old.draft block.now } }
    {
        self.local.draft.add_block(block);
    }

    /// Appends a word to the sweep of the draft's event, and to that of its reply if it has one.
    pub fn add_looked(&mut self, word: Looked)
        requires sweeps { HasSweep self.old.draft.entry.event }
        requires room { length (sweep_of self.old.draft.entry.event) < 512 }
        ensures { self.new ≡ record self.old { draft = with_looked self.old.draft word } }
    {
        self.local.draft.add_looked(word);
    }
}
