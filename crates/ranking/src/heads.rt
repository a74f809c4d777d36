// The new ranks, and with them the heads of the new records.
ghost use Rattle.std.specs.Prelude.{◌≡◌, ◌≤◌, ◌<◌};
ghost use Rattle.ranking.specs.Heads.{rank_by, head_by, HeadOf, HeadsOf, Heads};

use crate::groups::Group;
use crate::keys::{SegmentKeys, key, key_class, key_group, keys_in};
use crate::rows::by_segment;
use words::fields::record_head;

impl SegmentKeys {
    // "Full ones first, then the rest, each group in its former order."
    fn new_rank(&self, own: u32) -> u32
        requires { own < 16384 }
        ensures { (result ≡ rank_by self.now.keys self.now.n own) × (result ≤ 64) }
    {
        keys_in(&self.keys, self.n, key(key_class(own), Group::Full, 0), own)
    }

    // The head of a segment's new record; in the pool it is 0.
    fn new_head(&self, lives: &[u32; 64], s: u32) -> u32
        requires { HeadOf self.now.keys lives.now self.now.n s }
        ensures { result ≡ head_by self.now.keys lives.now self.now.n s }
    {
        let own = self.keys[s as usize];
        if key_group(own) == Group::Pool as u32 {
            0
        } else {
            record_head(key_class(own), self.new_rank(own), lives[s as usize])
        }
    }

    // The heads of the new records.
    pub fn new_heads(&self, lives: &[u32; 64]) -> [u32; 64]
        requires { HeadsOf self.now.keys lives.now self.now.n }
        ensures { Heads self.now.keys lives.now self.now.n result }
    {
        by_segment(self.n, |s| self.new_head(lives, s))
    }
}
