//! How many pages a broom can still copy to.
ghost use Rattle.std.specs.Prelude.{◌≡◌, ◌≤◌, length};
ghost use Rattle.broom.specs.Emptying.{pages_left, pages_to_fill};
ghost use Rattle.broom.specs.Ready.{blocks_of_broom};

use crate::broom::Broom;
use flash_table::OpenBlock;

// How many of so many pages are left in a block, if there is one.
#[tactic(auto, using(crate::proofs::Emptying::left_count))]
fn left_in(pages: u32, opened: Option<OpenBlock>) -> u64
    ensures count { result ≡ length (pages_left pages opened) }
    ensures most { result ≤ pages }
{
    match opened {
        None => 0,
        Some(o) => u64::from(pages.saturating_sub(o.written)),
    }
}

impl Broom {
    /// How many pages the broom can still copy to: those left in its destination and in its spare, if a block has so many pages.
    #[tactic(auto, using(crate::proofs::Emptying::fill_count))]
    pub fn room(&self, pages: u32) -> u64
        ensures { result ≡ length (pages_to_fill pages (blocks_of_broom self.now)) }
    {
        let blocks = self.seat.blocks();
        left_in(pages, blocks.destination) + left_in(pages, blocks.spare)
    }
}
