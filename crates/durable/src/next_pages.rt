ghost use Rattle.std.specs.Prelude.{◌≡◌, ◌<◌, true, false};
ghost use Rattle.durable.specs.Collecting.{IsNotOpen, IsCopied, IsProgrammed, page_for_hosts};
ghost use Rattle.durable.specs.Collecting.{is_in as is_page_in};

use crate::search::page_after;
use geometry::PageAddr;

/// The page to be programmed next in each open block: in that of hosts' pages, and in that of copies. While the first isn't open, hosts' pages go to the
/// other.
#[derive(Clone, Copy)]
pub struct NextPages {
    pub hosts: Option<PageAddr>,
    pub copies: Option<PageAddr>,
}

impl NextPages {
    /// The page that a host's write takes, if a block is open for it.
    pub fn for_hosts(self) -> Option<PageAddr>
        ensures { result ≡ page_for_hosts self.hosts self.copies }
    {
        match self.hosts {
            Some(at) => Some(at),
            None => self.copies,
        }
    }

    /// The same after a host's write.
    pub fn programmed(self, at: PageAddr, pages: u32) -> NextPages
        requires { at.page < pages }
        ensures { IsProgrammed self at pages result }
    {
        match self.hosts {
            Some(_) => NextPages {
                hosts: page_after(at, pages),
                copies: self.copies,
            },
            None => NextPages {
                hosts: None,
                copies: page_after(at, pages),
            },
        }
    }

    /// The same after a copy.
    pub fn copied(self, to: PageAddr, pages: u32) -> NextPages
        requires { to.page < pages }
        ensures { IsCopied self to pages result }
    {
        NextPages {
            hosts: self.hosts,
            copies: page_after(to, pages),
        }
    }

    /// Whether a block isn't open.
    pub fn is_closed(self, block: u32) -> bool
        ensures yes { result ≡ true → IsNotOpen self block }
        ensures no { result ≡ false → ¬ IsNotOpen self block }
    {
        if is_in(self.hosts, block) {
            return false;
        }
        if is_in(self.copies, block) {
            return false;
        }
        true
    }
}

// Whether a page is in a block.
fn is_in(at: Option<PageAddr>, block: u32) -> bool
    ensures { result ≡ is_page_in block at }
{
    at.map_or(false, |at| at.block == block)
}
