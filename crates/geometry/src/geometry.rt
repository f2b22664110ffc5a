ghost use Rattle.std.specs.Prelude.{◌≡◌, ◌/◌, ◌≤◌, ◌<◌, ◌*◌, IfOk, IfErr, None, Some};

use crate::limits::{
    GeometryFault, MAX_BLOCKS, MAX_BROOMS, MAX_ENDURANCE, MAX_HOSTS, MAX_LUNS, MAX_PAGES,
    MAX_SECTORS, MAX_TABLE_WORDS, MAX_WORDS, MIN_BLOCKS, WORD_BYTES,
};

/// The numbers that make a device, by their names. A device without hosts is for one thread, and has no brooms.
#[derive(Clone, Copy, Debug, PartialEq, Eq)]
pub struct DeviceNumbers {
    /// The LUNs.
    pub luns: u32,
    /// The blocks over all LUNs.
    pub blocks: u32,
    /// The pages of a block.
    pub pages: u32,
    /// The 64-bit words of a page.
    pub words: u32,
    /// The sectors, of one page each.
    pub sectors: u32,
    /// The erase cycles of a block.
    pub endurance: u32,
    /// The host passes.
    pub hosts: u32,
    /// The brooms.
    pub brooms: u32,
}

/// The numbers of a device, all within their limits.
#[derive(Clone, Copy, Debug, PartialEq, Eq)]
pub struct Geometry {
    luns: u32,
    blocks: u32,
    pages: u32,
    words: u32,
    sectors: u32,
    endurance: u32,
    hosts: u32,
    brooms: u32,
    pub ghost in_limits: { IsWithinLimits
        (record { luns = luns; blocks = blocks; pages = pages; words = words; sectors = sectors; endurance = endurance; hosts = hosts; brooms = brooms }) },
}

ghost use Rattle.geometry.specs.Limits.{IsWithinLimits, first_fault, numbers, table_words_of, has_room_of};

impl Geometry {
    ghost use Rattle.geometry.specs.Geometry.{numbers_in, numbers_of, luns_of, blocks_of, pages_of, words_of, sectors_of};
    ghost use Rattle.geometry.specs.Geometry.{endurance_of, hosts_of, brooms_of, page_bytes_of, lun_of};

    /// A device of these numbers: LUNs, blocks in all, pages of a block, 64-bit words of a page,
    /// sectors, erase cycles of a block, host passes and brooms.
    #[allow(clippy::too_many_arguments)]
    pub fn new(
        luns: u32,
        blocks: u32,
        pages: u32,
        words: u32,
        sectors: u32,
        endurance: u32,
        hosts: u32,
        brooms: u32,
    ) -> Result<Geometry, GeometryFault>
        ensures given { IfOk result
            (λ g. numbers_of g ≡ numbers luns blocks pages words sectors endurance hosts brooms) }
        ensures sound { IfOk result
            (λ g. first_fault (numbers luns blocks pages words sectors endurance hosts brooms)
            ≡ None) }
        ensures first { IfErr result
            (λ fault. first_fault (numbers luns blocks pages words sectors endurance hosts brooms)
            ≡ Some fault) }
    {
        if luns < 1 || luns > MAX_LUNS {
            return Err(GeometryFault::Luns);
        }
        if blocks < MIN_BLOCKS || blocks > MAX_BLOCKS || blocks % luns != 0 {
            return Err(GeometryFault::Blocks);
        }
        if pages < 1 || pages > MAX_PAGES {
            return Err(GeometryFault::Pages);
        }
        if words < 1 || words > MAX_WORDS {
            return Err(GeometryFault::Words);
        }
        if sectors < 1 || sectors > MAX_SECTORS {
            return Err(GeometryFault::Sectors);
        }
        if endurance < 1 || endurance > MAX_ENDURANCE {
            return Err(GeometryFault::Endurance);
        }
        if hosts > MAX_HOSTS || brooms > MAX_BROOMS || (hosts == 0 && brooms > 0) {
            return Err(GeometryFault::Passes);
        }
        if table_words(blocks, pages, words, sectors) > MAX_TABLE_WORDS {
            return Err(GeometryFault::TooManyWords);
        }
        if !has_room(blocks, pages, sectors, hosts, brooms) {
            return Err(GeometryFault::TooFewBlocks);
        }
        Ok(Geometry {
            luns,
            blocks,
            pages,
            words,
            sectors,
            endurance,
            hosts,
            brooms,
        })
    }

    /// A device of these numbers.
    pub fn of(given: DeviceNumbers) -> Result<Geometry, GeometryFault>
        ensures given { IfOk result (λ g. numbers_of g ≡ numbers_in given) }
        ensures sound { IfOk result (λ g. first_fault (numbers_in given) ≡ None) }
        ensures first { IfErr result (λ fault. first_fault (numbers_in given) ≡ Some fault) }
    {
        Geometry::new(
            given.luns,
            given.blocks,
            given.pages,
            given.words,
            given.sectors,
            given.endurance,
            given.hosts,
            given.brooms,
        )
    }

    /// The LUNs.
    pub fn luns(&self) -> u32
        ensures value { result ≡ luns_of self.now }
        ensures low { 1 ≤ result }
        ensures high { result ≤ MAX_LUNS }
    {
        self.luns
    }

    /// The blocks over all LUNs.
    pub fn blocks(&self) -> u32
        ensures value { result ≡ blocks_of self.now }
        ensures low { MIN_BLOCKS ≤ result }
        ensures high { result ≤ MAX_BLOCKS }
    {
        self.blocks
    }

    /// The pages of a block.
    pub fn pages(&self) -> u32
        ensures value { result ≡ pages_of self.now }
        ensures low { 1 ≤ result }
        ensures high { result ≤ MAX_PAGES }
    {
        self.pages
    }

    /// The 64-bit words of a page.
    pub fn words(&self) -> u32
        ensures value { result ≡ words_of self.now }
        ensures low { 1 ≤ result }
        ensures high { result ≤ MAX_WORDS }
    {
        self.words
    }

    /// The sectors.
    pub fn sectors(&self) -> u32
        ensures value { result ≡ sectors_of self.now }
        ensures low { 1 ≤ result }
        ensures high { result ≤ MAX_SECTORS }
    {
        self.sectors
    }

    /// The erase cycles of a block: the last of them fails and retires it.
    pub fn endurance(&self) -> u32
        ensures value { result ≡ endurance_of self.now }
        ensures low { 1 ≤ result }
        ensures high { result ≤ MAX_ENDURANCE }
    {
        self.endurance
    }

    /// The host passes; none means one thread.
    pub fn hosts(&self) -> u32
        ensures value { result ≡ hosts_of self.now }
        ensures high { result ≤ MAX_HOSTS }
    {
        self.hosts
    }

    /// The brooms.
    pub fn brooms(&self) -> u32
        ensures value { result ≡ brooms_of self.now }
        ensures high { result ≤ MAX_BROOMS }
    {
        self.brooms
    }

    /// The bytes of a page.
    pub fn page_bytes(&self) -> usize
        ensures { result ≡ page_bytes_of self.now }
    {
        self.words as usize * WORD_BYTES as usize
    }

    /// The LUN of a block.
    pub fn lun_of(&self, block: u32) -> u32
        requires { block < blocks_of self.now }
        ensures value { result ≡ lun_of self.now block }
        ensures within { result < luns_of self.now }
    {
        block / (self.blocks / self.luns)
    }
}

// The words of the table that a shared device of these numbers has.
fn table_words(blocks: u32, pages: u32, words: u32, sectors: u32) -> u64
    requires blocks { blocks ≤ MAX_BLOCKS }
    requires pages { pages ≤ MAX_PAGES }
    requires words { words ≤ MAX_WORDS }
    requires sectors { sectors ≤ MAX_SECTORS }
    ensures { result ≡ table_words_of blocks pages words sectors }
{
    u64::from(sectors)
        + u64::from(blocks)
        + u64::from(blocks) * u64::from(pages) * (u64::from(words) + 1)
}

// Whether the sectors fit in addition to what collection needs.
fn has_room(blocks: u32, pages: u32, sectors: u32, hosts: u32, brooms: u32) -> bool
    requires blocks_low { MIN_BLOCKS ≤ blocks }
    requires blocks_high { blocks ≤ MAX_BLOCKS }
    requires pages { pages ≤ MAX_PAGES }
    requires hosts { hosts ≤ MAX_HOSTS }
    requires brooms { brooms ≤ MAX_BROOMS }
    ensures { result ≡ has_room_of blocks pages sectors hosts brooms }
{
    if hosts == 0 {
        return sectors < (blocks - 1) * pages;
    }
    let kept = hosts + 2 * brooms;
    kept < blocks && sectors <= (blocks - kept) * pages
}
