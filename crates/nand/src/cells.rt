ghost use Rattle.std.specs.Prelude.{◌≡◌, true, false, IfSome};
ghost use Rattle.durable.specs.Flash.{SetsPage, LosesPages, Erased, Version};
ghost use Rattle.nand.specs.Nand.{ReadsMain, value_with};
ghost use Rattle.nand.specs.Cells.{contents_of, flash_in, reading_of, IsWiped};

use crate::flash::{Reading, Stamp};
use geometry::PageAddr;
use std::alloc::Global;

/// A page of a modelled chip.
#[derive(Drop)]
pub enum Page {
    Erased,
    Torn,
    /// The stamp, and the main bytes.
    Version(Stamp, Vec<u8>),
}

/// Puts something into a page, if there is such a page.
pub fn put(blocks: &mut Vec<Vec<Page>>, at: PageAddr, page: Page) -> bool
    ensures put { result ≡ true
        → SetsPage (flash_in blocks.old.items)
        (flash_in blocks.new.items) at.block at.page (contents_of page) }
    ensures same { result ≡ false → blocks.new.items ≡ blocks.old.items }
    ensures missing { result ≡ false → flash_in blocks.old.items at.block at.page ≡ Erased }
{
    let (block, index) = (at.block as usize, at.page as usize);
    if block >= blocks.len() || index >= blocks[block].len() {
        return false;
    }
    blocks[block][index] = page;
    true
}

/// Erases a block, if there is such a block.
pub fn erase(blocks: &mut Vec<Vec<Page>>, block: u32) -> bool
    ensures erased { result ≡ true
        → IsWiped (flash_in blocks.old.items) (flash_in blocks.new.items) block }
    ensures same { result ≡ false → blocks.new.items ≡ blocks.old.items }
{
    if block as usize >= blocks.len() {
        return false;
    }
    let pages = &mut blocks[block as usize];
    for page in pages.iter_mut() {
        *page = Page::Erased;
    }
    true
}

/// Takes some pages from a block: bit 2i of the mask says that page i is lost, and bit 2i + 1 that it is erased then.
pub fn lose(blocks: &mut Vec<Vec<Page>>, block: u32, mask: u64)
    ensures { LosesPages (flash_in blocks.old.items) (flash_in blocks.new.items) block }
{
    if block as usize >= blocks.len() {
        return;
    }
    let pages = &mut blocks[block as usize];
    let mut bits = mask;
    for page in pages.iter_mut() {
        if bits & 1 == 1 {
            *page = if bits & 2 == 2 {
                Page::Erased
            } else {
                Page::Torn
            };
        }
        bits = bits.rotate_right(2);
    }
}

/// What a read of a page's stamp says.
pub fn peek(blocks: &[Vec<Page>], at: PageAddr) -> Reading
    ensures { result ≡ reading_of (flash_in blocks.now at.block at.page) }
{
    let (block, index) = (at.block as usize, at.page as usize);
    if block >= blocks.len() || index >= blocks[block].len() {
        return Reading::Erased;
    }
    match &blocks[block][index] {
        Page::Erased => Reading::Erased,
        Page::Torn => Reading::Unreadable,
        Page::Version(stamp, _) => Reading::Version(*stamp),
    }
}

/// Copies a page's main bytes into `out`, if it has as many.
pub fn copy_main(blocks: &[Vec<Page>], at: PageAddr, out: &mut [u8]) -> bool
    ensures { result ≡ true → ReadsMain (flash_in blocks.now at.block at.page) out.new }
{
    let (block, index) = (at.block as usize, at.page as usize);
    if block >= blocks.len() || index >= blocks[block].len() {
        return true;
    }
    match &blocks[block][index] {
        Page::Erased | Page::Torn => true,
        Page::Version(stamp, main) => {
            if stamp.trimmed {
                return true;
            }
            if main.len() != out.len() {
                return false;
            }
            out.copy_from_slice(main);
            true
        }
    }
}

/// A page with a version, if there is memory for it.
pub fn version(alloc: Global, stamp: Stamp, main: &[u8]) -> Option<Page>
    ensures { IfSome result
        (λ page. contents_of page
        ≡ Version stamp.extent stamp.number (value_with stamp.trimmed main.now)) }
{
    match main.to_vec(alloc) {
        Ok(main) => Some(Page::Version(stamp, main)),
        Err(_) => None,
    }
}

/// What a page holds, if there is such a page, and memory for it.
pub fn copied(alloc: Global, blocks: &[Vec<Page>], at: PageAddr) -> Option<Page>
    ensures { IfSome result (λ page. contents_of page ≡ flash_in blocks.now at.block at.page) }
{
    let (block, index) = (at.block as usize, at.page as usize);
    if block >= blocks.len() || index >= blocks[block].len() {
        return None;
    }
    match &blocks[block][index] {
        Page::Erased => Some(Page::Erased),
        Page::Torn => Some(Page::Torn),
        Page::Version(stamp, main) => version(alloc, *stamp, main),
    }
}
