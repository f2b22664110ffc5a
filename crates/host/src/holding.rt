//! Holds: a page is pinned, and can be read again and again, until it is released.
ghost use Rattle.std.specs.Prelude.{◌≡◌, ℕ, ◌<◌, List, length};
ghost use Rattle.geometry.specs.declared.page_addr.PageAddr.{PageAddr};
ghost use Rattle.geometry.specs.Geometry.{sectors_of, words_of, page_bytes_of};
ghost use Rattle.flash_rule.specs.declared.facts.Pin.TheVariants as pin;
ghost use Rattle.flash_rule.specs.World.{data_word};
ghost use Rattle.flash_table.specs.Flash.{view_of, opened_of, geometry_of};
ghost use Rattle.host.specs.Ready.{IsReady};
ghost use Rattle.host.specs.Holding.{Holds, IsSpared, Found, pass_of, page_of, page_in, addr_of};

use crate::searching::{read_page, search};
use flash_table::{Flash, NoGate, Pass};
use geometry::{MapWord, PageAddr};

/// A page that a pass has pinned: its block isn't erased until the hold is released.
pub struct Held {
    pub(crate) pass: Pass,
    pub(crate) page: MapWord,
}

/// What a hold found.
pub enum Holding {
    Held(Held),
    /// The sector was empty.
    Empty(Pass),
}

impl Held {
    /// The block that is pinned.
    pub fn block(&self) -> u32
        ensures { result ≡ (page_of self.now).block }
    {
        self.page.block
    }

    /// The generation in which the block is pinned.
    pub fn generation(&self) -> u32
        ensures { result ≡ (page_of self.now).generation }
    {
        self.page.generation
    }

    /// The pass that has pinned it.
    pub fn pass(&self) -> &Pass
        ensures { result.now ≡ pass_of self.now }
    {
        &self.pass
    }

    /// The pass, and the page that it has pinned, with the generation of its block.
    pub fn parts(self) -> (Pass, PageAddr, u32)
        ensures pass { result.0 ≡ pass_of self }
        ensures page { result.1 ≡ addr_of (page_of self) }
        ensures generation { result.2 ≡ (page_of self).generation }
    {
        let Held { pass, page } = self;
        let addr = PageAddr {
            block: page.block,
            page: page.page,
        };
        (pass, addr, page.generation)
    }

    /// A hold made from its parts.
    pub fn from_parts(pass: Pass, page: PageAddr, generation: u32) -> Held
        requires { (value : List ℕ)
            × ((view_of pass).pin ≡ pin.Accepted (page_in page generation) value) }
        ensures pass { pass_of result ≡ pass }
        ensures page { page_of result ≡ page_in page generation }
    {
        let page = MapWord {
            generation,
            block: page.block,
            page: page.page,
        };
        Held { pass, page }
    }
}

/// Pins the page that has a sector's value.
pub fn hold(flash: &Flash, pass: Pass, sector: u32) -> Holding
    requires pass { IsReady flash.now pass }
    requires sector { sector < sectors_of (geometry_of flash.now) }
    ensures { Found flash.now (view_of pass) sector result }
{
    let mut pass = pass;
    match search(flash, &mut pass, sector, &mut NoGate).page {
        Some(page) => Holding::Held(Held { pass, page }),
        None => Holding::Empty(pass),
    }
}

/// Copies the value that is held into a buffer of one page.
pub fn copy_into(flash: &Flash, held: &mut Held, out: &mut [u8])
    requires held { (value : List ℕ) × Holds flash.now held.old value }
    requires page { length out.old ≡ page_bytes_of (geometry_of flash.now) }
    ensures value { (value : List ℕ) → Holds flash.now held.old value
        → (out.new ≡ value) × Holds flash.now held.new value }
    ensures same { view_of (pass_of held.new) ≡ view_of (pass_of held.old) }
    ensures spared { IsSpared held.old }
    ensures page { page_of held.new ≡ page_of held.old }
{
    read_page(flash, &mut held.pass, held.page, out);
}

/// Word `i` of the value that is held.
pub fn word(flash: &Flash, held: &mut Held, i: u32) -> u64
    requires held { (value : List ℕ) × Holds flash.now held.old value }
    requires word { i < words_of (geometry_of flash.now) }
    ensures value { (value : List ℕ) → Holds flash.now held.old value
        → (result ≡ data_word value i) × Holds flash.now held.new value }
    ensures same { view_of (pass_of held.new) ≡ view_of (pass_of held.old) }
    ensures spared { IsSpared held.old }
    ensures page { page_of held.new ≡ page_of held.old }
{
    let start = flash.page_start(held.page);
    flash.get_word(&mut held.pass, held.page, start, i)
}

/// Removes the pin, and returns the pass.
pub fn release(flash: &Flash, held: Held) -> Pass
    requires held { (value : List ℕ) × Holds flash.now held value }
    ensures clear { view_of result ≡ record (view_of (pass_of held)) { pin = pin.Clear } }
    ensures pass { IsReady flash.now result }
    ensures opened { opened_of result ≡ opened_of (pass_of held) }
{
    let Held { mut pass, page } = held;
    flash.unpin(&mut pass, page.block);
    pass
}
