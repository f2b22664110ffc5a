ghost use Rattle.std.specs.Prelude.{◌≡◌, ◌==◌, length};
ghost use Rattle.std.specs.Int.{bit_at};

use crate::cells::{Page, copied, copy_main, erase, lose, peek, put, version};
use crate::flash::{Fault, Nand, PowerGone, Reading, Shape, Stamp, Tally};
use geometry::PageAddr;
use std::alloc::{AllocError, Global};

/// What a power cut leaves of a command.
#[derive(Clone, Copy, Debug, PartialEq, Eq)]
pub enum Cut {
    Nothing,
    /// A torn page. Of an erase a part: bit 2i of the mask says that page i is lost, and bit 2i + 1 that it is erased then.
    Part(u64),
    Whole,
}

/// What comes of a command.
#[derive(Clone, Copy, Debug, PartialEq, Eq)]
enum Fate {
    Done,
    Fails,
    Cut(Cut),
}

/// A modelled chip in memory, by the rules of ONFI 4.0. Its power goes, and its commands fail, where the caller says.
#[derive(Drop)]
pub struct Chip {
    alloc: Global,
    shape: Shape,
    blocks: Vec<Vec<Page>>,
    bad: Vec<bool>,
    // How often each block was erased, modulo 2^64.
    erases: Vec<u64>,
    powered: bool,
    // How many programs, copies and erases it was given, modulo 2^64.
    commands: u64,
    cut: Option<(u64, Cut)>,
    // From which command on some fail: bit i of the mask says that the i-th after it does.
    failing: Option<(u64, u64)>,
    // How many calls have ended so, modulo 2^64, and how many syncs and commands of each kind have succeeded.
    cuts: u64,
    failures: u64,
    syncs: u64,
    tally: Tally,
    // How many programs broke the order of a block's pages, or named a programmed page.
    violations: u64,
    pub ghost bad_sized: { length bad.items ≡ shape.blocks },
    pub ghost erases_sized: { length erases.items ≡ shape.blocks },
}

// Whether a mask has this bit.
fn has_bit(mask: u64, bit: u64) -> bool
    ensures { result ≡ (bit_at mask bit == 1) }
{
    if bit >= 64 {
        return false;
    }
    (mask >> bit) & 1 == 1
}

impl Chip {
    ghost use Rattle.std.specs.Prelude.{◌≢◌, ◌⊎◌, ◌-◌, ◌^◌, ℕ, true, false, None, Some, slice_index_or, IfOk, IfSome, OnOk, is_ok, Err};
    ghost use Rattle.durable.specs.Commands.{IsSameFlash};
    ghost use Rattle.durable.specs.Flash.{IsErased, PageContents, SetsPage, Erased, Torn};
    ghost use Rattle.nand.specs.Cells.{contents_of};
    ghost use Rattle.nand.specs.Chip.{after_command, chip_bad, chip_erases, chip_faults, chip_flash, chip_shape, chip_syncs, chip_tally};
    ghost use Rattle.nand.specs.Chip.{chip_violations, coming, fails_in, is_next_page, schedule_of, violations_after};
    ghost use Rattle.nand.specs.Chip.{Ends, HasSame, HasSameBesidePages, IsNoCommand, Sets};
    ghost use Rattle.nand.specs.Nand.{CountsFault, CountsCut};
    ghost use Rattle.nand.specs.declared.flash.Fault.{Fault as Cause};
    ghost use Rattle.nand.specs.declared.flash.Fault.TheVariants as fault;

    /// A chip whose pages are all erased, with power.
    pub fn new(alloc: Global, shape: Shape) -> Result<Chip, AllocError>
        ensures erased { IfOk result (λ chip. IsErased (chip_flash chip)) }
        ensures shape { IfOk result (λ chip. chip_shape chip ≡ shape) }
        ensures bad { IfOk result
            (λ chip. (b : ℕ) → slice_index_or (chip_bad chip) b false ≡ false) }
        ensures erases { IfOk result (λ chip. (b : ℕ) → slice_index_or (chip_erases chip) b 0 ≡ 0) }
        ensures tally { IfOk result
            (λ chip. chip_tally chip ≡ record { programs = 0; copies = 0; erases = 0 }) }
        ensures faults { IfOk result (λ chip. (cause : Cause) → chip_faults chip cause ≡ 0) }
        ensures syncs { IfOk result (λ chip. chip_syncs chip ≡ 0) }
        ensures violations { IfOk result (λ chip. chip_violations chip ≡ 0) }
        ensures schedule { IfOk result
            (λ chip. schedule_of chip
            ≡ record { powered = true; commands = 0; cut = None; failing = None }) }
    {
        let mut blocks = Vec::new(alloc);
        for _ in 0..shape.blocks {
            let mut pages = Vec::new(alloc);
            for _ in 0..shape.pages {
                pages.push(Page::Erased)?;
            }
            blocks.push(pages)?;
        }
        Ok(Chip {
            alloc,
            shape,
            blocks,
            bad: vec![in alloc; false; shape.blocks as usize]?,
            erases: vec![in alloc; 0; shape.blocks as usize]?,
            powered: true,
            commands: 0,
            cut: None,
            failing: None,
            cuts: 0,
            failures: 0,
            syncs: 0,
            tally: Tally {
                programs: 0,
                copies: 0,
                erases: 0,
            },
            violations: 0,
        })
    }

    /// Gives the chip power again.
    pub fn power_on(&mut self)
        ensures schedule { schedule_of self.new ≡ record (schedule_of self.old) { powered = true } }
        ensures same { HasSame self.old self.new }
    {
        self.powered = true;
    }

    /// Lets the power go in the command with this number, or before the calls after it.
    pub fn cut_at(&mut self, command: u64, cut: Cut)
        ensures schedule { schedule_of self.new
            ≡ record (schedule_of self.old) { cut = Some (command, cut) } }
        ensures same { HasSame self.old self.new }
    {
        self.cut = Some((command, cut));
    }

    /// Lets the command with this number fail, and no other.
    pub fn fail_at(&mut self, command: u64)
        ensures schedule { schedule_of self.new
            ≡ record (schedule_of self.old) { failing = Some (command, 1) } }
        ensures same { HasSame self.old self.new }
    {
        self.failing = Some((command, 1));
    }

    /// Lets several of the 64 commands from this number on fail, and no others: bit i of the mask says that the i-th after it does.
    pub fn fail_from(&mut self, command: u64, mask: u64)
        ensures schedule { schedule_of self.new
            ≡ record (schedule_of self.old) { failing = Some (command, mask) } }
        ensures same { HasSame self.old self.new }
    {
        self.failing = Some((command, mask));
    }

    /// Makes a page unreadable, as a charge that has leaked away does.
    pub fn lose_page(&mut self, at: PageAddr)
        ensures loses { chip_flash self.old at.block at.page ≢ Erased
            → SetsPage (chip_flash self.old) (chip_flash self.new) at.block at.page Torn }
        ensures only { IsSameFlash (chip_flash self.old) (chip_flash self.new)
            ⊎ SetsPage (chip_flash self.old) (chip_flash self.new) at.block at.page Torn }
        ensures same { HasSameBesidePages self.old self.new }
        ensures schedule { schedule_of self.new ≡ schedule_of self.old }
    {
        put(&mut self.blocks, at, Page::Torn);
    }

    /// How often the block was erased, modulo 2^64; none if there is no such block.
    pub fn erases(&self, block: u32) -> u64
        ensures { result ≡ slice_index_or (chip_erases self.now) block 0 }
    {
        self.erases.get(block as usize).copied().unwrap_or(0)
    }

    /// How many programs, copies and erases the chip was given, modulo 2^64.
    pub fn commands(&self) -> u64
        ensures { result ≡ (schedule_of self.now).commands }
    {
        self.commands
    }

    /// How many syncs have succeeded, modulo 2^64.
    pub fn syncs(&self) -> u64
        ensures { result ≡ chip_syncs self.now }
    {
        self.syncs
    }

    /// How many programs broke ONFI's rules, modulo 2^64. They fail.
    pub fn violations(&self) -> u64
        ensures { result ≡ chip_violations self.now }
    {
        self.violations
    }

    // Whether this command is one of those that fail.
    fn fails(&self, command: u64) -> bool
        ensures { result ≡ fails_in (schedule_of self.now).failing command }
    {
        match self.failing {
            Some((first, mask)) => command >= first && has_bit(mask, command - first),
            None => false,
        }
    }

    // What comes of the next command.
    fn fate(&mut self) -> Fate
        ensures fate { result ≡ coming (schedule_of self.old) }
        ensures schedule { schedule_of self.new ≡ after_command (schedule_of self.old) }
        ensures same { HasSame self.old self.new }
    {
        if !self.powered {
            return Fate::Cut(Cut::Nothing);
        }
        let command = self.commands;
        self.commands = command.wrapping_add(1);
        if let Some((number, cut)) = self.cut {
            if number == command {
                self.powered = false;
                self.cut = None;
                return Fate::Cut(cut);
            }
        }
        if self.fails(command) {
            return Fate::Fails;
        }
        Fate::Done
    }

    // Whether a program may name the page: ONFI 4.0, Page Program.
    fn is_next(&self, at: PageAddr) -> bool
        ensures { result ≡ is_next_page (chip_flash self.now) at }
    {
        let erased = matches!(peek(&self.blocks, at), Reading::Erased);
        if at.page == 0 {
            return erased;
        }
        let before = PageAddr {
            block: at.block,
            page: at.page - 1,
        };
        erased && !matches!(peek(&self.blocks, before), Reading::Erased)
    }

    // Fills a page by a command, which fails without memory for what the page is to hold.
    fn fill(&mut self, at: PageAddr, page: Option<Page>) -> Result<(), Fault>
        ensures sets { (contents : PageContents)
            → IfSome page (λ its. contents_of its ≡ contents)
            → Sets result (chip_flash self.old) (chip_flash self.new) at contents }
        ensures order { OnOk result (is_next_page (chip_flash self.old) at ≡ true) }
        ensures violations { chip_violations self.new
            ≡ violations_after (coming (schedule_of self.old))
            (is_next_page (chip_flash self.old) at) (chip_violations self.old) }
        ensures ends { Ends (coming (schedule_of self.old)) result }
        ensures schedule { schedule_of self.new ≡ after_command (schedule_of self.old) }
        ensures bad { chip_bad self.new ≡ chip_bad self.old }
        ensures shape { chip_shape self.new ≡ chip_shape self.old }
        ensures erases { chip_erases self.new ≡ chip_erases self.old }
        ensures cause { CountsFault (chip_faults self.old) (chip_faults self.new) result }
        ensures tally { chip_tally self.new ≡ chip_tally self.old }
        ensures syncs { chip_syncs self.new ≡ chip_syncs self.old }
    {
        let next = self.is_next(at);
        match self.fate() {
            Fate::Done => {
                if !next {
                    self.violations = self.violations.wrapping_add(1);
                    return self.failed();
                }
                let Some(page) = page else {
                    return self.failed();
                };
                if put(&mut self.blocks, at, page) {
                    return Ok(());
                }
                self.failed()
            }
            Fate::Fails => {
                put(&mut self.blocks, at, Page::Torn);
                self.failed()
            }
            Fate::Cut(Cut::Nothing) => self.cut_off(),
            Fate::Cut(Cut::Part(_)) => {
                put(&mut self.blocks, at, Page::Torn);
                self.cut_off()
            }
            Fate::Cut(Cut::Whole) => {
                let Some(page) = page else {
                    return self.cut_off();
                };
                put(&mut self.blocks, at, page);
                self.cut_off()
            }
        }
    }

    // Ends a command that fails.
    fn failed(&mut self) -> Result<(), Fault>
        ensures failed { result ≡ Err fault.Failed }
        ensures cause { CountsFault (chip_faults self.old) (chip_faults self.new) result }
        ensures no_command { IsNoCommand self.old self.new }
        ensures bad { chip_bad self.new ≡ chip_bad self.old }
        ensures syncs { chip_syncs self.new ≡ chip_syncs self.old }
    {
        self.failures = self.failures.wrapping_add(1);
        Err(Fault::Failed)
    }

    // Ends a command in which the power goes.
    fn cut_off(&mut self) -> Result<(), Fault>
        ensures gone { result ≡ Err fault.PowerGone }
        ensures cause { CountsFault (chip_faults self.old) (chip_faults self.new) result }
        ensures no_command { IsNoCommand self.old self.new }
        ensures bad { chip_bad self.new ≡ chip_bad self.old }
        ensures syncs { chip_syncs self.new ≡ chip_syncs self.old }
    {
        self.cuts = self.cuts.wrapping_add(1);
        Err(Fault::PowerGone)
    }

    // A read or a sync, which fails only without power.
    fn look(&mut self) -> Result<(), PowerGone>
        ensures powered { is_ok result ≡ (schedule_of self.old).powered }
        ensures cause { CountsCut (chip_faults self.old) (chip_faults self.new) result }
        ensures no_command { IsNoCommand self.old self.new }
        ensures bad { chip_bad self.new ≡ chip_bad self.old }
        ensures syncs { chip_syncs self.new ≡ chip_syncs self.old }
    {
        if self.powered {
            return Ok(());
        }
        self.cuts = self.cuts.wrapping_add(1);
        Err(PowerGone)
    }
}

impl Nand for Chip {
    ghost use Rattle.std.specs.Prelude.{◌⊎◌, ◌+◌, ◌<◌, ◌%◌, ◌^◌, None, true, false, is_ok, IfOk, OnErr, OnOk, slice_index_or, slice_set};
    ghost use Rattle.durable.specs.Updates.{sole};
    ghost use Rattle.durable.specs.declared.command.Command.TheVariants as command;
    ghost use Rattle.nand.specs.Chip.{after_command, chip_bad, chip_erases, chip_faults, chip_flash, chip_shape, chip_syncs};
    ghost use Rattle.nand.specs.Chip.{chip_tally, chip_violations, coming, is_next_page, schedule_of, violations_after, Ends, IsNoCommand};
    ghost use Rattle.nand.specs.Cells.{reading_of};
    ghost use Rattle.nand.specs.Nand.{CountsCommand, CountsCut, CountsFault, Performs, ReadsMain, value_with};
    ghost use Rattle.nand.specs.Numbers.{Marks};

    ghost flash = { chip_flash };

    ghost shape = { chip_shape };

    ghost bad = { chip_bad };

    ghost faults = { chip_faults };

    ghost syncs = { chip_syncs };

    ghost tally = { chip_tally };

    fn shape(&self) -> Shape {
        self.shape
    }

    fn tally(&self) -> Tally {
        self.tally
    }

    fn is_bad(&mut self, block: u32) -> Result<bool, PowerGone>
        ensures answer { IfOk result
            (λ is. is ≡ slice_index_or (chip_bad self.old) block false) }
        ensures powered { is_ok result ≡ (schedule_of self.old).powered }
        ensures no_command { IsNoCommand self.old self.new }
        ensures bad { chip_bad self.new ≡ chip_bad self.old }
        ensures syncs { chip_syncs self.new ≡ chip_syncs self.old }
        ensures cause { CountsCut (chip_faults self.old) (chip_faults self.new) result }
    {
        match self.look() {
            Ok(()) => Ok(self.bad.get(block as usize).copied().unwrap_or(false)),
            Err(PowerGone) => Err(PowerGone),
        }
    }

    fn mark_bad(&mut self, block: u32) -> Result<(), PowerGone>
        ensures marks { block < (chip_shape self.old).blocks
            → OnOk result (Marks (chip_bad self.old) (chip_bad self.new) block) }
        ensures only { (chip_bad self.new ≡ chip_bad self.old)
            ⊎ Marks (chip_bad self.old) (chip_bad self.new) block }
        ensures powered { is_ok result ≡ (schedule_of self.old).powered }
        ensures no_command { IsNoCommand self.old self.new }
        ensures syncs { chip_syncs self.new ≡ chip_syncs self.old }
        ensures cause { CountsCut (chip_faults self.old) (chip_faults self.new) result }
    {
        match self.look() {
            Ok(()) => {
                if (block as usize) < self.bad.len() {
                    self.bad[block as usize] = true;
                }
                Ok(())
            }
            Err(PowerGone) => Err(PowerGone),
        }
    }

    fn stamp(&mut self, at: PageAddr) -> Result<Reading, PowerGone>
        ensures stamp { IfOk result
            (λ reading. reading ≡ reading_of (chip_flash self.old at.block at.page)) }
        ensures powered { is_ok result ≡ (schedule_of self.old).powered }
        ensures no_command { IsNoCommand self.old self.new }
        ensures bad { chip_bad self.new ≡ chip_bad self.old }
        ensures syncs { chip_syncs self.new ≡ chip_syncs self.old }
        ensures cause { CountsCut (chip_faults self.old) (chip_faults self.new) result }
    {
        match self.look() {
            Ok(()) => Ok(peek(&self.blocks, at)),
            Err(PowerGone) => Err(PowerGone),
        }
    }

    fn read(&mut self, at: PageAddr, out: &mut [u8]) -> Result<Reading, PowerGone>
        ensures stamp { IfOk result
            (λ reading. reading ≡ reading_of (chip_flash self.old at.block at.page)) }
        ensures main { OnOk result
            (ReadsMain (chip_flash self.old at.block at.page) out.new) }
        ensures powered { OnOk result ((schedule_of self.old).powered ≡ true) }
        ensures no_command { IsNoCommand self.old self.new }
        ensures bad { chip_bad self.new ≡ chip_bad self.old }
        ensures syncs { chip_syncs self.new ≡ chip_syncs self.old }
        ensures cause { CountsCut (chip_faults self.old) (chip_faults self.new) result }
    {
        match self.look() {
            Ok(()) => {
                if copy_main(&self.blocks, at, out) {
                    return Ok(peek(&self.blocks, at));
                }
                self.cuts = self.cuts.wrapping_add(1);
                Err(PowerGone)
            }
            Err(PowerGone) => Err(PowerGone),
        }
    }

    fn program(&mut self, at: PageAddr, stamp: Stamp, main: &[u8]) -> Result<(), Fault>
        ensures does { Performs (command.Program at stamp.number) stamp.extent
            (value_with stamp.trimmed main.now) result
            (chip_flash self.old) (chip_flash self.new) }
        ensures shape { chip_shape self.new ≡ chip_shape self.old }
        ensures bad { chip_bad self.new ≡ chip_bad self.old }
        ensures syncs { chip_syncs self.new ≡ chip_syncs self.old }
        ensures cause { CountsFault (chip_faults self.old) (chip_faults self.new) result }
        ensures tally { CountsCommand (command.Program at stamp.number)
            (chip_tally self.old) (chip_tally self.new) result }
        ensures order { OnOk result (is_next_page (chip_flash self.old) at ≡ true) }
        ensures violations { chip_violations self.new
            ≡ violations_after (coming (schedule_of self.old))
            (is_next_page (chip_flash self.old) at) (chip_violations self.old) }
        ensures erases { chip_erases self.new ≡ chip_erases self.old }
        ensures ends { Ends (coming (schedule_of self.old)) result }
        ensures schedule { schedule_of self.new ≡ after_command (schedule_of self.old) }
    {
        let page = version(self.alloc, stamp, main);
        self.fill(at, page)?;
        self.tally.programs = self.tally.programs.wrapping_add(1);
        Ok(())
    }

    fn copyback(&mut self, from: PageAddr, to: PageAddr, source: Reading) -> Result<(), Fault>
        ensures does { Performs (command.Copy 0 from to) (sole 0) None result
            (chip_flash self.old) (chip_flash self.new) }
        ensures shape { chip_shape self.new ≡ chip_shape self.old }
        ensures bad { chip_bad self.new ≡ chip_bad self.old }
        ensures syncs { chip_syncs self.new ≡ chip_syncs self.old }
        ensures cause { CountsFault (chip_faults self.old) (chip_faults self.new) result }
        ensures tally { CountsCommand (command.Copy 0 from to)
            (chip_tally self.old) (chip_tally self.new) result }
        ensures order { OnOk result (is_next_page (chip_flash self.old) to ≡ true) }
        ensures violations { chip_violations self.new
            ≡ violations_after (coming (schedule_of self.old))
            (is_next_page (chip_flash self.old) to) (chip_violations self.old) }
        ensures erases { chip_erases self.new ≡ chip_erases self.old }
        ensures ends { Ends (coming (schedule_of self.old)) result }
        ensures schedule { schedule_of self.new ≡ after_command (schedule_of self.old) }
    {
        let page = copied(self.alloc, &self.blocks, from);
        self.fill(to, page)?;
        self.tally.copies = self.tally.copies.wrapping_add(1);
        Ok(())
    }

    fn erase(&mut self, block: u32) -> Result<(), Fault>
        ensures does { Performs (command.Erase block) (sole 0) None result
            (chip_flash self.old) (chip_flash self.new) }
        ensures shape { chip_shape self.new ≡ chip_shape self.old }
        ensures bad { chip_bad self.new ≡ chip_bad self.old }
        ensures syncs { chip_syncs self.new ≡ chip_syncs self.old }
        ensures cause { CountsFault (chip_faults self.old) (chip_faults self.new) result }
        ensures tally { CountsCommand (command.Erase block)
            (chip_tally self.old) (chip_tally self.new) result }
        ensures violations { chip_violations self.new ≡ chip_violations self.old }
        ensures ends { Ends (coming (schedule_of self.old)) result }
        ensures schedule { schedule_of self.new ≡ after_command (schedule_of self.old) }
        ensures counted { OnOk result (chip_erases self.new
            ≡ slice_set (chip_erases self.old) block
            ((slice_index_or (chip_erases self.old) block 0 + 1) % 2 ^ 64)) }
    {
        match self.fate() {
            Fate::Done => {
                if block as usize >= self.erases.len() {
                    return self.failed();
                }
                if erase(&mut self.blocks, block) {
                    let count = self.erases[block as usize];
                    self.erases[block as usize] = count.wrapping_add(1);
                    self.tally.erases = self.tally.erases.wrapping_add(1);
                    return Ok(());
                }
                self.failed()
            }
            Fate::Fails => {
                lose(&mut self.blocks, block, 0x7777_7777_7777_7777);
                self.failed()
            }
            Fate::Cut(Cut::Nothing) => self.cut_off(),
            Fate::Cut(Cut::Part(mask)) => {
                lose(&mut self.blocks, block, mask);
                self.cut_off()
            }
            Fate::Cut(Cut::Whole) => {
                lose(&mut self.blocks, block, u64::MAX);
                self.cut_off()
            }
        }
    }

    fn sync(&mut self) -> Result<(), PowerGone>
        ensures counts { OnOk result
            (chip_syncs self.new ≡ (chip_syncs self.old + 1) % 2 ^ 64) }
        ensures failed { OnErr result (chip_syncs self.new ≡ chip_syncs self.old) }
        ensures powered { is_ok result ≡ (schedule_of self.old).powered }
        ensures no_command { IsNoCommand self.old self.new }
        ensures bad { chip_bad self.new ≡ chip_bad self.old }
        ensures cause { CountsCut (chip_faults self.old) (chip_faults self.new) result }
    {
        self.look()?;
        self.syncs = self.syncs.wrapping_add(1);
        Ok(())
    }
}
