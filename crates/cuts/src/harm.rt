use crate::arguments::Given;
use nand::{Chip, Cut};
use rand_core::Rng;
use rand_pcg::Pcg32;

/// What befalls a chip: power cuts, and commands that fail. Commands are numbered from 0 over the whole run.
#[derive(Drop)]
pub struct Harm {
    random: Pcg32,
    cut_every: u64,
    // How many more commands may fail, and the most commands from one that fails to the next.
    left: u32,
    gap: u64,
    // The command that fails next.
    failing: Option<u64>,
}

impl Harm {
    /// What befalls a run of so many calls.
    pub fn new(given: &Given, calls: usize) -> Harm {
        Harm {
            random: Pcg32::new(u64::from(given.seed), 0),
            cut_every: u64::from(given.cut_every),
            left: given.failures,
            gap: calls
                .saturating_mul(2)
                .checked_div(given.failures as usize)
                .unwrap_or(0) as u64,
            failing: None,
        }
    }

    fn cut(&mut self) -> Cut {
        match self.random.next_u32() % 3 {
            0 => Cut::Nothing,
            1 => Cut::Part(self.random.next_u64()),
            _ => Cut::Whole,
        }
    }

    /// How often the power of a chip was cut.
    pub fn cuts(&self, chip: &Chip) -> u64 {
        chip.commands().checked_div(self.cut_every).unwrap_or(0)
    }

    /// Tells a chip in which command its power goes next, and which one fails next if it has a spare block.
    pub fn put_on(&mut self, chip: &mut Chip, has_spare: bool) {
        let given = chip.commands();
        let is_waiting = self.failing.is_some_and(|command| command >= given);
        if self.cut_every > 0 {
            let last = given.wrapping_sub(given % self.cut_every);
            chip.cut_at(last.wrapping_add(self.cut_every - 1), self.cut());
        }
        if has_spare && self.left > 0 && !is_waiting {
            let gap = u64::from(self.random.next_u32()) % self.gap.saturating_add(1);
            let command = given.wrapping_add(gap);
            self.left -= 1;
            self.failing = Some(command);
            chip.fail_at(command);
        }
    }
}
