ghost use Rattle.std.specs.Prelude.{◌≡◌};
ghost use Rattle.erase_queue.specs.Queue.{fulls_of, empties_of, one_more};

use crate::sight::Sight;
use crossbeam_queue::Pass;

/// A broom's right to put numbers and to take them. It counts the refusals.
#[derive(Drop)]
pub struct QueuePass {
    pub(crate) port: Pass<usize, Sight>,
    fulls: u64,
    empties: u64,
}

impl QueuePass {
    pub(crate) fn new(port: Pass<usize, Sight>) -> QueuePass
        ensures port { result.port ≡ port }
        ensures fulls { fulls_of result ≡ 0 }
        ensures empties { empties_of result ≡ 0 }
    {
        QueuePass {
            port,
            fulls: 0,
            empties: 0,
        }
    }

    /// How many puts were refused, modulo 2^64.
    pub fn fulls(&self) -> u64
        ensures { result ≡ fulls_of self.now }
    {
        self.fulls
    }

    /// How many takes found nothing, modulo 2^64.
    pub fn empties(&self) -> u64
        ensures { result ≡ empties_of self.now }
    {
        self.empties
    }

    pub(crate) fn count_full(&mut self)
        ensures { self.new ≡ record self.old { fulls = one_more (fulls_of self.old) } }
    {
        self.fulls = self.fulls.wrapping_add(1);
    }

    pub(crate) fn count_empty(&mut self)
        ensures { self.new ≡ record self.old { empties = one_more (empties_of self.old) } }
    {
        self.empties = self.empties.wrapping_add(1);
    }
}
