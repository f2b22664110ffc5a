//! What a host that has its own thread knows, and the checks of its answers.
ghost use Rattle.std.specs.Prelude.{◌<◌};

use crate::actors::calls::{Call, Done};
use crate::models::oracle::Next;
use crate::schedules::draws::Draws;
use crate::threads::thread_values::{Known, SECTORS, Value, page_number, value_of};
use geometry::Was;

/// A host's number, what it knows of each sector, and how often it tried to write and how often it was not refused. Sector 0 is written by host 0
/// alone, 1 by host 1, 2 by host 2, and the others by all.
#[derive(Drop)]
pub(crate) struct Notes {
    pub host: u32,
    pub known: [Known; 6],
    pub draws: Draws,
    pub tried: u64,
    pub done: u64,
    pub holds: u64,
    // The number of the page that is held.
    held: Option<u64>,
    /// Whether each answer so far was possible.
    pub right: bool,
    ghost below: { host < 3 },
}

impl Notes {
    pub(crate) fn new(host: u32) -> Notes
        requires { host < 3 }
    {
        Notes {
            host,
            known: [Known::new(); 6],
            draws: Draws::new(u64::from(host)),
            tried: 0,
            done: 0,
            holds: 0,
            held: None,
            right: true,
        }
    }

    /// A condition that an answer has to meet.
    pub(crate) fn expect(&mut self, holds: bool) {
        self.right = self.right && holds;
    }

    // A sector that the host writes: its own, or one that all write.
    fn draw_target(&mut self) -> u32
        ensures { result < 6 }
    {
        let sector = self.draws.below(SECTORS);
        if sector < 3 { self.host } else { sector }
    }

    // A sector that the host writes, and the number of the page that it writes there next.
    fn draw_write(&mut self) -> (u32, u64) {
        let sector = self.draw_target();
        self.tried = self.tried.wrapping_add(1);
        let [a, b, c] = self.known[sector as usize].newest;
        let number = match self.host {
            0 => a,
            1 => b,
            _ => c,
        };
        let value = Value {
            writer: self.host,
            number: number.wrapping_add(1),
        };
        (sector, page_number(sector, value))
    }

    /// The host's next call.
    pub(crate) fn draw(&mut self) -> Call {
        if self.held.is_some() {
            return Call::Look;
        }
        match self.draws.below(20) {
            0..7 => {
                let (sector, number) = self.draw_write();
                Call::Write(sector, number)
            }
            7..9 => {
                let (sector, number) = self.draw_write();
                Call::New(sector, number)
            }
            9 => Call::Trim(self.draw_target()),
            10..19 => Call::Read(self.draws.below(SECTORS)),
            _ => Call::Hold(self.draws.below(SECTORS)),
        }
    }

    // The sector was found with this value, or empty. A sector that nobody else writes has exactly what was written last.
    fn find(&mut self, sector: u32, found: Option<Value>)
        requires { sector < 6 }
    {
        let known = &mut self.known[sector as usize];
        let is_last = known.last == found;
        let can_be = known.find(found);
        self.expect(can_be && (is_last || sector != self.host));
        if let Some(value) = found {
            self.expect(sector >= 3 || value.writer == sector);
        }
    }

    /// The same for the number of its page.
    pub(crate) fn find_page(&mut self, sector: u32, number: Option<u64>)
        requires { sector < 6 }
    {
        let found = match number {
            Some(number) => value_of(sector, number),
            None => None,
        };
        self.expect(found.is_some() == number.is_some());
        self.find(sector, found);
    }

    // A call found whether the sector is written.
    fn find_was(&mut self, sector: u32, was: Was)
        requires { sector < 6 }
    {
        let is_written = self.known[sector as usize].last.is_some();
        let same = is_written == (was == Was::Written);
        self.expect(same || sector != self.host);
    }

    // The host has changed the sector, which held this before.
    fn change(&mut self, sector: u32, was: Was, value: Option<Value>)
        requires { sector < 6 }
    {
        self.find_was(sector, was);
        let is_new = self.known[sector as usize].find(value);
        self.expect(is_new);
    }

    // A write has returned.
    fn check_write(&mut self, call: Call, was: Was) {
        self.done = self.done.wrapping_add(1);
        match call {
            Call::New(sector, _) if sector < 6 && was == Was::Written => {
                self.find_was(sector, was)
            }
            Call::New(sector, number) | Call::Write(sector, number) if sector < 6 => {
                self.change(sector, was, value_of(sector, number));
            }
            _ => self.expect(false),
        }
    }

    /// A call has returned. Returns what remains to be done.
    pub(crate) fn check(&mut self, call: Call, done: Done) -> Next {
        match (call, done) {
            (_, Done::Wrote(Some(was))) => self.check_write(call, was),
            (_, Done::Wrote(None)) => (),
            (Call::Trim(sector), Done::Trimmed(was)) if sector < 6 => {
                self.change(sector, was, None);
            }
            (Call::Read(sector), Done::Read(found, _)) if sector < 6 => {
                self.find_page(sector, found);
            }
            (Call::Hold(sector), Done::Holds(None)) if sector < 6 => self.find(sector, None),
            (Call::Hold(_), Done::Holds(Some(_))) => return Next::Look,
            (Call::Look, Done::Looked(number)) => {
                let held = self.held;
                self.expect(held == Some(number));
                if self.draws.below(10) == 0 {
                    return Next::Release;
                }
            }
            _ => self.expect(false),
        }
        Next::Nothing
    }

    /// The host has looked at the page that it holds now.
    pub(crate) fn hold(&mut self, call: Call, done: Done) {
        self.holds = self.holds.wrapping_add(1);
        match (call, done) {
            (Call::Hold(sector), Done::Looked(number)) if sector < 6 => {
                self.held = Some(number);
                self.find_page(sector, Some(number));
            }
            _ => self.expect(false),
        }
    }

    /// The host has released the page.
    pub(crate) fn release(&mut self, done: Done) {
        self.expect(done == Done::Released);
        self.held = None;
    }

    /// Whether this host has found no write of the other host beyond those that the other host made.
    pub(crate) fn agrees_with(&self, other: &Notes) -> bool {
        let writer = other.host as usize;
        for sector in 0..6 {
            if self.known[sector].newest[writer] > other.known[sector].newest[writer] {
                return false;
            }
        }
        true
    }

    /// Whether the host was right, did at least half of its writes, and held pages.
    pub(crate) fn is_right(&self) -> bool {
        self.right && self.tried / 2 <= self.done && self.done > 0 && self.holds > 0
    }
}
