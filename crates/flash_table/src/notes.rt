//! What two passes, two brooms, or a pass and a broom have seen is tied by notes: one lends a note, the other takes it in, and gives one back.
ghost use Rattle.std.specs.Prelude.{◌≡◌, true, Some, None};
ghost use Rattle.flash_rule.specs.declared.facts.Name.{Name};
ghost use Rattle.flash_rule.specs.declared.carried.Carried.{Carried};
ghost use Rattle.flash_rule.specs.declared.facts.Role.TheVariants as role;
ghost use Rattle.flash_rule.specs.Seats.{lender, lent_note, host_of, giver, given_note, home};
ghost use Rattle.flash_table.specs.Flash.{IsPassOf, IsBroomOf, IsNoteOf, view_of, broom_view, note_view, opened_of, own_blocks};
ghost use Rattle.flash_table.specs.Steps.{IsBack};

use crate::broom_seat::BroomSeat;
use crate::flash::Flash;
use crate::pass::{Note, Pass};
use flash_rule::{ComeHome, GiveBack, Lend, TakeIn};

impl Flash {
    /// A note with the pass's badge, and with what the pass has seen and programmed.
    pub fn lend(&self, pass: &mut Pass) -> Note
        requires pass { IsPassOf self.now pass.old }
        requires whole { (view_of pass.old).whole ≡ true }
        requires alone { (view_of pass.old).guest ≡ None }
        ensures lender { view_of pass.new ≡ lender (view_of pass.old) }
        ensures note { (note_view result ≡ lent_note (view_of pass.old))
            × IsNoteOf self.now result }
        ensures pass { IsPassOf self.now pass.new }
        ensures opened { opened_of pass.new ≡ opened_of pass.old }
    {
        let seat = self.table.shared.split_seat::<Lend>(&mut pass.seat);
        Note { seat }
    }

    /// A note with the broom's badge, and with what the broom has seen, programmed and erased.
    pub fn broom_lend(&self, broom: &mut BroomSeat) -> Note
        requires broom { IsBroomOf self.now broom.old }
        requires whole { (broom_view broom.old).whole ≡ true }
        requires alone { (broom_view broom.old).guest ≡ None }
        ensures lender { broom_view broom.new ≡ lender (broom_view broom.old) }
        ensures note { (note_view result ≡ lent_note (broom_view broom.old))
            × IsNoteOf self.now result }
        ensures broom { IsBroomOf self.now broom.new }
        ensures blocks { own_blocks broom.new ≡ own_blocks broom.old }
    {
        let seat = self.table.shared.split_seat::<Lend>(&mut broom.seat);
        Note { seat }
    }

    /// Takes in a note that another pass or a broom has lent.
    pub fn take_in(&self, pass: &mut Pass, note: Note)
        requires pass { IsPassOf self.now pass.old }
        requires note { IsNoteOf self.now note }
        requires whole { (view_of pass.old).whole ≡ true }
        requires lent { (c : Carried) × ((note_view note).copy ≡ Some c)
            × ((note_view note).guest ≡ Some c.of) }
        ensures host { view_of pass.new ≡ host_of (view_of pass.old) (note_view note) }
        ensures pass { IsPassOf self.now pass.new }
        ensures opened { opened_of pass.new ≡ opened_of pass.old }
    {
        let Note { seat } = note;
        self.table.shared.join_seat::<TakeIn>(&mut pass.seat, seat);
    }

    /// Takes in a note that a pass or another broom has lent.
    pub fn broom_take_in(&self, broom: &mut BroomSeat, note: Note)
        requires broom { IsBroomOf self.now broom.old }
        requires note { IsNoteOf self.now note }
        requires whole { (broom_view broom.old).whole ≡ true }
        requires lent { (c : Carried) × ((note_view note).copy ≡ Some c)
            × ((note_view note).guest ≡ Some c.of) }
        ensures host { broom_view broom.new ≡ host_of (broom_view broom.old) (note_view note) }
        ensures broom { IsBroomOf self.now broom.new }
        ensures blocks { own_blocks broom.new ≡ own_blocks broom.old }
    {
        let Note { seat } = note;
        self.table.shared.join_seat::<TakeIn>(&mut broom.seat, seat);
    }

    /// A note with the badge of the one that has lent it, and with what this one has seen and programmed.
    pub fn give_back(&self, pass: &mut Pass) -> Note
        requires pass { IsPassOf self.now pass.old }
        requires guest { (n : Name) × ((view_of pass.old).guest ≡ Some n)
            × (¬ ((view_of pass.old).role ≡ role.Player n)) }
        ensures giver { view_of pass.new ≡ giver (view_of pass.old) }
        ensures note { (note_view result ≡ given_note (view_of pass.old))
            × IsNoteOf self.now result }
        ensures pass { IsPassOf self.now pass.new }
        ensures opened { opened_of pass.new ≡ opened_of pass.old }
    {
        let seat = self.table.shared.split_seat::<GiveBack>(&mut pass.seat);
        Note { seat }
    }

    /// A note with the badge of the one that has lent it, and with what this broom has seen, programmed and erased.
    pub fn broom_give_back(&self, broom: &mut BroomSeat) -> Note
        requires broom { IsBroomOf self.now broom.old }
        requires guest { (n : Name) × ((broom_view broom.old).guest ≡ Some n)
            × (¬ ((broom_view broom.old).role ≡ role.Player n)) }
        ensures giver { broom_view broom.new ≡ giver (broom_view broom.old) }
        ensures note { (note_view result ≡ given_note (broom_view broom.old))
            × IsNoteOf self.now result }
        ensures broom { IsBroomOf self.now broom.new }
        ensures blocks { own_blocks broom.new ≡ own_blocks broom.old }
    {
        let seat = self.table.shared.split_seat::<GiveBack>(&mut broom.seat);
        Note { seat }
    }

    /// Returns the badge to the pass that has lent it, with what the other one has seen and programmed.
    pub fn come_home(&self, pass: &mut Pass, note: Note)
        requires pass { IsPassOf self.now pass.old }
        requires note { IsNoteOf self.now note }
        requires given { IsBack (view_of pass.old) (note_view note) }
        ensures home { view_of pass.new ≡ home (view_of pass.old) (note_view note) }
        ensures pass { IsPassOf self.now pass.new }
        ensures opened { opened_of pass.new ≡ opened_of pass.old }
    {
        let Note { seat } = note;
        self.table
            .shared
            .join_seat::<ComeHome>(&mut pass.seat, seat);
    }

    /// Returns the badge to the broom that has lent it, with what the other one has seen, programmed and erased.
    pub fn broom_come_home(&self, broom: &mut BroomSeat, note: Note)
        requires broom { IsBroomOf self.now broom.old }
        requires note { IsNoteOf self.now note }
        requires given { IsBack (broom_view broom.old) (note_view note) }
        ensures home { broom_view broom.new ≡ home (broom_view broom.old) (note_view note) }
        ensures broom { IsBroomOf self.now broom.new }
        ensures blocks { own_blocks broom.new ≡ own_blocks broom.old }
    {
        let Note { seat } = note;
        self.table
            .shared
            .join_seat::<ComeHome>(&mut broom.seat, seat);
    }
}
