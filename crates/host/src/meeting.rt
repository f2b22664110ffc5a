//! Ties what two passes have seen, and retires a pass.
ghost use Rattle.std.specs.Prelude.{◌≡◌, ℕ, List};
ghost use Rattle.flash_table.specs.Flash.{view_of, opened_of, retired_view};
ghost use Rattle.flash_table.specs.GivingUp.{closed_pass};
ghost use Rattle.host.specs.Holding.{Holds, page_of, pass_of};
ghost use Rattle.host.specs.Ready.{IsReady};
ghost use Rattle.host.specs.Told.{MetHolding, MetTold};

use crate::holding::Held;
use flash_table::{Flash, Pass, Retired};

/// Each of two passes learns what the other has seen: the first makes one look, and then the second makes one. It changes no answer.
pub fn meet(flash: &Flash, first: &mut Pass, second: &mut Pass)
    requires first { IsReady flash.now first.old }
    requires second { IsReady flash.now second.old }
    ensures met { MetTold (view_of first.old) (view_of second.old)
        (view_of first.new) (view_of second.new) }
    ensures first { IsReady flash.now first.new }
    ensures second { IsReady flash.now second.new }
    ensures first_opened { opened_of first.new ≡ opened_of first.old }
    ensures second_opened { opened_of second.new ≡ opened_of second.old }
{
    let note = flash.lend(second);
    flash.take_in(first, note);
    flash.look(first, 0);
    let note = flash.give_back(first);
    flash.come_home(second, note);
    flash.look(second, 0);
}

/// Ties what a pass that holds a page, and another pass, have done and seen: by one word of the page, and then one look of the other pass.
/// It changes no answer. The holder makes no look, so the history that it has seen doesn't grow.
pub fn meet_holding(flash: &Flash, held: Held, other: &mut Pass) -> Held
    requires held { (value : List ℕ) × Holds flash.now held value }
    requires other { IsReady flash.now other.old }
    ensures met_holding { MetHolding (view_of (pass_of held)) (view_of other.old)
        (page_of held) (view_of (pass_of result)) (view_of other.new) }
    ensures page { page_of result ≡ page_of held }
    ensures holds { (value : List ℕ) → Holds flash.now held value → Holds flash.now result value }
    ensures opened { opened_of (pass_of result) ≡ opened_of (pass_of held) }
    ensures other { IsReady flash.now other.new }
    ensures other_opened { opened_of other.new ≡ opened_of other.old }
{
    let Held { mut pass, page } = held;
    let note = flash.lend(other);
    flash.take_in(&mut pass, note);
    let start = flash.page_start(page);
    flash.get_word(&mut pass, page, start, 0);
    let note = flash.give_back(&mut pass);
    flash.come_home(other, note);
    flash.look(other, 0);
    Held { pass, page }
}

/// Gives a pass up. Its open block, full or not, is closed.
pub fn retire(flash: &Flash, pass: Pass) -> Retired
    requires { IsReady flash.now pass }
    ensures { retired_view result ≡ closed_pass (view_of pass) (opened_of pass) }
{
    let mut pass = pass;
    if pass.opened().is_some() {
        flash.close(&mut pass);
    }
    pass.leave()
}
