ghost use Rattle.std.specs.Prelude.{◌≡◌, ◌+◌, ◌<◌, ℕ, Bool, List, [], ◌∷◌, ◌++◌, is_some};
ghost use Rattle.geometry.specs.{History.Call, History.Begins, History.held, History.was, Sectors.Answers, declared.answer.Got.Got, declared.answer.Was.Was};
ghost use Rattle.geometry.specs.declared.words.MapWord.{MapWord};
ghost use Rattle.geometry.specs.History as call;
ghost use Rattle.flash_rule.specs.{declared.carried.Carried.Carried, declared.view.View.View, Plays.Spared, Views.calls_of};
ghost use Rattle.flash_table.specs.{declared.flash.Flash.Flash, Flash.view_of};
ghost use Rattle.host.specs.{Holding.page_of, Holding.pass_of, declared.holding.Held.Held};
ghost use Rattle.uses.specs.Sharing.{HasNoErase};
ghost use Rattle.volume.specs.Correct.{Answer, Asked, Correct, Found, IsWritten, Known, Look, Read, Replaced, Trim, Write, WriteNew, calls_for};
ghost use Rattle.volume.specs.{LeavesArray.LeavesArray, Undisturbed.AreEarlier, Undisturbed.Undisturbed};
ghost use Rattle.laws.specs.Steps.{ProgramsApart, StaysAt, erase_in};

/// What a step of an array of sectors is, and what is none.
pub fn steps_of_an_array()
    // A read and a look are answered by the array at the end of what their pass has seen.
    ensures read { (n t s : ℕ) (g : Got) (old new : List ℕ) (v w : Known)
        → Correct n t (Read s) (Found g old new) v w → Answers (held n w.seen s) g old new }
    ensures look { (n t s : ℕ) (answer : Answer) (v w : Known)
        → Correct n t (Look s) answer v w → answer ≡ IsWritten (is_some (held n w.seen s)) }

    // A write and a trim are answered by the array before their call, which is the last that their pass has seen.
    ensures write { (n t s : ℕ) (x : List ℕ) (answer : Answer) (v w : Known)
        → (h : Correct n t (Write s x) answer v w)
        → (answer ≡ Replaced (was n h.place s)) × (w.seen ≡ h.place ++ call.Write t s x ∷ []) }
    ensures write_new { (n t s : ℕ) (x : List ℕ) (answer : Answer) (v w : Known)
        → (h : Correct n t (WriteNew s x) answer v w)
        → (answer ≡ Replaced (was n h.place s)) × (w.seen ≡ h.place ++ call.WriteNew t s x ∷ []) }
    ensures trim { (n t s : ℕ) (answer : Answer) (v w : Known)
        → (h : Correct n t (Trim s) answer v w)
        → (answer ≡ Replaced (was n h.place s)) × (w.seen ≡ h.place ++ call.Trim t s ∷ []) }

    // The place of each is not before anything that its pass had seen, and of all that the pass sees exactly the calls that it made are its own.
    ensures later { (n t : ℕ) (asked : Asked) (answer : Answer) (v w : Known)
        → (h : Correct n t asked answer v w) → Begins v.seen h.place
        × Begins h.place w.seen }
    ensures own { (n t : ℕ) (asked : Asked) (answer : Answer) (v w : Known)
        → Correct n t asked answer v w → (w.mine ≡ v.mine ++ calls_for t asked)
        × (calls_of t w.seen ≡ w.mine) }

    // No read is answered as a write or a look is.
    ensures kinds { (n t s : ℕ) (a : Was) (b : Bool) (v w : Known)
        → (¬ Correct n t (Read s) (Replaced a) v w) × (¬ Correct n t (Read s) (IsWritten b) v w) }
{}

/// What a broom's call leaves of the array.
pub fn calls_of_brooms()
    ensures nothing { (v : View) → v.seen ≡ [] → LeavesArray v v }
    ensures mine { (v w : View) (c : Call) → w.mine ≡ v.mine ++ c ∷ [] → ¬ LeavesArray v w }
    ensures later { (v w : View) (c : Call) → v.seen ≡ c ∷ [] → w.seen ≡ [] → ¬ LeavesArray v w }
    ensures hosts { (v w : View) (s : ℕ) → w.numbers.hosts ≡ 1
        → w.seen ≡ call.Trim 1 s ∷ [] → ¬ LeavesArray v w }
    ensures others { (v w : View) (t s : ℕ) → LeavesArray v w
        → w.seen ≡ v.seen ++ call.Trim t (s + 1) ∷ [] → s < v.numbers.sectors → StaysAt s v w }
{}

/// Which erases and programs of another player a hold excludes.
pub fn holds_and_erases()
    // An erase of the page's block in an earlier generation is allowed, and none in the same one.
    ensures earlier { (m : MapWord) (g : ℕ) → g < m.generation → AreEarlier (erase_in m g ∷ []) m }
    ensures same { (m : MapWord) → ¬ AreEarlier (erase_in m m.generation ∷ []) m }
    ensures undisturbed { (f : Flash) (x : List ℕ) (a b : Held) (c : Carried)
        → Undisturbed f x a (Some c) b → HasNoErase c.erases (page_of a) }
    ensures spared { (v : View) (m : MapWord) (c : Carried) → Spared v m c → HasNoErase c.erases m }
    ensures programs { (f : Flash) (x : List ℕ) (a b : Held) (c : Carried)
        → Undisturbed f x a (Some c) b → ProgramsApart (view_of (pass_of b)) c }
    ensures spared_programs { (v : View) (m : MapWord) (c : Carried)
        → Spared v m c → ProgramsApart v c }
{}
