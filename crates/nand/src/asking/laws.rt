//! Laws of the definitions of an opening: each function has no code, and its clauses say on small values where a definition holds and where not.
ghost use Rattle.std.specs.Prelude.{◌≡◌, ◌≢◌, ◌<◌, ◌≤◌, ◌+◌, ℕ, Bool, List, [], ◌∷◌, length, None, Some, IfSome, true, false};
ghost use Rattle.durable.specs.Device.{HasOwnVersions, IsWrittenOn, device_in, device_of, losses_of, next_number_in, next_number_of};
ghost use Rattle.durable.specs.Calls.{HasNoted};
ghost use Rattle.durable.specs.Collecting.{HasCapacity};
ghost use Rattle.durable.specs.Flash.{Flash, Version};
ghost use Rattle.durable.specs.Losses.{HasNoLoss};
ghost use Rattle.durable.specs.Mounting.{next_in};
ghost use Rattle.durable.specs.Promise.{IsConsistent, IsReadable};
ghost use Rattle.durable.specs.Updates.{Update, sole};
ghost use Rattle.durable.specs.declared.mount.Mount.{Mount as Reads};
ghost use Rattle.nand.specs.Numbers.{chip_block, good_before, numbered};
ghost use Rattle.nand.specs.Opened.{NumbersBelow, device_on};
ghost use Rattle.nand.specs.Opening.{AsksMark, AsksStamp, HasHeard, IsOnChip, IsOpenedFrom, IsSameOpening};
ghost use Rattle.nand.specs.Opening.{TakesAnswer, TellsMark, TellsStamp, next_question, questions_left, opening_sectors, shape_of};
ghost use Rattle.nand.specs.declared.flash.Reading.TheVariants as outcome;
ghost use Rattle.nand.specs.declared.flash.Shape.{Shape as Sizes};
ghost use Rattle.nand.specs.declared.opening.Opened.{Opened as Given};
ghost use Rattle.nand.specs.declared.opening.Opening.{Opening as Asked};
ghost use Rattle.nand.specs.declared.opening.Question.TheVariants as question;

/// What an opening asks.
pub fn questions()
    ensures chip { (opening : Asked) → opening.shape.blocks ≡ 3 → (shape_of opening).blocks ≡ 3 }
    ensures size { (opening : Asked) → opening.sectors ≡ 8 → opening_sectors opening ≡ 8 }
    ensures first { (opening : Asked) → opening.numbers.items ≡ [] → opening.mount ≡ None
        → next_question opening ≡ Some (question.IsBad 0) }
    ensures block { (opening : Asked) → opening.numbers.items ≡ 1 ∷ 0 ∷ [] → opening.mount ≡ None
        → next_question opening ≡ Some (question.IsBad 2) }
    ensures page { (opening : Asked) (mount : Reads) → opening.numbers.items ≡ 2 ∷ 0 ∷ 1 ∷ []
        → opening.mount ≡ Some mount → next_in mount ≡ Some (record { block = 0; page = 4 })
        → next_question opening ≡ Some (question.Stamp (record { block = 2; page = 4 })) }
    ensures end { (opening : Asked) (mount : Reads) → opening.mount ≡ Some mount
        → next_in mount ≡ None → next_question opening ≡ None }
    ensures on_chip { (f : Flash) (bad : List Bool) (opening : Asked) → HasHeard f bad opening
        → IfSome (next_question opening) (IsOnChip (shape_of opening)) }
    ensures past { (shape : Sizes) → shape.blocks ≡ 2 → ¬ IsOnChip shape (question.IsBad 2) }
    ensures past_page { (shape : Sizes) → shape.pages ≡ 4
        → ¬ IsOnChip shape (question.Stamp (record { block = 0; page = 4 })) }
    ensures past_block { (shape : Sizes) → shape.blocks ≡ 2
        → ¬ IsOnChip shape (question.Stamp (record { block = 2; page = 0 })) }
    ensures left { (opening : Asked) → opening.shape.blocks ≡ 3 → opening.shape.pages ≡ 4
        → opening.numbers.items ≡ 0 ∷ [] → opening.mount ≡ None → questions_left opening ≡ 14 }
    ensures pages_left { (opening : Asked) (mount : Reads) → opening.mount ≡ Some mount
        → mount.read_blocks ≡ 3 → mount.pages ≡ 4
        → next_in mount ≡ Some (record { block = 1; page = 2 }) → questions_left opening ≡ 6 }
    ensures none_left { (opening : Asked) (mount : Reads) → opening.mount ≡ Some mount
        → next_in mount ≡ None → questions_left opening ≡ 0 }
{}

/// Which answers are true.
pub fn answers()
    ensures asks_mark { AsksMark (Some (question.IsBad 2)) }
    ensures asks_none { ¬ AsksMark None }
    ensures asks_page { ¬ AsksMark (Some (question.Stamp (record { block = 1; page = 2 }))) }
    ensures asks_stamp { AsksStamp (Some (question.Stamp (record { block = 1; page = 2 }))) }
    ensures asks_no_stamp { ¬ AsksStamp None }
    ensures asks_block { ¬ AsksStamp (Some (question.IsBad 2)) }
    ensures marked { TellsMark (false ∷ true ∷ []) (Some (question.IsBad 1)) true }
    ensures unmarked { ¬ TellsMark (false ∷ true ∷ []) (Some (question.IsBad 1)) false }
    ensures unasked { ¬ TellsMark [] None false }
    ensures other_asked { ¬ TellsMark [] (Some (question.Stamp (record { block = 1; page = 2 }))) false }
    ensures stamp { (f : Flash) → f 1 2 ≡ Version (sole 7) 3 None
        → TellsStamp f (Some (question.Stamp (record { block = 1; page = 2 })))
        (outcome.Version (record { extent = sole 7; number = 3; trimmed = true })) }
    ensures other_stamp { (f : Flash) → f 1 2 ≡ Version (sole 7) 3 None
        → ¬ TellsStamp f (Some (question.Stamp (record { block = 1; page = 2 }))) outcome.Erased }
    ensures no_stamp { (f : Flash) → ¬ TellsStamp f None outcome.Erased }
    ensures block_stamp { (f : Flash) → ¬ TellsStamp f (Some (question.IsBad 1)) outcome.Erased }
    ensures takes_chip { (old new : Asked) → TakesAnswer old new → new.shape ≡ old.shape }
    ensures takes_size { (old new : Asked) → TakesAnswer old new → new.sectors ≡ old.sectors }
    ensures takes_one { (old new : Asked) → TakesAnswer old new → questions_left old ≡ 5
        → questions_left new ≡ 4 }
    ensures same_chip { (old new : Asked) → IsSameOpening old new → new.shape ≡ old.shape }
    ensures same_size { (old new : Asked) → IsSameOpening old new → new.sectors ≡ old.sectors }
    ensures same_numbers { (old new : Asked) → IsSameOpening old new
        → new.numbers.items ≡ old.numbers.items }
    ensures same_good { (old new : Asked) → IsSameOpening old new → new.good ≡ old.good }
    ensures same_mount { (old new : Asked) → IsSameOpening old new → new.mount ≡ old.mount }
{}

/// What an opening has been told.
pub fn told()
    ensures first { (f : Flash) (opening : Asked) → HasHeard f (true ∷ false ∷ []) opening
        → length opening.numbers.items ≡ 2 → chip_block opening.numbers.items 0 ≢ 0 }
    ensures good { (f : Flash) (opening : Asked) → HasHeard f (true ∷ false ∷ []) opening
        → length opening.numbers.items ≡ 2 → opening.good ≡ 1 }
    ensures all { (f : Flash) (bad : List Bool) (opening : Asked) (mount : Reads) → HasHeard f bad opening
        → opening.mount ≡ Some mount → length opening.numbers.items ≡ opening.shape.blocks }
    ensures device { (f : Flash) (bad : List Bool) (opening : Asked) (mount : Reads) → HasHeard f bad opening
        → opening.mount ≡ Some mount → device_in mount ≡ device_on opening.shape bad opening.sectors }
    ensures number { (f : Flash) (bad : List Bool) (opening : Asked) (mount : Reads) → HasHeard f bad opening
        → opening.mount ≡ Some mount → NumbersBelow f 7 → next_number_in mount ≤ 7 }
    ensures capacity { (f : Flash) (bad : List Bool) (opening : Asked) (mount : Reads) → HasHeard f bad opening
        → opening.mount ≡ Some mount
        → HasCapacity opening.sectors (good_before bad opening.shape.blocks) opening.shape.pages }
    ensures noted { (f : Flash) (bad : List Bool) (opening : Asked) (mount : Reads) → HasHeard f bad opening
        → opening.mount ≡ Some mount → HasNoted (numbered opening.numbers.items f) mount }
{}

/// What a chip is opened as.
pub fn opened_chips()
    ensures order { (f : Flash) (shape : Sizes) (opened : Given)
        → IsOpenedFrom f (true ∷ false ∷ []) shape 8 opened → shape.blocks ≡ 2
        → chip_block opened.numbers.items 0 ≢ 0 }
    ensures good { (f : Flash) (shape : Sizes) (opened : Given)
        → IsOpenedFrom f (true ∷ false ∷ []) shape 8 opened → shape.blocks ≡ 2 → opened.good ≡ 1 }
    ensures device { (f : Flash) (bad : List Bool) (shape : Sizes) (opened : Given)
        → IsOpenedFrom f bad shape 8 opened → (device_of opened.core).sectors ≡ 8 }
    ensures capacity { (f : Flash) (shape : Sizes) (opened : Given)
        → IsOpenedFrom f (true ∷ []) shape 8 opened → shape.blocks ≢ 1 }
    ensures number { (f : Flash) (bad : List Bool) (shape : Sizes) (opened : Given)
        → IsOpenedFrom f bad shape 8 opened → NumbersBelow f 7 → next_number_of opened.core ≤ 7 }
    ensures own { (f : Flash) (bad : List Bool) (shape : Sizes) (opened : Given)
        → IsOpenedFrom f bad shape 8 opened → HasOwnVersions (device_on shape bad 8) f }
    ensures consistent { (f : Flash) (bad : List Bool) (shape : Sizes) (opened : Given)
        (acked begun : List Update) → IsOpenedFrom f bad shape 8 opened
        → IsReadable f (device_on shape bad 8) acked begun
        → IsConsistent (numbered opened.numbers.items f) opened.core acked begun }
    ensures tells { (f : Flash) (bad : List Bool) (shape : Sizes) (opened : Given)
        → IsOpenedFrom f bad shape 8 opened → IsWrittenOn (device_on shape bad 8) f
        → losses_of opened.core ≡ 0 → HasNoLoss (numbered opened.numbers.items f) 8 }
    ensures quiet { (f : Flash) (bad : List Bool) (shape : Sizes) (opened : Given)
        (updates : List Update) → IsOpenedFrom f bad shape 8 opened
        → IsReadable f (device_on shape bad 8) updates updates
        → HasNoLoss (numbered opened.numbers.items f) 8 → losses_of opened.core ≡ 0 }
{}
