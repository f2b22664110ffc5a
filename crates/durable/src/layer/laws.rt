//! Laws of what comes next, and of what it leaves.
ghost use Rattle.std.specs.Prelude.{◌≡◌, ◌≢◌, ◌<◌, ◌+◌, ◌-◌, ◌^◌, List, Option, None, Some};
ghost use Rattle.geometry.specs.declared.page_addr.PageAddr.{PageAddr as Addr};
ghost use Rattle.durable.specs.Choice.{IsNextCommand, Spends, StaysOpen, left, number_after};
ghost use Rattle.durable.specs.Collecting.{AreInTwoBlocks, IsCopied, IsEnough, IsFree, IsOpenAt, IsProgrammed, live_in, most_copies};
ghost use Rattle.durable.specs.Device.{device_of, next_number_of, next_pages_of};
ghost use Rattle.durable.specs.Memory.{map_entry};
ghost use Rattle.durable.specs.Next.{HasFree, IsRoomy};
ghost use Rattle.durable.specs.declared.command.Command.TheVariants as command;
ghost use Rattle.durable.specs.declared.memory.Core.{Core as Layer};
ghost use Rattle.durable.specs.declared.next_pages.NextPages.{NextPages as Nexts};

/// The next pages of open blocks, and what is left of a call with them.
pub fn open_blocks()
    ensures apart { ¬ AreInTwoBlocks (record { hosts = Some (record { block = 1; page = 0 }); copies = Some (record { block = 1; page = 2 }) }) }
    ensures programmed { (old new : Nexts) → IsProgrammed old (record { block = 1; page = 0 }) 4 new
        → old.hosts ≡ Some (record { block = 1; page = 0 }) → new.copies ≡ old.copies }
    ensures in_copies { (old new : Nexts) → IsProgrammed old (record { block = 1; page = 0 }) 4 new
        → old.hosts ≡ None → new.hosts ≡ None }
    ensures copied { (old new : Nexts) → IsCopied old (record { block = 1; page = 0 }) 4 new → new.hosts ≡ old.hosts }
    ensures enough { ¬ IsEnough 4 (record { hosts = None; copies = None }) 4 }
    ensures none_left { (next : Nexts) → ¬ IsEnough 4 next 0 }
{}

/// Which command comes next, and what it takes of a call.
pub fn next_commands()
    ensures number { (core : Layer) (at : Addr)
        → IsNextCommand core (command.Program at 5) → next_number_of core ≡ 5 }
    ensures hosts { (core : Layer) (at on : Addr) → (next_pages_of core).hosts ≡ Some on
        → IsNextCommand core (command.Program at 5) → at ≡ on }
    ensures page { (core : Layer) (at : Addr) → (next_pages_of core).hosts ≡ None
        → IsNextCommand core (command.Program at 5) → (next_pages_of core).copies ≡ Some at }
    ensures last_number { (core : Layer) (at : Addr)
        → ¬ IsNextCommand core (command.Program at (2 ^ 64 - 1)) }
    ensures spare { (core : Layer) → core.blocks ≡ 2 → ¬ IsFree core.map.items 0
        → ¬ IsFree core.map.items 1
        → ¬ IsNextCommand core (command.Program (record { block = 0; page = 1 }) 5) }
    ensures open { (core : Layer) (at : Addr)
        → (next_pages_of core).hosts ≡ Some at → at.block ≡ 0 → ¬ IsNextCommand core (command.Erase 0) }
    ensures both { (core : Layer) (at to : Addr) → (next_pages_of core).hosts ≡ Some at
        → (next_pages_of core).copies ≡ Some to → ¬ IsNextCommand core (command.Erase 0) }
    ensures beside { (core : Layer) (at : Addr) → core.blocks ≡ 2
        → (next_pages_of core).hosts ≡ Some at → ¬ IsFree core.map.items 1 → ¬ IsNextCommand core (command.Erase 0) }
    ensures erase { (core : Layer) → IsNextCommand core (command.Erase 2) → IsFree core.map.items 2 }
    ensures source { (core : Layer) (from to : Addr)
        → IsNextCommand core (command.Copy 7 from to) → map_entry core 7 ≡ Some from }
    ensures target { (core : Layer) (from to : Addr)
        → IsNextCommand core (command.Copy 7 from to) → (next_pages_of core).copies ≡ Some to }
    ensures fewest { (core : Layer) (from to : Addr)
        → IsNextCommand core (command.Copy 7 from to)
        → ¬ HasFree core.blocks core.map.items core.next_pages → to.block ≡ 0 → 1 < core.blocks
        → live_in 1 core.map.items + 1 ≡ live_in from.block core.map.items → ⊥ }
    ensures closed { (core : Layer) (from to at : Addr) → IsNextCommand core (command.Copy 7 from to)
        → (next_pages_of core).hosts ≡ Some at → from.block ≢ at.block }
    ensures last { (core : Layer) (from to : Addr) → IsNextCommand core (command.Copy 7 from to)
        → (next_pages_of core).hosts ≡ None → to.page + 1 ≡ core.pages → ⊥ }
    ensures few { (core : Layer) (from to : Addr) → IsNextCommand core (command.Copy 7 from to)
        → HasFree core.blocks core.map.items core.next_pages
        → core.pages < left core + most_copies (device_of core).sectors core.blocks core.pages }
    ensures before { (core : Layer) (from to at : Addr) → IsNextCommand core (command.Copy 7 from to)
        → (next_pages_of core).hosts ≡ Some at → left core ≡ 1 → ⊥ }
    ensures opened { (core : Layer) → IsNextCommand core (command.Erase 0) → left core ≡ core.pages + 1 }
    ensures first { Spends (command.Erase 0) 4 5 4 }
    ensures twice { ¬ Spends (command.Erase 0) 4 4 4 }
    ensures copy { ¬ Spends
        (command.Copy 7 (record { block = 1; page = 0 }) (record { block = 0; page = 0 })) 4 4 4 }
    ensures copy_first { ¬ Spends
        (command.Copy 7 (record { block = 1; page = 0 }) (record { block = 0; page = 0 })) 4 5 4 }
    ensures program { ¬ Spends (command.Program (record { block = 1; page = 0 }) 5) 4 0 0 }
    ensures refused { ¬ Spends command.Refused 4 5 4 }
    ensures counted { number_after (command.Program (record { block = 1; page = 0 }) 5) 3 ≡ 6 }
    ensures same { number_after (command.Erase 1) 3 ≡ 3 }
    ensures goes_on { (next : Nexts)
        → StaysOpen (command.Program (record { block = 1; page = 0 }) 5) 4 next
        → IsOpenAt next (record { block = 1; page = 1 }) }
    ensures copied { (next : Nexts)
        → StaysOpen
        (command.Copy 7 (record { block = 1; page = 0 }) (record { block = 2; page = 0 })) 4 next
        → IsOpenAt next (record { block = 2; page = 1 }) }
    ensures begins { ¬ StaysOpen (command.Erase 1) 4 (record { hosts = None; copies = None }) }
    ensures ends { StaysOpen (command.Program (record { block = 1; page = 3 }) 5) 4
        (record { hosts = None; copies = None }) }
{}

/// When a write waits for few copies, and for how many at most.
pub fn few_copies()
    ensures free { (map : List (Option Addr)) (next : Nexts) → IsRoomy 2 map next → HasFree 2 map next }
    ensures open { (map : List (Option Addr)) → ¬ IsRoomy 2 map (record { hosts = None; copies = None }) }
    ensures shares { most_copies 1920 45 64 ≡ 4 }
    ensures empty { most_copies 0 45 64 ≡ 1 }
    ensures full { most_copies 640 10 64 ≡ 65 }
{}
