//! What C holds: two words, the first a slot, which is a pointer to a value on the heap or none, the second 1 if there is a value in it.
ghost use Rattle.std.specs.Prelude.{◌≡◌, Option, Some, None, is_some, true};
ghost use Rattle.std.specs.Coded.{coded_option};
ghost use Rattle.handles.specs.Kept.{kept, SaysWhetherOpen};

use std::alloc::Global;
use std::marker::Model;
use std::mem;

/// The code of a call on a closed handle.
pub const CLOSED: u32 = 2;

/// A pointer to a value, or none. It is not `Drop`, so that no value is lost.
#[repr(C)]
pub struct Slot<T> {
    pub at: *mut T,
    pub ghost value: { Option T } by { coded_option T.code },
}

impl<T> Model for Slot<T> {
    ghost also_owns = { λ s. kept T.row s.at s.value };
}

impl<T> Slot<T> {
    /// A slot without a value.
    pub fn empty() -> Slot<T>
        ensures { result.value ≡ None }
    {
        Slot {
            at: std::ptr::null_mut(),
        }
    }

    /// Ends a slot that has no value.
    pub fn end(self)
        requires { self.value ≡ None }
    {
        let Slot { at: _ } = self;
    }

    /// The value of a slot that has one.
    pub fn into_box(self, alloc: Global) -> Box<T, Global>
        requires { is_some self.value ≡ true }
        ensures { self.value ≡ Some result.value }
    {
        let Slot { at } = self;
        unsafe { Box::from_raw(alloc, at) }
    }
}

impl<T: Drop> Slot<T> {
    /// A slot with this value.
    pub fn filled(boxed: Box<T, Global>) -> Slot<T>
        ensures { result.value ≡ Some boxed.value }
    {
        let at = Box::into_raw(boxed);
        Slot { at }
    }
}

/// A handle: closed, which is all zero bytes, or open, with a value.
#[repr(C)]
pub struct Handle<T> {
    pub slot: Slot<T>,
    pub is_open: u64,
    pub ghost known: { SaysWhetherOpen is_open slot.value },
}

/// This may be called only of a type whose values may go to another thread, so a call shows it.
pub fn may_go<T: Send>(_value: &T) {}

impl<T: Drop> Handle<T> {
    ghost use Rattle.std.specs.Prelude.{option_map, false};
    ghost use Rattle.std.specs.Fn.{FnOnceReturnsAtMut};
    ghost use Rattle.handles.specs.Kept.{boxed};
    ghost use Rattle.handles.specs.Calls.{value_of, Calls, CallsWith, ReturnsAtBoth};

    /// Takes the value out, and leaves the handle closed.
    pub fn take(&mut self, alloc: Global) -> Option<Box<T, Global>>
        ensures value { option_map boxed result ≡ value_of self.old }
        ensures closed { value_of self.new ≡ None }
    {
        let Handle { slot, is_open } = mem::replace(
            self,
            Handle {
                slot: Slot::empty(),
                is_open: 0,
            },
        );
        if is_open == 0 {
            slot.end();
            return None;
        }
        Some(slot.into_box(alloc))
    }

    /// Puts a value into a closed handle.
    pub fn put(&mut self, value: Box<T, Global>)
        requires { value_of self.old ≡ None }
        ensures { value_of self.new ≡ Some value.value }
    {
        let Handle { slot, is_open: _ } = mem::replace(
            self,
            Handle {
                slot: Slot::filled(value),
                is_open: 1,
            },
        );
        slot.end();
    }

    /// Puts a value into a closed handle. If there is no memory for it, it is dropped, and the handle stays closed.
    pub fn fill(&mut self, alloc: Global, value: T) -> bool
        requires { value_of self.old ≡ None }
        ensures filled { result ≡ true → value_of self.new ≡ Some value }
        ensures closed { result ≡ false → value_of self.new ≡ None }
    {
        let Ok(value) = Box::new(alloc, value) else {
            return false;
        };
        self.put(value);
        true
    }

    /// A call on the value. A closed handle has no call, and stays closed.
    pub fn on<F: FnOnce(&mut T) -> u32>(&mut self, alloc: Global, call: F) -> u32
        requires { F.IsAlwaysCallable call }
        ensures { Calls (value_of self.old) result (value_of self.new)
            (λ x code y. FnOnceReturnsAtMut F.FnOnce call x code y) }
    {
        let Some(mut value) = self.take(alloc) else {
            return CLOSED;
        };
        let code = call(&mut value);
        self.put(value);
        code
    }

    /// The same with a report, which a closed handle leaves unchanged.
    pub fn on_with<O, F: FnOnce(&mut T, &mut O) -> u32>(
        &mut self,
        alloc: Global,
        out: &mut O,
        call: F,
    ) -> u32
        requires { F.IsAlwaysCallable call }
        ensures { CallsWith (value_of self.old) out.old result (value_of self.new) out.new
            (λ x o code y p. ReturnsAtBoth F.FnOnce call x o code y p) }
    {
        let Some(mut value) = self.take(alloc) else {
            return CLOSED;
        };
        let code = call(&mut value, out);
        self.put(value);
        code
    }

    /// The same with the buffer of a page.
    pub fn on_page<F: FnOnce(&mut T, &mut [u8]) -> u32>(
        &mut self,
        alloc: Global,
        out: &mut [u8],
        call: F,
    ) -> u32
        requires { F.IsAlwaysCallable call }
        ensures { CallsWith (value_of self.old) out.old result (value_of self.new) out.new
            (λ x o code y p. ReturnsAtBoth F.FnOnce call x o code y p) }
    {
        let Some(mut value) = self.take(alloc) else {
            return CLOSED;
        };
        let code = call(&mut value, out);
        self.put(value);
        code
    }
}
