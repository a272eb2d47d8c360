//! The sign of a place: put there, and given back.

ghost use Rattle.std.specs.Prelude.{◌≡◌, Some, None, option_map};
ghost use denote.RawPtr.{null_ptr};

use crate::loose::Loose;
use crate::sign_place::SignPlace;
use dms_agent_watched::Watched;
use std::alloc::Global;
use std::mem::replace;
use std::ptr::null_mut;

impl SignPlace {
    /// Puts a sign there, and frees the one that was there.
    pub fn keep(&mut self, sign: Box<Watched>)
        ensures { self.new.value ≡ Some sign.value }
    {
        self.put(SignPlace::of(Loose::of(sign)));
    }

    /// Frees the sign that is there: none is there then, and the pointer is null.
    pub fn clear(&mut self, alloc: Global)
        ensures value { self.new.value ≡ None }
        ensures pointer { self.new.at ≡ null_ptr }
    {
        self.put(SignPlace::none(alloc));
    }

    /// A place with no sign.
    fn none(alloc: Global) -> SignPlace
        ensures value { result.value ≡ None }
        ensures pointer { result.at ≡ null_ptr }
    {
        SignPlace {
            at: null_mut(),
            alloc,
        }
    }

    /// A place with a sign.
    fn of(loose: Loose<Watched, Global>) -> SignPlace
        ensures { result.value ≡ Some loose.value }
    {
        let Loose { at, alloc } = loose;
        SignPlace {
            at: at as *mut u8,
            alloc,
        }
    }

    /// The parts of the sign's box, where one is there.
    fn into_loose(self) -> Option<Loose<Watched, Global>>
        ensures { option_map (λ loose. loose.value) result ≡ self.value }
    {
        let SignPlace { at, alloc } = self;
        if at.is_null() {
            None
        } else {
            Some(Loose {
                at: at as *mut Watched,
                alloc,
            })
        }
    }

    /// Puts another place in its stead, and frees the sign that was there.
    fn put(&mut self, place: SignPlace)
        ensures { self.new ≡ place }
    {
        if let Some(loose) = replace(self, place).into_loose() {
            drop(loose.into_box());
        }
    }
}
