//! The central system of a place: put there, and given back.

ghost use Rattle.std.specs.Prelude.{◌≡◌, Some, None, option_map};
ghost use denote.RawPtr.{null_ptr};

use crate::centre_place::CentrePlace;
use crate::loose::Loose;
use dms_centre::Centre;
use std::alloc::Global;
use std::mem::replace;
use std::ptr::null_mut;

impl CentrePlace {
    /// Puts a central system there, and frees the one that was there.
    pub fn keep(&mut self, centre: Box<Centre>)
        ensures { self.new.value ≡ Some centre.value }
    {
        self.put(CentrePlace::of(Loose::of(centre)));
    }

    /// Frees the central system that is there: none is there then, and the pointer is null.
    pub fn clear(&mut self, alloc: Global)
        ensures value { self.new.value ≡ None }
        ensures pointer { self.new.at ≡ null_ptr }
    {
        self.put(CentrePlace::none(alloc));
    }

    /// A place with no central system.
    fn none(alloc: Global) -> CentrePlace
        ensures value { result.value ≡ None }
        ensures pointer { result.at ≡ null_ptr }
    {
        CentrePlace {
            at: null_mut(),
            alloc,
        }
    }

    /// A place with a central system.
    fn of(loose: Loose<Centre, Global>) -> CentrePlace
        ensures { result.value ≡ Some loose.value }
    {
        let Loose { at, alloc } = loose;
        CentrePlace {
            at: at as *mut u8,
            alloc,
        }
    }

    /// The parts of the central system's box, where one is there.
    fn into_loose(self) -> Option<Loose<Centre, Global>>
        ensures { option_map (λ loose. loose.value) result ≡ self.value }
    {
        let CentrePlace { at, alloc } = self;
        if at.is_null() {
            None
        } else {
            Some(Loose {
                at: at as *mut Centre,
                alloc,
            })
        }
    }

    /// Puts another place in its stead, and frees the central system that was there.
    fn put(&mut self, place: CentrePlace)
        ensures { self.new ≡ place }
    {
        if let Some(loose) = replace(self, place).into_loose() {
            drop(loose.into_box());
        }
    }
}
