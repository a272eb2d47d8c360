//! What the names of an agent read, and which comes next.

ghost use Rattle.std.specs.Prelude.{◌≡◌, option_map};
ghost use Rattle.dms_mib_replies.specs.Next.{next_binding};
ghost use Rattle.dms_agent.specs.Values.{font_after, own_after, earliest};

use crate::agent::Agent;
use dms_device_fonts::fonts_after;
use dms_mib_replies::{Next, Objects};
use dms_wire::{Oid, Value, oid_cmp};
use std::cmp::Ordering;

impl Objects for Agent {
    ghost use Rattle.dms_agent.specs.Values.{agent_value, agent_after};

    ghost reads = { agent_value };

    ghost follows = { agent_after };

    fn value(&self, name: &Oid<'_>) -> Option<Value<'_>> {
        match self.own_value(name) {
            Some(value) => Some(value),
            None => self.device.value(name),
        }
    }

    fn next(&self, name: &Oid<'_>) -> Option<Next<'_>> {
        earlier(self.own_next(name), self.device.next(name))
    }
}

impl Agent {
    /// The first instance of the sign's own after a name, of its fonts too where these can be read.
    fn own_next(&self, name: &Oid<'_>) -> Option<Next<'_>>
        ensures { option_map next_binding result ≡ own_after self.now name.now }
    {
        earlier(self.sign.next(name), self.next_of_fonts(name))
    }

    /// The first instance of the sign's fonts after a name, where these can be read.
    fn next_of_fonts(&self, name: &Oid<'_>) -> Option<Next<'_>>
        ensures { option_map next_binding result ≡ font_after self.now name.now }
    {
        if self.has_fonts {
            fonts_after(self.sign.face(), name)
        } else {
            None
        }
    }
}

/// The one whose name comes first, and the first one where the names are the same.
fn earlier<'a>(one: Option<Next<'a>>, other: Option<Next<'a>>) -> Option<Next<'a>>
    ensures { option_map next_binding result
        ≡ earliest (option_map next_binding one.entry) (option_map next_binding other.entry) }
{
    let Some(other) = other else {
        return one;
    };
    let Some(one) = one else {
        return Some(other);
    };
    if oid_cmp(&other.name.oid(), &one.name.oid()) == Ordering::Less {
        Some(other)
    } else {
        Some(one)
    }
}
