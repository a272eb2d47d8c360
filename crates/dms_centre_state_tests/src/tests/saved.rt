//! States written as text.

use super::scripts::{centre_of, play};
use super::{cases, states};
use dms_centre_state::{put_saved, saved};
use dms_codes::Order;
use std::alloc::Global;
use std::test::Fail;

/// The text of the state that a script leaves is this one.
fn leaves(
    alloc: Global,
    order: Order,
    first: u32,
    script: &[&str],
    wanted: &str,
) -> Result<bool, &'static str> {
    let mut centre = centre_of(alloc, order, first)?;
    play(&mut centre, script)?;
    let text = saved(alloc, &centre).ok().ok_or("out of memory")?;
    Ok(text.as_slice() == wanted.as_bytes())
}

#[test]
fn new_centres_have_their_number(rt: HostRuntime) -> Result<(), Fail> {
    let wanted = "state 1 centre\nnext 4294967295\nlast none\nidle\nend\n";
    assert!(rt; leaves(rt.alloc(), Order::High, 4294967295, &[], wanted)?);
    Ok(())
}

#[test]
fn states_are_those_of_the_model(rt: HostRuntime) -> Result<(), Fail> {
    for (script, wanted) in [
        (cases::FILLING, states::FILLING_STATE),
        (cases::VALIDATING, states::VALIDATING_STATE),
        (cases::WRITTEN, states::WRITTEN_STATE),
        (cases::REFUSED, states::REFUSED_STATE),
        (cases::BLANK, states::BLANK_STATE),
    ] {
        assert!(rt; leaves(rt.alloc(), Order::High, 7, script, wanted)?);
    }
    for (script, wanted) in [
        (cases::LATE, states::LATE_STATE),
        (cases::USED_UP, states::USED_UP_STATE),
    ] {
        assert!(rt; leaves(rt.alloc(), Order::Swapped, 2147483645, script, wanted)?);
    }
    Ok(())
}

#[test]
fn short_buffers_have_the_beginning(rt: HostRuntime) -> Result<(), Fail> {
    let mut centre = centre_of(rt.alloc(), Order::High, 7)?;
    play(&mut centre, cases::BLANK)?;
    let wanted = states::BLANK_STATE.as_bytes();
    let mut buffer = [0; 100];
    assert!(rt; put_saved(&mut buffer, &centre) == wanted.len());
    assert!(rt; buffer.as_slice() == &wanted[..100]);
    Ok(())
}
