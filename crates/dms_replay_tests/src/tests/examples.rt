//! The example of the first page of dms_replay.

use dms_replay::replaying::replay;
use dms_text_streams::Gathered;
use std::test::Fail;

#[test]
fn a_blank_command_s_report_begins_with_its_events(rt: HostRuntime) -> Result<(), Fail> {
    let mut script: &[u8] = b"bench\nblank 1 65535 255 192.0.2.1\nto-sign 0\nto-centre 0\n";
    let mut report = Gathered::new(rt.alloc());
    replay(rt.alloc(), &mut script, &mut report)?;
    assert!(rt; report.bytes().starts_with(b"events 3\nsent 1 1\n"));
    Ok(())
}
