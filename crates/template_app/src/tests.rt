//! A whole run of the application, and its transcript.

use crate::beat::Beat;
use mote_kit::boxes;
use mote_kit::difference::compare;
use mote_kit::mote::{DEFAULT_SIZES, run_script};
use mote_run::End;
use std::test::Fail;

#[test]
fn beats_every_ten_ticks(rt: HostRuntime) -> Result<(), Fail> {
    let mut boxes = boxes![rt.alloc(); Beat::new()];
    let script = b"tick 10\ntick 20\n";
    let ran = run_script(
        rt.alloc(),
        DEFAULT_SIZES,
        boxes.as_mut_slice(),
        script,
        false,
    )?;
    let transcript = "\
4 synch 129 - -> timer-set 0 10
4 answer done -> wait
> tick 10
4 event 136 0 -> print 626561740a
4 answer done -> timer-reset 0
4 answer done -> wait
> tick 20
4 event 136 0 -> print 626561740a
4 answer done -> timer-reset 0
4 answer done -> wait
4 event 136 0 -> print 626561740a
4 answer done -> timer-reset 0
4 answer done -> wait
";
    compare(transcript.as_bytes(), ran.transcript.as_slice())?;
    assert_eq!(rt; ran.end, End::Finished);
    Ok(())
}
