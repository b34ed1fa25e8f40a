//! etimer and process 3 (packet) leave nothing undone for which the event queue has room.

ghost use Rattle.std.specs.Prelude.{◌≡◌, true, false};
ghost use Rattle.process_core.specs.Scheduler.{has_room};
ghost use Rattle.kernel_core.specs.Machine.{Machine};
ghost use Rattle.kernel_core.specs.PacketProcess.{announce, has_news};
ghost use Rattle.kernel_core.specs.TimerProcesses.{is_any_due, post_due};

/// After a POLL of etimer no timer is due, or the queue is full; after one of process 3 every frame was announced to the
/// receiver, or the queue is full. The function does nothing; its contract is the law.
pub fn polls_leave_nothing_that_fits()
    ensures timers { (m : Machine) → is_any_due (post_due m) ≡ true → has_room (post_due m).scheduler ≡ false }
    ensures frames { (m : Machine) → has_news (announce m).packets ≡ true → has_room (announce m).scheduler ≡ false }
{}
