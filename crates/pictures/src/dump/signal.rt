//! The signals of a dump.

ghost use Rattle.std.specs.Prelude.{◌≡◌};
ghost use Rattle.pictures.specs.declared.dump.signal.Signal.{Signal};

/// The first process that is an application.
pub(crate) const FIRST: usize = 4;

/// The largest number of processes, those of the kernel included.
pub(crate) const PROCESSES: usize = 20;

/// The largest number of signals.
pub(crate) const SIGNALS: usize = 21;

/// A signal.
#[derive(Clone, Copy)]
pub(crate) enum Signal {
    /// The process that takes its turn.
    Running,
    /// The number of waiting events that applications posted.
    Queue,
    /// Bytes of managed memory that no block takes.
    ManagedFree,
    /// Bytes of heap memory that no block takes.
    HeapFree,
    /// The number of armed timers.
    Timers,
    /// What a process does.
    Process(usize),
}

/// The number of signals that belong to no process. Those of the applications are after them.
pub(crate) const COMMON: usize = 5;

impl Signal {
    /// The signal at a position among all.
    pub(crate) fn at(index: usize) -> Signal
        ensures { index ≡ 0 → result ≡ Signal.Running }
    {
        match index {
            0 => Signal::Running,
            1 => Signal::Queue,
            2 => Signal::ManagedFree,
            3 => Signal::HeapFree,
            4 => Signal::Timers,
            _ => Signal::Process(index - COMMON + FIRST),
        }
    }

    /// The number of its binary digits.
    pub(crate) fn width(self) -> usize {
        match self {
            Signal::Running => 5,
            Signal::Queue => 6,
            Signal::ManagedFree | Signal::HeapFree => 17,
            Signal::Timers => 8,
            Signal::Process(_) => 2,
        }
    }

    /// Its name, which a process's own may follow.
    pub(crate) fn name(self) -> &'static str {
        match self {
            Signal::Running => "running",
            Signal::Queue => "queue",
            Signal::ManagedFree => "managed_free",
            Signal::HeapFree => "heap_free",
            Signal::Timers => "timers",
            Signal::Process(_) => "process",
        }
    }
}
