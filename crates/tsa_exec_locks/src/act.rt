//! What a lock function does to a lock, by its attribute.
ghost use Rattle.tsa_exec_locks.specs.Acts.{IsActOf};

use tsa_sched::Mode;
use tsa_tree::attr::AttrKind;

/// What a call does to a lock: it takes the lock in a mode and waits for it; it takes the lock if nobody is in the way, and says so by an
/// answer; or it gives the lock back, in a mode or in whichever the thread holds it.
#[derive(Clone, Copy, Debug, PartialEq, Eq)]
pub enum LockAct {
    Take(Mode),
    Try(Mode, bool),
    Give(Option<Mode>),
}

/// What a function does to the lock that it is handed, by the kind of its attribute and the answer of a try that took; none where the
/// attribute changes no lock.
pub fn lock_act(kind: AttrKind, success: bool) -> Option<LockAct>
    ensures { IsActOf kind success result }
{
    match kind {
        AttrKind::Acquire => Some(LockAct::Take(Mode::Exclusive)),
        AttrKind::AcquireShared => Some(LockAct::Take(Mode::Shared)),
        AttrKind::TryAcquire => Some(LockAct::Try(Mode::Exclusive, success)),
        AttrKind::TryAcquireShared => Some(LockAct::Try(Mode::Shared, success)),
        AttrKind::Release => Some(LockAct::Give(Some(Mode::Exclusive))),
        AttrKind::ReleaseShared => Some(LockAct::Give(Some(Mode::Shared))),
        AttrKind::ReleaseGeneric => Some(LockAct::Give(None)),
        _ => None,
    }
}
