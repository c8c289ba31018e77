//! The laws of what is written. Each function does nothing: its contract is the law.
ghost use Rattle.w16_writes.specs.LastWrite.{ReadsBackLaw, RunLaw, StepLaw};
ghost use Rattle.w16_writes.specs.Promises.{RunPromisesLaw};

use w16_store::Store;

/// Each step, whatever it is and whatever the store answers, puts the bytes that it writes where its far pointer points, reads the bytes that are
/// there, and leaves every other position that is there before and after the byte that it had: whatever is moved, discarded, loaded, cut, given
/// another handle or given a local heap elsewhere.
pub fn steps_keep_what_is_written<S: Store>()
    ensures { StepLaw S.is_honest }
{}

/// So each run reads back what it wrote, wherever the position is undisturbed: through the handle that a reallocation answered, where there was
/// one.
pub fn runs_read_back<S: Store>()
    ensures steps { RunLaw S.is_honest }
    ensures reads { ReadsBackLaw }
{}

/// Each run keeps what the machine promises of it, whatever the store answers: no two objects share a byte; only an unlocked discardable object loses
/// bytes to another's request; fixed and locked objects keep their address; a request is refused only where no gap could hold it, and discards as few
/// objects as it can; what is written reads back.
pub fn runs_keep_what_they_promise<S: Store>()
    ensures { RunPromisesLaw S.is_honest }
{}
