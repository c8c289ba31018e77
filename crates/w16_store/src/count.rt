//! Counts of failures.
ghost use Rattle.std.specs.Prelude.{◌≡◌, ◌<◌, ◌≤◌, IfErr};
ghost use Rattle.w16_store.specs.Later.{RoseIf, is_device};

use crate::store::StoreFault;

/// Passes an answer on, and counts it where it tells that the device failed. For stores that count failures themselves.
///
/// Where the count is full, which takes 500 years at one failure a nanosecond, a failure is told as a file that is too short.
pub fn count_failure<T: Drop>(
    failures: &mut u64,
    answer: Result<T, StoreFault>,
) -> Result<T, StoreFault>
    ensures counted { failures.old ≤ failures.new }
    ensures device { IfErr result (RoseIf is_device failures.old failures.new) }
    ensures same { failures.old < u64.MAX → result ≡ answer }
{
    if let Err(StoreFault::Device) = &answer {
        let Some(count) = failures.checked_add(1) else {
            return Err(StoreFault::Short);
        };
        *failures = count;
    }
    answer
}
