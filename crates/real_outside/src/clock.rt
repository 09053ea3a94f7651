//! A clock over the clock of the system.

ghost use Rattle.std.specs.Prelude.{◌≡◌, None};
ghost use Rattle.std.specs.Duration.{as_nanos};
ghost use Rattle.real_outside.specs.Times.{millis};

use med_base::Clock;
use med_base::bookkeeping::Readings;
use std::time::Duration;
use std::{rt, thread};

/// A clock that reads the milliseconds of the system's monotonic clock. Where the system gives none, it reads
/// what it read last.
#[derive(Drop)]
pub struct RealClock<'a, R> {
    rt: &'a R,
    readings: Readings,
}

impl<'a, R: rt::Clock> RealClock<'a, R> {
    /// A clock that wasn't read yet.
    pub fn new(rt: &'a R) -> Self
        ensures last { ⟦<RealClock<'a, R> as Clock>⟧.last result ≡ None }
        ensures risen { ⟦<RealClock<'a, R> as Clock>⟧.risen result ≡ 0 }
    {
        RealClock {
            rt,
            readings: Readings::new(),
        }
    }
}

impl<'a, R: rt::Clock> Clock for RealClock<'a, R> {
    ghost last = { λ c. c.readings.last };

    ghost risen = { λ c. c.readings.risen };

    fn now(&mut self) -> u64 {
        let reading = match self.rt.monotonic() {
            Ok(time) => millis_of(time),
            Err(_) => self.readings.last.unwrap_or(0),
        };
        self.readings.note(reading);
        reading
    }

    fn rest(&mut self, ms: u32) {
        thread::sleep(self.rt, Duration::from_millis(u64::from(ms)));
    }
}

/// A time in whole milliseconds, or the greatest count where there are more.
fn millis_of(time: Duration) -> u64
    ensures { result ≡ millis (as_nanos time) }
{
    u64::try_from(time.as_millis()).unwrap_or(u64::MAX)
}

#[cfg(test)]
mod tests {
    use super::*;
    use std::cell::Cell;
    use std::io;
    use std::test::Fail;

    /// A system that tells its time, then fails, then tells a time that no count of milliseconds reaches.
    #[derive(Drop)]
    struct System {
        calls: Cell<u8>,
        slept: Cell<u64>,
    }

    impl rt::Clock for System {
        fn monotonic(&self) -> io::Result<Duration> {
            let call = self.calls.get();
            self.calls.set(call.saturating_add(1));
            match call {
                0 => Ok(Duration::new(3, 4_999_999)),
                1 => Err(io::Error::other("no clock")),
                _ => Ok(Duration::new(u64::MAX, 0)),
            }
        }

        fn since_1970(&self) -> io::Result<Duration> {
            Ok(Duration::from_millis(1))
        }

        fn sleep(&self, time: Duration) {
            self.slept.set(millis_of(time));
        }
    }

    #[test]
    fn reads_and_rests_in_milliseconds(rt: HostRuntime) -> Result<(), Fail> {
        let system = System {
            calls: Cell::new(0),
            slept: Cell::new(0),
        };
        let mut clock = RealClock::new(&system);
        for reading in [3_004, 3_004, u64::MAX] {
            assert_eq!(rt; clock.now(), reading);
        }
        clock.rest(20);
        assert_eq!(rt; system.slept.get(), 20);
        let mut real = RealClock::new(&rt);
        let before = real.now();
        real.rest(20);
        assert!(rt; before.saturating_add(20) <= real.now());
        Ok(())
    }
}
