//! A clock that follows a script.

ghost use Rattle.std.specs.Prelude.{◌≡◌, ◌-◌, min, length, None, slice_get, unwrap_or};

use crate::bookkeeping::Readings;
use crate::outside::Clock;

/// A clock with a list of readings, of which the last one stands for ever. Resting takes no time.
#[derive(Debug, Drop)]
pub struct ScriptClock {
    script: Vec<u64>,
    calls: usize,
    readings: Readings,
}

impl ScriptClock {
    /// A clock with these readings; with none it reads 0.
    pub fn new(script: Vec<u64>) -> Self
        ensures last { ⟦<ScriptClock as Clock>⟧.last result ≡ None }
        ensures risen { ⟦<ScriptClock as Clock>⟧.risen result ≡ 0 }
    {
        ScriptClock {
            script,
            calls: 0,
            readings: Readings::new(),
        }
    }

    /// The reading of the call of that number, counted from 0.
    fn reading(&self, number: usize) -> u64
        ensures { result ≡ unwrap_or (slice_get self.now.script.items (min number (length self.now.script.items - 1))) 0 }
    {
        let last = self.script.len().saturating_sub(1);
        self.script.get(number.min(last)).copied().unwrap_or(0)
    }
}

impl Clock for ScriptClock {
    ghost last = { λ c. c.readings.last };

    ghost risen = { λ c. c.readings.risen };

    fn now(&mut self) -> u64 {
        let reading = self.reading(self.calls);
        self.calls = self.calls.saturating_add(1);
        self.readings.note(reading);
        reading
    }

    fn rest(&mut self, _ms: u32) {}
}

#[cfg(test)]
mod tests {
    use super::*;
    use crate::{Gate, NoGate};
    use std::test::Fail;

    #[test]
    fn falls_are_not_taken_off_what_rose(rt: HostRuntime) -> Result<(), Fail> {
        let alloc = rt.alloc();
        let scripts = [
            vec![in alloc; 10, 4, 9]?,
            vec![in alloc; 0, u64::MAX, 1, 3]?,
            vec![in alloc]?,
        ];
        let steps = [
            [(10, 0), (4, 0), (9, 5), (9, 5)],
            [(0, 0), (u64::MAX, u64::MAX), (1, u64::MAX), (3, u64::MAX)],
            [(0, 0), (0, 0), (0, 0), (0, 0)],
        ];
        for (script, steps) in scripts.into_iter().zip(steps) {
            let mut clock = ScriptClock::new(script);
            assert_eq!(rt; clock.readings.last, None);
            for (reading, risen) in steps {
                NoGate.pass(0);
                assert_eq!(rt; clock.now(), reading);
                clock.rest(7);
                assert_eq!(rt; clock.readings.last, Some(reading));
                assert_eq!(rt; clock.readings.risen, risen);
            }
        }
        Ok(())
    }
}
