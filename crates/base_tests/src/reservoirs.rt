//! A reservoir, and the words that decide what it keeps.

ghost use Rattle.std.specs.Prelude.{None};

use metrics_core::{BILLIONTHS, Fixed, Memory, Words};
use metrics_registry::Reservoir;
use std::alloc::Global;
use std::test::Fail;

/// Two words, one after the other, and the second one from then on.
#[derive(Drop)]
struct TwoWords {
    next: u64,
    second: u64,
}

impl Words for TwoWords {
    ghost to_come = { λ _. None };

    fn next_word(&mut self) -> u64 {
        let word = self.next;
        self.next = self.second;
        word
    }
}

/// So many whole.
fn whole(number: i64) -> Fixed {
    Fixed(number.wrapping_mul(i64::from(BILLIONTHS)))
}

/// What a reservoir of two keeps of 1, 2 and 3, and of 4 behind them, where the words 1 and 7 are drawn: 1 mod 3 is the second
/// place, and 7 mod 4 is none.
fn keeps(alloc: Global) -> Result<bool, Memory> {
    let mut words = TwoWords { next: 1, second: 7 };
    let mut reservoir = Reservoir::new(alloc, 2)?;
    reservoir.push(whole(1), &mut words);
    reservoir.push(whole(2), &mut words);
    let all = reservoir.sample_rate() == whole(1);
    reservoir.push(whole(3), &mut words);
    let replaced = reservoir.values() == [whole(1), whole(3)].as_slice();
    reservoir.push(whole(4), &mut words);
    let kept = reservoir.values() == [whole(1), whole(3)].as_slice();
    Ok(all && replaced && kept && reservoir.sample_rate() == Fixed(500_000_000))
}

#[test]
fn a_reservoir_keeps_by_its_words(rt: HostRuntime) -> Result<(), Fail> {
    assert!(rt; keeps(rt.alloc())?);
    Ok(())
}
