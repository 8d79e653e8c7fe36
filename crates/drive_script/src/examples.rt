//! Worked examples of scripts, checked against the definitions. Their functions do nothing.

ghost use Rattle.std.specs.Prelude.{[], codes};
ghost use Rattle.drive_script.specs.Valid.{IsScriptOf, IsFirstBadLine};
ghost use Rattle.drive_script.specs.Vectors.{
  basic,
  basic_bytes,
  counts_bytes,
  empty,
  overflow_bytes,
  sampled,
  sampled_bytes,
  settings_bytes,
  unlimited,
  unlimited_bytes,
  with_settings,
};

/// A round line, a register line and a call line are a script of one round.
pub fn basic_example()
    ensures { IsScriptOf basic_bytes basic }
{}

/// A line may record one sample many times.
pub fn sampled_example()
    ensures { IsScriptOf sampled_bytes sampled }
{}

/// Header lines are the settings of a script, and a setup line may describe a metric.
pub fn settings_example()
    ensures { IsScriptOf settings_bytes with_settings }
{}

/// No bytes are the script without rounds.
pub fn empty_example()
    ensures { IsScriptOf [] empty }
{}

/// Without a limit on series any key may be registered.
pub fn unlimited_example()
    ensures { IsScriptOf unlimited_bytes unlimited }
{}

/// With one, a key that prints as an overflow series is bad, and so is one with the name of the counts of what goes to them.
pub fn overflow_example()
    ensures series { IsFirstBadLine overflow_bytes 3 }
    ensures counts { IsFirstBadLine counts_bytes 3 }
{}

/// A limit on series is 1 to 4,294,967,295. It stands once, before the limit of payloads.
pub fn series_limit_example()
    ensures nothing { IsFirstBadLine (codes "series-limit 0\n") 1 }
    ensures past { IsFirstBadLine (codes "series-limit 4294967296\n") 1 }
    ensures twice { IsFirstBadLine (codes "series-limit 1\nseries-limit 1\n") 2 }
    ensures late { IsFirstBadLine (codes "dsd-limit 512\nseries-limit 1\n") 2 }
{}
