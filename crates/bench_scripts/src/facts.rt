//! What holds of the generated script by its definition alone. The functions do nothing.

ghost use Rattle.std.specs.Prelude.{◌≡◌, ℕ, ◌≤◌, pos, None};
ghost use Rattle.bench_scripts.specs.Bench.{bench_script, bench_settings_text, call_at};
ghost use Rattle.bench_scripts.specs.Generator.{draw};
ghost use Rattle.drive_script.specs.Script.{Rec};
ghost use Rattle.drive_script.specs.Settings.{refused_setting};
ghost use Rattle.drive_script.specs.Valid.{IsValid};
ghost use Rattle.dsd_addresses.specs.Remotes.{RemoteText};

/// The script is valid, also with the most rounds that are made.
pub fn script_is_valid()
    ensures { (count : ℕ) → count ≤ 10000 → IsValid (bench_script count) }
{}

/// No setting is refused, whatever address payloads are sent to.
pub fn settings_are_allowed()
    ensures { (to : RemoteText) → refused_setting bench_settings_text to ≡ None }
{}

/// The first draw, and the first call line, `0 rec 8 975`.
pub fn first_call()
    ensures drawn { draw 0 ≡ 167951807 }
    ensures line { call_at 0 0 ≡ record { lane = 0; handle = 8; act = Rec (pos 975000000000) } }
{}
