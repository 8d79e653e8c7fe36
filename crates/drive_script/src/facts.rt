//! What holds of scripts by their definitions alone. The functions do nothing.

ghost use Rattle.std.specs.Prelude.{◌≡◌, ℕ, List, take};
ghost use Rattle.drive_script.specs.Script.{ScriptLine, ScriptText, IsLine, IsScript};
ghost use Rattle.drive_script.specs.Valid.{IsValid, AreValidLines, IsScriptOf, IsFirstBadLine};

/// A line says at most one thing.
pub fn lines_say_one_thing()
    ensures { (line : List ℕ) (s t : ScriptLine) → IsLine line s → IsLine line t → s ≡ t }
{}

/// Lines are at most one valid script.
pub fn one_reading()
    ensures { (lines : List (List ℕ)) (s t : ScriptText)
        → IsScript lines s × IsValid s → IsScript lines t × IsValid t → s ≡ t }
{}

/// The first lines of a valid script, however many, are a valid script too.
pub fn beginnings()
    ensures { (lines : List (List ℕ)) (k : ℕ) → AreValidLines lines → AreValidLines (take k lines) }
{}

/// Bytes have at most one first bad line, and those that have one are no valid script.
pub fn one_first_bad_line()
    ensures same { (bytes : List ℕ) (k l : ℕ) → IsFirstBadLine bytes k → IsFirstBadLine bytes l
        → k ≡ l }
    ensures no_script { (bytes : List ℕ) (l : ℕ) (script : ScriptText)
        → IsFirstBadLine bytes l → ¬ IsScriptOf bytes script }
{}
