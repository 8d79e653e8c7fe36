//! What holds of lines and streams by their definitions alone. The functions do nothing.

ghost use Rattle.std.specs.Prelude.{◌≡◌, ℕ, ◌∷◌, ◌++◌, List, false, All, IsUtf8};
ghost use Rattle.metrics_core.specs.Characters.{line, newline};
ghost use Rattle.dsd_writer.specs.Lines.{line_of};
ghost use Rattle.dsd_lines.specs.Frames.{AreFrames};
ghost use Rattle.dsd_lines.specs.declared.dialects.Dialect.{Dialect};
ghost use Rattle.dsd_lines.specs.Grammar.{IsLine, IsLineIn, LineText};
ghost use Rattle.dsd_lines.specs.Payloads.{payload_lines};
ghost use Rattle.dsd_lines.specs.Reading.{is};
ghost use Rattle.dsd_lines.specs.Written.{IsSayable, item_said, points_spelled};

/// A line is read in one way in each dialect, and has no newline.
pub fn one_reading()
    ensures same { (dialect : Dialect) (bytes : List ℕ) (said other : LineText)
        → IsLineIn dialect bytes said → IsLineIn dialect bytes other → said ≡ other }
    ensures no_newline { (dialect : Dialect) (bytes : List ℕ) (said : LineText)
        → IsLineIn dialect bytes said → All (λ c. is newline c ≡ false) bytes }
{}

/// What a line can say is written by the writer as one line and a newline, and that line says it.
pub fn written_lines_are_read_back()
    ensures { (said : LineText) → IsSayable said
        → (bytes : List ℕ) × (line_of (item_said said) (points_spelled said.points) ≡ line bytes) × IsLine bytes said }
{}

/// The lines of a payload that begins with a line and its newline are that line, and those behind it.
pub fn payloads_are_their_lines()
    ensures { (text rest : List ℕ) → All (λ c. is newline c ≡ false) text
        → payload_lines (line text ++ rest) ≡ text ∷ payload_lines rest }
{}

/// Bytes begin with one list of frames.
pub fn one_list_of_frames()
    ensures { (bytes : List ℕ) (frames others : List (List ℕ)) → AreFrames bytes frames
        → AreFrames bytes others → frames ≡ others }
{}
