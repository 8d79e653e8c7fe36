//! Worked examples: what the definitions say of whole scripts.

ghost use Rattle.std.specs.Prelude.{◌≡◌, [], ◌∷◌, codes};
ghost use Rattle.metrics_core.specs.Characters.{line};
ghost use Rattle.drive_script.specs.Vectors.{basic, empty, sampled};
ghost use Rattle.script_player.specs.Agent.{default_agent};
ghost use Rattle.program_words.specs.Answers.{report_text};
ghost use Rattle.script_player.specs.Headline.{IsPagesOf};
ghost use Rattle.dsd_addresses.specs.Remotes.{Unix};
ghost use Rattle.program_words.specs.Vectors.{basic_line, basic_page, payloads, sampled_line, described, described_page, pages, sampled_page};

/// A script that registers one counter and adds 42 to it: its run is one page and one payload, which on a stream is led by its length of 19 bytes,
/// and its report counts both.
pub fn basic_example()
    ensures computed { pages basic ≡ basic_page ∷ [] }
    ensures run { IsPagesOf basic basic_page }
    ensures payloads { payloads default_agent basic ≡ basic_line ∷ [] }
    ensures framed { payloads (Unix (codes "/tmp/s")) basic ≡ (19 ∷ 0 ∷ 0 ∷ 0 ∷ basic_line) ∷ [] }
    ensures report { line (report_text (record { pages = 1; sent = 1; unsent = 0; dropped = 0 })) ≡ codes "pages 1 sent 1 unsent 0 dropped 0\n" }
{}

/// A script that records a sample of 1.5 in a histogram three times: its page has a row for each quantile of the window, the sum and
/// the count, and its payload is one line with the sample three times.
pub fn sampled_example()
    ensures computed { pages sampled ≡ sampled_page ∷ [] }
    ensures payloads { payloads default_agent sampled ≡ sampled_line ∷ [] }
    ensures run { IsPagesOf sampled sampled_page }
{}

/// A script whose names are as recommended describes a counter of bytes, registers it and adds 7 to it: its page has the help line, and
/// the name ends with the unit and with `total`.
pub fn described_example()
    ensures computed { pages described ≡ described_page ∷ [] }
    ensures run { IsPagesOf described described_page }
{}

/// The empty script: its run writes and sends nothing.
pub fn empty_example()
    ensures run { IsPagesOf empty [] }
    ensures payloads { payloads default_agent empty ≡ [] }
    ensures report { line (report_text (record { pages = 0; sent = 0; unsent = 0; dropped = 0 })) ≡ codes "pages 0 sent 0 unsent 0 dropped 0\n" }
{}
