//! The texts that the program tells of itself, and the words that ask for them.

ghost use Rattle.std.specs.Prelude.{◌≡◌, ℕ, List, MatchOption};
ghost use Rattle.program_words.specs.Answers.{texts_of};
ghost use Rattle.program_words.specs.Words.{AsksFor, AsksForWord};
ghost use Rattle.program_words.specs.Texts.{help_text, version_text};

/// The version of the program: that of the file VERSION at the top, which no check compares with it.
const VERSION_TEXT: &str = "metrics_drive 0.3.0\n";

/// What the program is for, and how it is called.
const HELP_TEXT: &str = "\
metrics_drive plays scripts of counters, gauges and histograms: it writes their Prometheus pages and sends their DogStatsD payloads.

usage: drive [ADDRESS] | serve COUNT [NETWORK ..] | bench N | merge | receive | rules

  drive [ADDRESS]           play a script: a page for each round, and payloads to IP:PORT, udp://IP:PORT or unix://PATH (127.0.0.1:8125 over UDP)
  serve COUNT [NETWORK ..]  play a script, and serve its last page at http://127.0.0.1:9000/ to COUNT connections, in the networks alone where some are given
  bench N                   play N rounds of a generated script, from 1 to 10000, and write the last page
  merge                     make one page of pages that stand one after the other
  receive                   make one page of DogStatsD payloads, each led by its length in four bytes, as on a Unix stream
  rules                     read rules and pages, and write which sums are over or under their bounds, and on which page
  --help, -h                this text
  --version                 the version

A script, pages, payloads or rules come on standard input: metrics_drive drive < FILE
Pages go to standard output, and a line that says how it ended to standard error.

status
   0  done
   2  the words are none of these
   3  the script is not valid
   4  a setting of the script is refused
   5  more than 67108864 bytes came on standard input
   6  standard input failed
   7  standard output failed
   8  memory was refused
   9  the page could not be served: no listening at its address, or no connection
  10  what should be pages is none
  11  the pages don't merge
  12  the payloads end within one
  13  the rules are none

docs/SCRIPT.md says how a script is written.
";

/// The text that the words ask for, if they ask for one.
pub(crate) fn asked_text(words: &[&str]) -> Option<&'static str>
    ensures { MatchOption result ((text : List ℕ) → ¬ AsksFor (texts_of words.now) text)
        (λ text. AsksFor (texts_of words.now) text.now) }
{
    match words {
        [word] => text_of(word),
        _ => None,
    }
}

/// The text that a word asks for, if it asks for one.
fn text_of(word: &str) -> Option<&'static str>
    ensures { MatchOption result ((text : List ℕ) → ¬ AsksForWord word.now text)
        (λ text. AsksForWord word.now text.now) }
{
    if word == "--help" || word == "-h" {
        return Some(help());
    }
    if word == "--version" {
        return Some(version());
    }
    None
}

/// What the program is for, and how it is called.
fn help() -> &'static str
    ensures { result.now ≡ help_text }
{
    HELP_TEXT
}

/// The name of the program and its version.
fn version() -> &'static str
    ensures { result.now ≡ version_text }
{
    VERSION_TEXT
}
