//! The lines that serving leaves on `err`.

ghost use Rattle.metrics_core.specs.Characters.{line};
ghost use Rattle.metrics_core.specs.Outside.{Rose};
ghost use Rattle.program_words.specs.Answers.{IsSaidText};
ghost use Rattle.program_words.specs.Serving.{serve_fault_text, served_text};

use crate::ServeScriptFault;
use crate::say::{say, say_fault};
use itoa::Buffer;
use metrics_core::Sink;
use prom_serve::Served;

/// Says how many connections were served, and how many failed.
pub(crate) fn say_served<E: Sink>(err: &mut E, served: &Served)
    ensures said { IsSaidText (Rose (E.faults err.old) (E.faults err.new)) (E.written err.old)
        (E.written err.new) (line (served_text served.now)) }
{
    let (mut number, mut failed) = (Buffer::new(), Buffer::new());
    say(
        err,
        &[
            b"served ",
            number.format(served.served).as_bytes(),
            b" failed ",
            failed.format(served.failed).as_bytes(),
            b"\n",
        ],
    );
}

/// Says why the page wasn't served to the last connection.
pub(crate) fn say_serve_fault<E: Sink>(err: &mut E, fault: ServeScriptFault)
    ensures said { IsSaidText (Rose (E.faults err.old) (E.faults err.new))
        (E.written err.old) (E.written err.new) (line (serve_fault_text fault)) }
{
    match fault {
        ServeScriptFault::Drive(fault) => say_fault(err, fault),
        ServeScriptFault::FailedToCreateHTTPListener => {
            say(err, &[b"failed to create HTTP listener\n"]);
        }
    }
}
