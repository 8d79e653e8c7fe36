//! Serving the page of a script: the script is read whole, and its page is served.

ghost use Rattle.std.specs.Prelude.{◌≡◌, ◌≤◌, IfErr, IfOk, IfSome, OnOk};
ghost use Rattle.metrics_core.specs.Outside.{Rose};
ghost use Rattle.program_words.specs.Answers.{LeavesSource};
ghost use Rattle.program_words.specs.Serving.{AreAccepted, IsScriptServed, IsServeComplete, LeavesListener, ServeComesBy, serve_end_status};

use crate::driving::read_whole_script;
use drive_script::{DriveFault, SettingFault, check_settings};
use hash_starts::HashStart;
use metrics_core::Source;
use net_addresses::Network;
use prom_serve::{Listener, ServeError, Served};
use script_player::{Gate, default_agent, play_and_serve};
use std::alloc::Global;
use std::net::{Net, TcpListener, TcpStream};
use std::random::RandomSource;
use std::sync::Wait;
use std::thread::Threads;

/// Why the page of a script wasn't served to the last connection.
#[derive(Clone, Copy, Debug, PartialEq, Eq)]
pub enum ServeScriptFault {
    /// The script was not played, for a reason that keeps a script from being driven too, or memory was refused. It is no failed write.
    Drive(DriveFault),
    /// The listener failed.
    FailedToCreateHTTPListener,
}

impl From<DriveFault> for ServeScriptFault {
    ghost use Rattle.std.specs.Prelude.{◌≡◌};
    ghost use Rattle.program_words.specs.declared.serving.ServeScriptFault.TheVariants as serving;

    ghost from_gives = { λ of fault. fault ≡ serving.Drive of };

    fn from(fault: DriveFault) -> ServeScriptFault {
        ServeScriptFault::Drive(fault)
    }
}

impl From<SettingFault> for ServeScriptFault {
    ghost use Rattle.std.specs.Prelude.{◌≡◌};
    ghost use Rattle.drive_script.specs.declared.faults.DriveFault.TheVariants as faults;
    ghost use Rattle.program_words.specs.declared.serving.ServeScriptFault.TheVariants as serving;

    ghost from_gives = { λ setting fault. fault ≡ serving.Drive (faults.Setting setting) };

    fn from(refused: SettingFault) -> ServeScriptFault {
        ServeScriptFault::Drive(DriveFault::Setting(refused))
    }
}

impl From<ServeError> for ServeScriptFault {
    ghost use Rattle.std.specs.Prelude.{◌≡◌};
    ghost use Rattle.program_words.specs.Serving.{serve_fault};

    ghost from_gives = { λ error fault. fault ≡ serve_fault error };

    fn from(error: ServeError) -> ServeScriptFault {
        match error {
            ServeError::FailedToCreateHTTPListener => ServeScriptFault::FailedToCreateHTTPListener,
            ServeError::Memory => ServeScriptFault::Drive(DriveFault::Memory),
        }
    }
}

/// Reads the whole script from the source, plays its rounds without pages between, and then answers so many connections, one after
/// another, each with the page at the moment of the last round or with what stands for it. The page has no line `# EOF`. It is shown to the
/// peers whose addresses the networks hold, and to every peer where there is no network. The lanes of a round run side by side, and the gate
/// is called around each of their calls. No connection is accepted before the whole script was read and found valid. A connection that
/// fails is counted, and changes nothing else.
pub fn serve_script<
    R: Net<Listener = TcpListener, Stream = TcpStream> + RandomSource + Threads + Wait + Sync,
    S: Source,
    G: Gate + Sync,
    N: Listener,
>(
    rt: &R,
    alloc: Global,
    count: u32,
    networks: &[Network],
    source: &mut S,
    gate: &G,
    listener: &mut N,
) -> Result<Served, ServeScriptFault>
    // Each peer was answered by the page of the script: that of the sequential state behind its rounds, for one order of the calls.
    ensures served { OnOk result (IfSome (S.left source.old)
        (λ bytes. IsScriptServed bytes networks.now count
        (record { given = N.given listener.old; finished = N.finished listener.old })
        (record { given = N.given listener.new; finished = N.finished listener.new }))) }

    // So many connections were accepted, and each was served or failed.
    ensures counted { IfOk result (AreAccepted count (N.given listener.old) (N.given listener.new)
        (N.lost listener.old) (N.lost listener.new)) }

    // Each fault comes only by its cause.
    ensures cause { IfErr result (ServeComesBy (S.left source.old)
        (Rose (S.faults source.old) (S.faults source.new))
        (Rose (N.faults listener.old) (N.faults listener.new))) }
    ensures never_falls { N.faults listener.old ≤ N.faults listener.new }

    // What each fault leaves.
    ensures leaves { IfErr result (LeavesListener (S.left source.old) networks.now count
        (record { given = N.given listener.old; finished = N.finished listener.old })
        (record { given = N.given listener.new; finished = N.finished listener.new })
        (listener.new ≡ listener.old)) }

    // What is still to come of the source.
    ensures left { IfSome (S.left source.old) (λ bytes.
        LeavesSource bytes (S.left source.new) (serve_end_status result)) }

    // Each cause brings its answer.
    ensures complete { IfSome (S.left source.old) (λ bytes. IsServeComplete bytes
        (Rose (S.faults source.old) (S.faults source.new))
        (Rose (N.faults listener.old) (N.faults listener.new))
        (serve_end_status result)) }
{
    let start = HashStart::drawn(rt);
    let script = read_whole_script(rt, alloc, start, source)?;
    check_settings(&script.settings, &default_agent())?;
    let served = play_and_serve(rt, alloc, start, gate, script, networks, listener, count)?;
    Ok(served)
}
