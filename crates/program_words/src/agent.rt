//! Where the words say that payloads go.

ghost use Rattle.std.specs.Prelude.{IfOk, option_map};
ghost use Rattle.dsd_addresses.specs.Remotes.{remote_text};
ghost use Rattle.program_words.specs.Answers.{HasAddress, IsServedAs, texts_of};

use dsd_addresses::{BuildError, RemoteAddr, remote_texts_have_one_reading};
use metrics_core::Memory;
use script_player::default_agent;
use std::alloc::Global;

/// The address that the words of the command `drive` say that payloads go to: that of the second word, if there is one, and else the
/// default agent. It is none where the words are another command, where the second is no address or one of a Unix datagram socket, and where there are more.
pub(crate) fn drive_address(alloc: Global, words: &[&str]) -> Result<Option<RemoteAddr>, Memory>
    ensures { IfOk result (λ address. HasAddress (texts_of words.now)
        (option_map remote_text address)) }
{
    let [command, behind @ ..] = words else {
        return Ok(None);
    };
    if *command != "drive" {
        return Ok(None);
    }
    match behind {
        [] => Ok(Some(default_agent())),
        [text] => served_address(alloc, text),
        _ => Ok(None),
    }
}

/// The address that a text writes, if it writes one, and it is not that of a Unix datagram socket.
fn served_address(alloc: Global, text: &str) -> Result<Option<RemoteAddr>, Memory>
    ensures { IfOk result (λ address. IsServedAs text.now (option_map remote_text address)) }
{
    // No text writes two addresses.
    remote_texts_have_one_reading();
    match RemoteAddr::from_text(alloc, text) {
        Ok(RemoteAddr::Udp(socket)) => Ok(Some(RemoteAddr::Udp(socket))),
        Ok(RemoteAddr::Unix(path)) => Ok(Some(RemoteAddr::Unix(path))),
        Err(BuildError::Memory) => Err(Memory),
        Ok(RemoteAddr::Unixgram(_))
        | Err(
            BuildError::InvalidRemoteAddress { .. }
            | BuildError::InvalidConfiguration { .. }
            | BuildError::FailedToInstall,
        ) => Ok(None),
    }
}
