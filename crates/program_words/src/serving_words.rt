//! The words of the command `serve`.

ghost use Rattle.std.specs.Prelude.{◌≡◌, ◌≢◌, ◌↔◌, IfOk, IsTrue, MatchOption, length, option_map, slice_index, List};
ghost use Rattle.net_addresses.specs.Addresses.{NetworkText};
ghost use Rattle.net_addresses.specs.Readings.{Reads};
ghost use Rattle.program_words.specs.Answers.{texts_of};
ghost use Rattle.program_words.specs.Serving.{AreNetworks, HasServeWords, IsCount};

use metrics_core::Memory;
use net_addresses::Network;
use std::alloc::Global;

/// The count and the networks that the words of the command `serve` write, or none where they are another command, where the second is no
/// decimal number of 32 bits, and where one behind it writes no network.
pub(crate) fn serve_words(
    alloc: Global,
    words: &[&str],
) -> Result<Option<(u32, Vec<Network>)>, Memory>
    ensures { IfOk result (λ asked. HasServeWords (texts_of words.now) (option_map
        (λ (count, networks). (count, networks.items)) asked)) }
{
    let [command, count, behind @ ..] = words else {
        return Ok(None);
    };
    if *command != "serve" {
        return Ok(None);
    }
    let Some(count) = read_count(count) else {
        return Ok(None);
    };
    match read_networks(alloc, behind)? {
        Some(networks) => Ok(Some((count, networks))),
        None => Ok(None),
    }
}

/// The networks that texts write, in turn, or none where one of them writes none.
fn read_networks(alloc: Global, texts: &[&str]) -> Result<Option<Vec<Network>>, Memory>
    ensures { IfOk result (λ networks. MatchOption networks ((others : List NetworkText)
        → ¬ (AreNetworks (texts_of texts.now) others))
        (λ networks. AreNetworks (texts_of texts.now) networks.items)) }
{
    let mut networks = Vec::with_capacity(alloc, texts.len())?;
    for text in texts {
        match Network::from_text(text) {
            Some(network) => networks.push(network)?,
            None => return Ok(None),
        }
    }
    Ok(Some(networks))
}

/// The number of 32 bits that a text writes in decimal, without zeros or a sign in front.
pub(crate) fn read_count(text: &str) -> Option<u32>
    ensures { Reads IsCount text.now result }
{
    if !begins_as_number(text.as_bytes()) {
        return None;
    }
    match text.parse::<u32>() {
        Ok(count) => Some(count),
        Err(_) => None,
    }
}

/// Whether a text begins as a decimal number may: without a plus sign, and with a zero only where nothing follows it.
fn begins_as_number(text: &[u8]) -> bool
    ensures { IsTrue result ↔ ((slice_index text.now 0 ≢ 43) × (slice_index text.now 0 ≡ 48
        → length text.now ≡ 1)) }
{
    match text {
        [b'+', ..] => false,
        [b'0', _, ..] => false,
        _ => true,
    }
}
