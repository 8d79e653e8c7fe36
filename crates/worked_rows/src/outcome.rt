//! What comes of a row, beside what must come.

use crate::links::RowLink;
use crate::peers::{add_peers, answers_of};
use crate::row::{Cut, Device, Row, with_number};
use dsd_addresses::RemoteAddr;
use dsd_exporter::MemoryLink;
use metrics_core::{MemorySink, MemorySource};
use program_words::answer;
use prom_serve::MemoryListener;
use script_player::{Free, default_agent};
use std::alloc::Global;
use std::io::ErrorKind;
use std::net::{Net, TcpListener, TcpStream};
use std::random::RandomSource;
use std::rt::Files;
use std::sync::Wait;
use std::thread::Threads;
use std::{fs, io, str};

/// What a run ended with, wrote, said, sent and answered, and whether its link was aimed and handed payloads as it says.
#[derive(Drop)]
struct Outcome {
    status: String,
    pages: Vec<u8>,
    said: Vec<u8>,
    sent: Vec<u8>,
    answers: Vec<u8>,
    well_sent: bool,
}

/// What a run is over.
#[derive(Drop)]
struct Devices {
    source: MemorySource,
    out: MemorySink,
    err: MemorySink,
    link: RowLink,
    listener: MemoryListener,
}

/// Whether what comes of a row is what must come. Where it isn't, it is printed.
pub fn holds<
    R: Files
        + AllocGlobal
        + Print
        + Net<Listener = TcpListener, Stream = TcpStream>
        + RandomSource
        + Threads
        + Wait
        + Sync,
>(rt: &R, alloc: Global, row: &Row) -> io::Result<bool> {
    let outcome = outcome_of(rt, alloc, row)?;
    is_told_right(rt, alloc, row, &outcome)
}

/// Whether an outcome is what must come. Where it isn't, it is printed.
fn is_told_right<R: Files + AllocGlobal + Print>(
    rt: &R,
    alloc: Global,
    row: &Row,
    outcome: &Outcome,
) -> io::Result<bool> {
    let same = outcome.status == row.status
        && is_wanted(rt, alloc, row, "said", &outcome.said)?
        && (is_wanted(rt, alloc, row, "page", &outcome.pages)?
            || is_other(rt, alloc, row, "other", &outcome.pages)?)
        && (is_wanted(rt, alloc, row, "sent", &outcome.sent)?
            || is_other(rt, alloc, row, "other-sent", &outcome.sent)?)
        && is_wanted(rt, alloc, row, "answers", &outcome.answers)?
        && outcome.well_sent;
    if !same {
        print_outcome(rt, alloc, row, outcome)?;
    }
    Ok(same)
}

/// Plays a row over devices in memory.
fn outcome_of<
    R: Files
        + AllocGlobal
        + Net<Listener = TcpListener, Stream = TcpStream>
        + RandomSource
        + Threads
        + Wait
        + Sync,
>(rt: &R, alloc: Global, row: &Row) -> io::Result<Outcome> {
    let mut devices = devices_of(rt, alloc, row)?;
    let peers = add_peers_of(rt, alloc, row, &mut devices.listener)?;
    let status = played(rt, alloc, row, &mut devices)?;
    let answers = answers_of(alloc, &mut devices.listener, peers)?;
    told(alloc, row, status, answers, &devices)
}

/// The devices of a row.
fn devices_of<R: Files + AllocGlobal>(rt: &R, alloc: Global, row: &Row) -> io::Result<Devices> {
    let failing = row.source.failing.to_vec(alloc)?;
    let unsent = row.unsent.to_vec(alloc)?;
    let unaccepted = row.unaccepted.to_vec(alloc)?;
    let script = script_of(rt, alloc, row)?;
    Ok(Devices {
        source: MemorySource::new(script, row.source.most.max(1), failing),
        out: sink(alloc, &row.out)?,
        err: sink(alloc, &row.err)?,
        link: RowLink::new(alloc, unsent),
        listener: MemoryListener::new(alloc, unaccepted),
    })
}

/// Lets the peers of a row wait at a listener, and answers how many they are.
fn add_peers_of<R: Files + AllocGlobal>(
    rt: &R,
    alloc: Global,
    row: &Row,
    listener: &mut MemoryListener,
) -> io::Result<usize> {
    match file(rt, alloc, row, "peers")? {
        Some(peers) => add_peers(alloc, listener, &peers),
        None => Ok(0),
    }
}

/// Runs a row over its devices, and answers the status.
fn played<
    R: Net<Listener = TcpListener, Stream = TcpStream> + RandomSource + Threads + Wait + Sync,
>(rt: &R, alloc: Global, row: &Row, devices: &mut Devices) -> io::Result<u8> {
    let words = words_of(alloc, &row.words)?;
    let Devices {
        source,
        out,
        err,
        link,
        listener,
    } = devices;
    Ok(answer(rt, alloc, &words, source, out, err, link, &Free, listener))
}

/// The outcome of a run that ended with a status and gave answers, with what the devices were given.
fn told(
    alloc: Global,
    row: &Row,
    status: u8,
    answers: Vec<u8>,
    devices: &Devices,
) -> io::Result<Outcome> {
    let well_sent = is_well_sent(alloc, row, status, devices)?;
    let status = format!(in alloc; "{status}")?;
    let pages = devices.out.written().to_vec(alloc)?;
    let said = devices.err.written().to_vec(alloc)?;
    let sent = sent_by(alloc, devices.link.link())?;
    Ok(Outcome {
        status,
        pages,
        said,
        sent,
        answers,
        well_sent,
    })
}

/// Whether a run that was played sent each payload to the address of its words, handed it over once, and aimed before the first; and whether any other run left
/// the link as it was.
fn is_well_sent(alloc: Global, row: &Row, status: u8, devices: &Devices) -> io::Result<bool> {
    let played = status == 0 || status == 7;
    match row.words.split(',').next() {
        Some("drive") if played => {
            let to = address_of(alloc, &row.words)?;
            Ok(devices.link.is_aimed_at(&to) && is_handed_once(devices))
        }
        _ => Ok(devices.link.is_untouched()),
    }
}

/// The address that words say that payloads go to.
fn address_of(alloc: Global, words: &str) -> io::Result<RemoteAddr> {
    let Some((_command, address)) = words.split_once(',') else {
        return Ok(default_agent());
    };
    match RemoteAddr::from_text(alloc, address) {
        Ok(to) => Ok(to),
        Err(_) => Err(io::Error::from(ErrorKind::InvalidData)),
    }
}

/// Whether a link was handed as many payloads as the report counts, where there is a report.
fn is_handed_once(devices: &Devices) -> bool {
    let said = str::from_utf8(devices.err.written()).unwrap_or("");
    match (number_behind(said, "sent "), number_behind(said, "unsent ")) {
        (Some(sent), Some(unsent)) => devices.link.tries() == sent.saturating_add(unsent),
        _ => true,
    }
}

/// The number behind the first of these words in a text.
fn number_behind(text: &str, words: &str) -> Option<u64> {
    let (_before, behind) = text.split_once(words)?;
    let (number, _rest) = behind.split_once(' ')?;
    number.parse().ok()
}

/// The payloads that a link sent, each with an empty line behind it.
fn sent_by(alloc: Global, link: &MemoryLink) -> io::Result<Vec<u8>> {
    let mut bytes = Vec::new(alloc);
    for payload in link.sent() {
        bytes.extend_from_slice(payload.bytes())?;
        bytes.push(b'\n')?;
    }
    Ok(bytes)
}

/// The words of a row.
fn words_of(alloc: Global, words: &str) -> io::Result<Vec<&str>> {
    let mut list = Vec::new(alloc);
    if words.is_empty() {
        return Ok(list);
    }
    for word in words.split(',') {
        list.push(word)?;
    }
    Ok(list)
}

/// A sink that behaves as a row says.
fn sink(alloc: Global, device: &Device) -> io::Result<MemorySink> {
    let failing = device.failing.to_vec(alloc)?;
    Ok(MemorySink::new(alloc, device.most.max(1), failing))
}

/// The script of a row.
fn script_of<R: Files + AllocGlobal>(rt: &R, alloc: Global, row: &Row) -> io::Result<Vec<u8>> {
    if row.zeros > 0 {
        return Ok(vec![in alloc; 0u8; row.zeros]?);
    }
    match file(rt, alloc, row, "script")? {
        Some(script) => Ok(script),
        None => Err(io::Error::from(ErrorKind::NotFound)),
    }
}

/// Whether these are the bytes of a row's file with an ending; where the file isn't there, whether there are none.
fn is_wanted<R: Files + AllocGlobal>(
    rt: &R,
    alloc: Global,
    row: &Row,
    ending: &str,
    bytes: &[u8],
) -> io::Result<bool> {
    match file(rt, alloc, row, ending)? {
        Some(wanted) => Ok(wanted.as_slice() == bytes),
        None => Ok(bytes.is_empty()),
    }
}

/// Whether these are the bytes of a row's file with an ending for what may come in another's place.
fn is_other<R: Files + AllocGlobal>(
    rt: &R,
    alloc: Global,
    row: &Row,
    ending: &str,
    bytes: &[u8],
) -> io::Result<bool> {
    match file(rt, alloc, row, ending)? {
        Some(wanted) => Ok(wanted.as_slice() == bytes),
        None => Ok(false),
    }
}

/// The file of a row with an ending, as the row's run takes it.
fn file<R: Files + AllocGlobal>(
    rt: &R,
    alloc: Global,
    row: &Row,
    ending: &str,
) -> io::Result<Option<Vec<u8>>> {
    let Some(mut bytes) = file_of(rt, alloc, row, ending)? else {
        return Ok(None);
    };
    for cut in &row.cuts {
        if cut.file.as_str() == ending {
            leave_out(&mut bytes, cut)?;
        }
    }
    if ending == "peers" || ending == "answers" {
        return Ok(Some(numbered(alloc, bytes, &row.number)?));
    }
    Ok(Some(bytes))
}

/// Leaves bytes of a file out, which must be there.
fn leave_out(bytes: &mut Vec<u8>, cut: &Cut) -> io::Result<()> {
    let (from, to) = (cut.from, cut.to);
    if to < from || bytes.len() < to {
        return Err(io::Error::from(ErrorKind::InvalidData));
    }
    bytes.drain(from..to);
    Ok(())
}

/// The bytes of a file in which the number of a run stands for each `{run}`, where they are text.
fn numbered(alloc: Global, bytes: Vec<u8>, number: &str) -> io::Result<Vec<u8>> {
    match str::from_utf8(&bytes) {
        Ok(text) => Ok(with_number(alloc, text, number)?.into_bytes()),
        Err(_) => Ok(bytes),
    }
}

/// The file of a row with an ending, or that of the row which it is like.
fn file_of<R: Files + AllocGlobal>(
    rt: &R,
    alloc: Global,
    row: &Row,
    ending: &str,
) -> io::Result<Option<Vec<u8>>> {
    match file_at(rt, alloc, &row.name, ending)? {
        Some(bytes) => Ok(Some(bytes)),
        None => file_at(rt, alloc, &row.like, ending),
    }
}

/// The file with a name and an ending, where there is one.
fn file_at<R: Files + AllocGlobal>(
    rt: &R,
    alloc: Global,
    name: &str,
    ending: &str,
) -> io::Result<Option<Vec<u8>>> {
    match fs::read(rt, format!(in alloc; "{name}.{ending}")?) {
        Ok(bytes) => Ok(Some(bytes)),
        Err(error) if error.kind() == ErrorKind::NotFound => Ok(None),
        Err(error) => Err(error),
    }
}

/// Prints what came of a row that differs.
fn print_outcome<R: AllocGlobal + Print>(
    rt: &R,
    alloc: Global,
    row: &Row,
    outcome: &Outcome,
) -> io::Result<()> {
    let pages = String::from_utf8_lossy(alloc, &outcome.pages)?;
    let said = String::from_utf8_lossy(alloc, &outcome.said)?;
    println!(rt;
        "{} differs in run {}: status {}, said {}",
        row.name,
        row.number,
        outcome.status,
        said.trim()
    )?;
    println!(rt; "{pages}")?;
    let sent = String::from_utf8_lossy(alloc, &outcome.sent)?;
    println!(rt; "{sent}")?;
    let answers = String::from_utf8_lossy(alloc, &outcome.answers)?;
    println!(rt; "{answers}")
}
