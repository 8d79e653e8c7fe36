//! Rows as the table writes them.

use std::alloc::Global;
use std::io;
use std::io::ErrorKind;

/// A device of a row: how many bytes a call moves at most, and the numbers of the calls that fail, counted from 0.
#[derive(Drop)]
pub struct Device {
    pub most: usize,
    pub failing: Vec<u64>,
}

/// Bytes that are left out of a file of a row: those from a place up to another.
#[derive(Drop)]
pub struct Cut {
    /// The ending of the file's name.
    pub file: String,
    pub from: usize,
    pub to: usize,
}

/// A row, or one of its runs: the status that must come, and the run.
#[derive(Drop)]
pub struct Row {
    pub name: String,
    /// The number of the run, as it is written.
    pub number: String,
    pub status: String,
    /// The words after the program's name, joined by commas.
    pub words: String,
    /// The row whose files stand in for those that this one doesn't have.
    pub like: String,
    /// How many zero bytes the script is, where it isn't a file.
    pub zeros: usize,
    pub source: Device,
    pub out: Device,
    pub err: Device,
    /// The numbers of the sends that fail, counted from 0.
    pub unsent: Vec<u64>,
    /// The numbers of the accepts that fail, counted from 0.
    pub unaccepted: Vec<u64>,
    /// What is left out of its files.
    pub cuts: Vec<Cut>,
}

/// The numbers of the runs of a line of the table: the first, and the one behind the last.
pub fn runs_of(line: &str) -> io::Result<(usize, usize)> {
    for setting in line.split(' ') {
        if let Some(range) = setting.strip_prefix("runs=") {
            return read_range(range);
        }
    }
    Ok((0, 1))
}

/// Reads a line of the table, for the run with a number.
pub fn read_row(alloc: Global, line: &str, number: usize) -> io::Result<Row> {
    let number = format!(in alloc; "{number}")?;
    let line = with_number(alloc, line, &number)?;
    let (name, rest) = line.split_once(' ').unwrap_or((&line, ""));
    let (status, settings) = rest.split_once(' ').unwrap_or((rest, ""));
    let mut row = plain_row(alloc, name, status, number)?;
    set_all(alloc, &mut row, settings)?;
    Ok(row)
}

/// A text in which the number of a run stands for each `{run}`.
pub fn with_number(alloc: Global, text: &str, number: &str) -> io::Result<String> {
    Ok(text.replace(alloc, "{run}", number)?)
}

/// A row of the word `drive` over its own files and devices that don't fail.
fn plain_row(alloc: Global, name: &str, status: &str, number: String) -> io::Result<Row> {
    let words = "drive".to_string(alloc)?;
    let status = status.to_string(alloc)?;
    let like = name.to_string(alloc)?;
    Ok(Row {
        name: name.to_string(alloc)?,
        number,
        status,
        words,
        like,
        zeros: 0,
        source: sound_device(alloc),
        out: sound_device(alloc),
        err: sound_device(alloc),
        unsent: Vec::new(alloc),
        unaccepted: Vec::new(alloc),
        cuts: Vec::new(alloc),
    })
}

/// A device that doesn't fail.
pub fn sound_device(alloc: Global) -> Device {
    Device {
        most: 65536,
        failing: Vec::new(alloc),
    }
}

/// Takes settings over, one after another.
fn set_all(alloc: Global, row: &mut Row, settings: &str) -> io::Result<()> {
    for setting in settings.split(' ') {
        if !setting.is_empty() {
            set(alloc, row, setting)?;
        }
    }
    Ok(())
}

/// Takes one setting over.
fn set(alloc: Global, row: &mut Row, setting: &str) -> io::Result<()> {
    let (name, value) = setting.split_once('=').unwrap_or((setting, ""));
    match name {
        "words" => row.words = value.to_string(alloc)?,
        "like" => row.like = value.to_string(alloc)?,
        "runs" => (),
        "lacks" => row.cuts.push(read_cut(alloc, value)?)?,
        "zeros" => row.zeros = count(value)?,
        "reads-of" => row.source.most = count(value)?,
        "writes-of" => row.out.most = count(value)?,
        "says-of" => row.err.most = count(value)?,
        "read-fails" => add(&mut row.source.failing, value)?,
        "write-fails" => add(&mut row.out.failing, value)?,
        "say-fails" => add(&mut row.err.failing, value)?,
        "send-fails" => add(&mut row.unsent, value)?,
        "accept-fails" => add(&mut row.unaccepted, value)?,
        _ => return Err(io::Error::from(ErrorKind::InvalidData)),
    }
    Ok(())
}

/// A number of bytes of at least 1.
pub fn count(value: &str) -> io::Result<usize> {
    match value.parse::<usize>() {
        Ok(number) => Ok(number.max(1)),
        Err(_) => Err(io::Error::from(ErrorKind::InvalidData)),
    }
}

/// Adds the number of a call that fails.
pub fn add(failing: &mut Vec<u64>, value: &str) -> io::Result<()> {
    match value.parse::<u64>() {
        Ok(number) => Ok(failing.push(number)?),
        Err(_) => Err(io::Error::from(ErrorKind::InvalidData)),
    }
}

/// Reads what is left out of a file: the ending of its name, a comma, and a range.
fn read_cut(alloc: Global, value: &str) -> io::Result<Cut> {
    let (file, range) = value.split_once(',').unwrap_or((value, ""));
    let (from, to) = read_range(range)?;
    let file = file.to_string(alloc)?;
    Ok(Cut { file, from, to })
}

/// Reads a range: where it begins, two points, and where it ends, which is not below that.
fn read_range(range: &str) -> io::Result<(usize, usize)> {
    match range.split_once("..") {
        Some((from, to)) => ordered(read_sum(from)?, read_sum(to)?),
        None => Err(io::Error::from(ErrorKind::InvalidData)),
    }
}

/// Two ends of a range, in their order.
fn ordered(from: usize, to: usize) -> io::Result<(usize, usize)> {
    if to < from {
        return Err(io::Error::from(ErrorKind::InvalidData));
    }
    Ok((from, to))
}

/// Reads a number, or several with a `+` between two, which are added.
fn read_sum(text: &str) -> io::Result<usize> {
    let mut sum = 0usize;
    for part in text.split('+') {
        match part.parse::<usize>() {
            Ok(number) => sum = sum.saturating_add(number),
            Err(_) => return Err(io::Error::from(ErrorKind::InvalidData)),
        }
    }
    Ok(sum)
}
