//! `flashplay cuts`: plays a trace over a modelled chip, whose power is cut and whose commands fail by a seed.
#![tactic(auto)]

mod arguments;
mod device;
mod harm;
mod stop;

use answers::{Reply, RunFault, read_commands, send};
use arguments::{Given, read_given};
use device::Device;
use nand::Failure;
use std::alloc::{AllocError, Global};
use std::env;
use std::io::Write;
use std::process::ExitCode;
use stop::Stop;
use trace::{Command, Commands, Watched};

// How many bytes of answers wait before they are written.
const PIECE_BYTES: usize = 65_536;

fn main(rt: HostRuntime) -> ExitCode {
    match session(&rt) {
        Ok(()) => ExitCode::from(0),
        Err(stop) => {
            let _ = eprint!(rt; "{stop}");
            ExitCode::from(stop.status())
        }
    }
}

fn session(rt: &HostRuntime) -> Result<(), Stop> {
    let alloc = rt.alloc();
    let mut arguments = Vec::new(alloc);
    arguments.push(String::from_str(alloc, "flashplay cuts")?)?;
    let Ok(given) = env::args(rt) else {
        return Err(Stop::Run(RunFault::Memory));
    };
    for argument in given.skip(1) {
        arguments.push(argument)?;
    }
    let mut words = Vec::new(alloc);
    for argument in &arguments {
        words.push(argument.as_str())?;
    }
    let mut output = Watched::new(rt.stdout());
    let Some(given) = read_given(alloc, &words, &mut output)? else {
        return Ok(());
    };
    match read_commands(alloc, &mut Watched::new(rt.stdin()), &given.geometry) {
        Ok(commands) => play(alloc, &given, &commands, &mut output),
        Err(fault) => Err(Stop::Run(RunFault::Trace(fault))),
    }
}

// Plays the commands, and writes their answers and the last line.
fn play<W: Write>(
    alloc: Global,
    given: &Given,
    commands: &Commands,
    output: &mut Watched<W>,
) -> Result<(), Stop> {
    let mut page = vec![in alloc; 0u8; given.geometry.page_bytes()]?;
    let mut device = Device::new(alloc, given, commands.len())?;
    let mut lines = String::new(alloc);
    for i in 0..commands.len() {
        let command = commands.command(i);
        let line = i as u64 + 1;
        device = answered(alloc, device, &command, line, &mut page, &mut lines)?;
        if lines.len() >= PIECE_BYTES {
            hand_on(&mut lines, output)?;
        }
    }
    put_end(device, &mut lines)?;
    hand_on(&mut lines, output)
}

// Makes a call until it isn't cut, and adds a line for each time.
fn answered(
    alloc: Global,
    device: Device,
    command: &Command<'_>,
    line: u64,
    page: &mut [u8],
    lines: &mut String,
) -> Result<Device, Stop> {
    let mut device = device;
    for _ in 0..u32::MAX {
        let answer = device.call(command, page);
        put_line(alloc, lines, line, command, answer, page)?;
        match answer {
            Ok(_) => return device.after_failure(),
            Err(Failure::PowerGone) => device = device.mounted()?,
            Err(_) => return Err(Stop::Run(RunFault::Memory)),
        }
    }
    Err(Stop::Run(RunFault::Memory))
}

fn put_line(
    alloc: Global,
    lines: &mut String,
    line: u64,
    command: &Command<'_>,
    answer: Result<Reply, Failure>,
    page: &[u8],
) -> Result<(), AllocError> {
    let (op, sector) = (command.op.name(), command.sector);
    write!(lines, "{line},{op},{sector},")?;
    match answer {
        Ok(Reply::Page) => lines.push_str(&hex::encode(alloc, page)?)?,
        Ok(Reply::Empty) => lines.push_str("empty")?,
        Ok(Reply::Written) => lines.push_str("written")?,
        Ok(_) => lines.push_str("met")?,
        Err(_) => lines.push_str("cut")?,
    }
    lines.push_str("\n")
}

fn put_end(device: Device, lines: &mut String) -> Result<(), AllocError> {
    let (tally, cuts, bad) = device.end();
    let (programs, copies, erases) = (tally.programs, tally.copies, tally.erases);
    write!(lines, "end,{programs},{copies},{erases},{cuts},{bad}\n")
}

// Writes the lines that wait.
fn hand_on<W: Write>(lines: &mut String, output: &mut Watched<W>) -> Result<(), Stop> {
    if send(output, lines.as_bytes()).is_err() {
        return Err(Stop::Run(RunFault::Output));
    }
    lines.clear();
    Ok(())
}
