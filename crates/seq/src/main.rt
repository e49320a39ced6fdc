// Sequence files from scripts, and scripts from sequence files. Standard input has a command, `save c` or `load c`, as its first line, and behind it a script
// or a file; standard output gets a line with a number, and behind it as many bytes of the file or the script. What is wrong is said on standard error.
#![tactic(auto)]

mod commands;
mod lines;
mod typing;

ghost use Rattle.std.specs.Prelude.{◌≡◌, ◌<◌, ◌≤◌, length};
ghost use Rattle.seq.specs.Lines.{input_room};

use files::{Fault, LARGEST};
use lines::Tally;
use rules::{LOCKED, NO_ROOM, NOT_A_FILE, NOWHERE};
use std::io::Read;

// All of the input has to be shorter (`input_room`).
const INPUT: usize = 1048576;

// The bytes of the command's line.
const COMMAND: usize = 7;

// Those of the longest script that types a file (`text_room`).
const TEXT: usize = 35872;

// ---- what is said: a write to standard error that fails is left, since nothing else could tell it

// Nothing is lost in silence: the lines that were refused, and the first of them.
fn say_refused(err: &impl Eprint, tally: Tally) {
    let Some(first) = tally.first else {
        return;
    };
    let lines = if tally.refused == 1 {
        "line was refused, it"
    } else {
        "lines were refused, the first"
    };
    let _ = eprintln!(err;
        "seq: {} {lines} is line {} with no. {}",
        tally.refused, first.line, first.number
    );
}

// Why a file can't be read.
fn reason(fault: Fault) -> &'static str {
    match fault {
        Fault::NoHeader => "the file has fewer than 12 bytes",
        Fault::Crowded => "the file's count is above 64",
        Fault::Short => "the file ends before its blocks do",
        Fault::Overfull => "the file's lengths sum above 4,352",
        Fault::Longer => "bytes follow the file",
        Fault::Forged => { "the file's header is not the one that its count and its lengths force" }
    }
}

// Why a channel's sequence is neither written nor read. No. 9 can't come: the memory and the part are the program's own.
fn say_refusal(err: &impl Eprint, number: u8, c: u8) {
    let _ = match number {
        NOWHERE => eprintln!(err; "seq: no. 1: there is no channel {c}"),
        LOCKED => eprintln!(err; "seq: no. 3: channel {c} is active"),
        NO_ROOM => eprintln!(err; "seq: no. 11: the lengths of channel {c} sum above 4,352"),
        _ => Ok(()),
    };
}

// Writes the bytes, and before them a line that says how many they are, so that an output that was cut is told from a whole one.
fn write_whole(rt: &(impl Print + Eprint), bytes: &[u8]) {
    if println!(rt; "{}", bytes.len()).is_err() || rt.write_all(bytes).is_err() {
        let _ = eprintln!(rt; "seq: the output could not be written");
    }
}

// ---- the two commands

fn save(rt: &(impl Print + Eprint), c: u8, script: &[u8])
    requires { length script.now < input_room }
{
    let mut file = [0; LARGEST];
    let saved = commands::save_file(c, script, &mut file);
    say_refused(rt, saved.tally);
    match saved.len {
        Ok(len) => write_whole(rt, &file[..len]),
        Err(number) => say_refusal(rt, number, c),
    }
}

fn load(rt: &(impl Print + Eprint), c: u8, file: &[u8]) {
    let mut text = [0; TEXT];
    match commands::load_text(c, file, &mut text) {
        Ok(len) => write_whole(rt, &text[..len]),
        Err(NOT_A_FILE) => {
            if let Err(fault) = files::fault_of(file) {
                let _ = eprintln!(rt; "seq: no. 10: {}", reason(fault));
            }
        }
        Err(number) => say_refusal(rt, number, c),
    }
}

fn input() -> [u8; INPUT]
    ensures { length result ≡ input_room }
{
    [0; INPUT]
}

// Reads until the buffer is full, the input ends or a read fails, and gives how many bytes it put at the buffer's start. By hand, into the buffer itself:
// `io::copy` reads once more when the buffer is full, takes bytes that have no room, and keeps 8,192 of a message at most.
fn read_full(input: &mut impl Read, buf: &mut [u8]) -> usize
    ensures { result ≤ length buf.new }
{
    let mut done = 0;
    while done < buf.len() {
        let Ok(n) = input.read(&mut buf[done..]) else {
            break;
        };
        if n == 0 {
            break;
        }
        done += n;
    }
    done
}

fn main(rt: HostRuntime) {
    let mut all = input();
    let n = read_full(&mut rt.stdin(), &mut all);
    if n == INPUT {
        let _ = eprintln!(rt; "seq: standard input has more than 1,048,568 bytes");
        return;
    }
    if n < COMMAND {
        let _ = eprintln!(rt; "seq: no command");
        return;
    }
    // the sixth byte is the channel's digit, which its low four bits tell
    let c = all[5] % 16;
    let rest = &all[COMMAND..n];
    // the command is `save` or `load`, as ./seq says it: its first letter tells which
    match all[0] {
        b's' => save(&rt, c, rest),
        b'l' => load(&rt, c, rest),
        _ => {
            let _ = eprintln!(rt; "seq: no command");
        }
    }
}
