// Prints the firings of a user table after minute a and up to minute b, by minute and then entry (X1): its arguments are a file
// name, a and b. The list may have any length: it is made and printed in pieces.
#![tactic(auto)]

mod file;
mod lines;
mod number;
mod piece;

ghost use Rattle.std.specs.Prelude.{◌≡◌, ◌⊎◌, ◌<◌, IfOk};

use crontab::MAX_TABLE;
use piece::Piece;
use std::env::FillError;
use std::io::Read;
use std::rt::{Env, Files};
use std::{fs, io, str};

// As long as an argument can be on Linux.
const MAX_ARGUMENT: usize = 131_072;

// As long as the name of a file can be on Linux.
const MAX_NAME: usize = 4096;

fn refuse(rt: &impl Print, number: u8) -> io::Result<()> {
    println!(rt; "refused {number}")
}

// Prints the firings after a minute, or the refusal. Answers the minute after which the list goes on, b where it ends.
fn print_piece(rt: &impl Print, table: &[u8], a: u64, b: u64) -> io::Result<u64>
    ensures { IfOk result (λ next. (next ≡ b) ⊎ ((a < next) × (next < b))) }
{
    let mut text = [0u8; piece::ROOM];
    match piece::write(table, a, b, &mut text) {
        Ok(Piece { size, next }) => {
            rt.write_all(&text[..size])?;
            Ok(next)
        }
        Err(refusal) => {
            refuse(rt, u8::from(refusal))?;
            Ok(b)
        }
    }
}

// Piece by piece, each of which goes on where the one before it ended.
fn print_all(rt: &impl Print, table: &[u8], a: u64, b: u64) -> io::Result<()> {
    let mut from = print_piece(rt, table, a, b)?;
    while from < b {
        from = print_piece(rt, table, from, b)?;
    }
    Ok(())
}

// A number among the arguments, none where it isn't one.
fn argument(rt: &impl Env, i: usize) -> Option<u64> {
    let mut text = [0u8; MAX_ARGUMENT];
    let n = rt.arg(i, &mut text).ok()?;
    number::read(&text[..n])
}

// Whether argument i is given, however long.
fn has_argument(rt: &impl Env, i: usize) -> bool {
    let mut text = [0u8; 1];
    !matches!(rt.arg(i, &mut text), Err(FillError::NotPresent))
}

// Opens the file that the first argument names, none where it can't be.
fn open_file<R: Env + Files>(rt: &R) -> Option<R::File> {
    let mut text = [0u8; MAX_NAME];
    let n = rt.arg(1, &mut text).ok()?;
    let name = str::from_utf8(&text[..n]).ok()?;
    fs::open(rt, name).ok()
}

// A byte more than a table may have is read, so that too long a file is refused as such.
fn print_file(rt: &impl Print, file: &mut impl Read, a: u64, b: u64) -> io::Result<()> {
    let mut table = [0u8; MAX_TABLE + 1];
    match file::read(file, &mut table) {
        Ok(n) => print_all(rt, &table[..n], a, b),
        Err(_) => refuse(rt, 0),
    }
}

fn main(rt: HostRuntime) -> io::Result<()> {
    let file = open_file(&rt);
    let a = argument(&rt, 2);
    let b = argument(&rt, 3);
    if !has_argument(&rt, 3) || has_argument(&rt, 4) {
        return refuse(&rt, 0);
    }
    let (Some(mut file), Some(after), Some(last)) = (file, a, b) else {
        return refuse(&rt, 0);
    };
    print_file(&rt, &mut file, after, last)
}
