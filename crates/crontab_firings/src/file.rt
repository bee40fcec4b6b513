// A file read whole: a read that fails is told from the file's end.
ghost use Rattle.std.specs.Prelude.{◌≤◌, ◌<◌, length};
ghost use Rattle.crontab_firings.specs.Files.{TurnIs, TurnTakes, WholeIs, WholeTakes};

use std::io;
use std::io::Read;

// One read, after so many bytes: how many are read in all, or none at the file's end.
fn read_more<R: Read>(file: &mut R, text: &mut [u8], at: usize) -> io::Result<Option<usize>>
    requires { at ≤ length text.old }
    ensures count { TurnIs at text.new result }
    ensures bytes { TurnTakes (R.remaining file.old) (R.remaining file.new) at text.old text.new result }
{
    match file.read(&mut text[at..])? {
        0 => Ok(None),
        n => Ok(Some(at + n)),
    }
}

// How many bytes the file has, or as many as there is room for.
pub fn read<R: Read>(file: &mut R, text: &mut [u8]) -> io::Result<usize>
    ensures count { WholeIs text.new result }
    ensures bytes { WholeTakes (R.remaining file.old) (R.remaining file.new) text.new result }
{
    let mut at = 0;
    while at < text.len() {
        let Some(next) = read_more(file, text, at)? else {
            return Ok(at);
        };
        at = next;
    }
    Ok(at)
}
