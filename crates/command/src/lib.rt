// Splits a crontab command into its shell line and its standard input (K1 to K6), into two lent buffers.
// `read` alone knows what a backslash does: lengths and texts are found by its steps.
#![tactic(auto)]

ghost use Rattle.std.specs.Prelude.{◌≡◌, false, ◌≤◌, ◌<◌, eqb, length, get_or, drop, take};
ghost use Rattle.command.specs.Pieces.{percent, pieces, byte_of, bytes_of};
ghost use Rattle.command.specs.Parts.{lengths_of};
ghost use Rattle.octets.specs.OverFront.{over_front};
ghost use Rattle.command.specs.Buffers.{split_step};
ghost use Rattle.std.specs.Iterator.{YieldsFirst, item_count};
ghost use Rattle.command.specs.Inner.{left, text_step, StepIs, ShellIs};

use refusal::Refusal;

// What a command is made of.
#[derive(Clone, Copy)]
enum Piece {
    // A byte of text.
    Byte(u8),
    // A `%` that isn't escaped.
    Percent,
}

// A piece, the place behind it, and whether the byte there is the second of a pair, which is text whatever it is.
#[derive(Clone, Copy)]
struct Step {
    piece: Piece,
    next: usize,
    second: bool,
}

// Where a shell line ends.
#[derive(Clone, Copy)]
enum Shell<'a> {
    // At the command's end, after so many bytes.
    Whole(usize),
    // At an unescaped `%`, after so many bytes; the pieces behind it are the input.
    Cut { length: usize, input: Pieces<'a> },
}

// The length of the shell line, and of standard input: none where the command has no unescaped `%`, 0 where it is empty.
#[derive(Clone, Copy, Debug, PartialEq, Eq)]
pub struct Lengths {
    pub shell: usize,
    pub input: Option<usize>,
}

// Whether a `%` stands at place i.
fn is_percent(c: &[u8], i: usize) -> bool
    ensures { result ≡ eqb (get_or c.now i 0) percent }
{
    c.get(i) == Some(&b'%')
}

// A step over a byte of text.
fn text(b: u8, next: usize, second: bool) -> Step
    ensures { result ≡ text_step b next second }
{
    let piece = Piece::Byte(b);
    Step {
        piece,
        next,
        second,
    }
}

// The step from place i of a command.
fn read(c: &[u8], i: usize, second: bool) -> Step
    requires { i < length c.now }
    ensures { StepIs c.now i second result }
{
    let b = c[i];
    let next = i + 1;
    if second {
        return text(b, next, false);
    }
    if b == b'%' {
        let piece = Piece::Percent;
        return Step {
            piece,
            next,
            second: false,
        };
    }
    if b != b'\\' {
        return text(b, next, false);
    }
    if is_percent(c, next) {
        return text(b'%', next + 1, false);
    }
    text(b, next, true)
}

// The byte that a piece is written as.
fn byte_of(piece: Piece) -> u8
    ensures { result ≡ byte_of piece }
{
    match piece {
        Piece::Byte(b) => b,
        Piece::Percent => b'\n',
    }
}

// The pieces that lie ahead of a place in a command. Where the byte there is the second of a pair, it is text whatever it is.
#[derive(Clone, Copy)]
struct Pieces<'a> {
    command: &'a [u8],
    at: usize,
    second: bool,
}

impl<'a> Iterator for Pieces<'a> {
    type Item = Piece;

    ghost next_gives = { YieldsFirst left };

    ghost remaining = { item_count left };

    fn next(&mut self) -> Option<Piece> {
        if self.command.len() <= self.at {
            return None;
        }
        let step = read(self.command, self.at, self.second);
        self.at = step.next;
        self.second = step.second;
        Some(step.piece)
    }
}

// All pieces of a command.
#[tactic(auto, unfolding(crate::specs::Inner::ahead))]
fn pieces_of(c: &[u8]) -> Pieces<'_>
    ensures { left result ≡ pieces false c.now }
{
    Pieces {
        command: c,
        at: 0,
        second: false,
    }
}

// Where the shell line ends.
fn shell_end(c: &[u8]) -> Shell<'_>
    ensures { ShellIs c.now result }
{
    let mut pieces = pieces_of(c);
    let mut length = 0;
    while let Some(piece) = pieces.next() {
        if let Piece::Percent = piece {
            return Shell::Cut {
                length,
                input: pieces,
            };
        }
        length += 1;
    }
    Shell::Whole(length)
}

fn count(pieces: Pieces<'_>) -> usize
    ensures { result ≡ length (left pieces.entry) }
{
    pieces.count()
}

// Writes the bytes of the first n pieces to the front of a buffer.
fn fill(pieces: Pieces<'_>, n: usize, out: &mut [u8])
    requires { (n ≤ length (left pieces)) × (n ≤ length out.old) }
    ensures { out.new ≡ over_front (take n (bytes_of (left pieces.entry))) out.old }
{
    let mut pieces = pieces;
    for k in 0..n {
        let piece = pieces.next().unwrap();
        out[k] = byte_of(piece);
    }
}

// The lengths of a command's shell line and standard input.
pub fn measure(c: &[u8]) -> Lengths
    ensures { result ≡ lengths_of c.now }
{
    match shell_end(c) {
        Shell::Whole(n) => Lengths {
            shell: n,
            input: None,
        },
        Shell::Cut { length, input } => Lengths {
            shell: length,
            input: Some(count(input)),
        },
    }
}

// Writes a command's shell line and standard input to the fronts of two buffers; where either is too short, writes nothing.
pub fn split(c: &[u8], shell: &mut [u8], input: &mut [u8]) -> Result<Lengths, Refusal>
    ensures answer { result ≡ (split_step c.now shell.old input.old).answer }
    ensures shell { shell.new ≡ (split_step c.now shell.old input.old).shell }
    ensures input { input.new ≡ (split_step c.now shell.old input.old).input }
{
    match shell_end(c) {
        Shell::Whole(n) => {
            if shell.len() < n {
                return Err(Refusal::TooShort);
            }
            fill(pieces_of(c), n, shell);
            Ok(Lengths {
                shell: n,
                input: None,
            })
        }
        Shell::Cut {
            length,
            input: rest,
        } => {
            let m = count(rest);
            let lengths = Lengths {
                shell: length,
                input: Some(m),
            };
            if (shell.len() < length) | (input.len() < m) {
                return Err(Refusal::TooShort);
            }
            fill(pieces_of(c), length, shell);
            fill(rest, m, input);
            Ok(lengths)
        }
    }
}
