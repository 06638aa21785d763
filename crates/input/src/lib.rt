// The input of a program: characters from standard input, turned into bits.
#![tactic(auto)]

ghost use Rattle.std.specs.Prelude.{◌≡◌, [], IfOk};
ghost use Rattle.input.specs.Characters.{Picks};
ghost use Rattle.input.specs.Pieces.{Reads};

use console::Failure;
use std::io::{ErrorKind, Read};

// A piece of the input: its bits, and whether there may be more behind it. A flag beside the bits, since the last piece may have some.
#[derive(Drop)]
pub struct Piece<'a> {
    pub bits: &'a [u8],
    pub more: bool,
}

// The bits of the characters, moved to their front: a newline is skipped, and anything but 0, 1 and newline ends the input. They are
// written where the characters are read, so no iterator can hold these meanwhile.
fn pick_bits(characters: &mut [u8]) -> Piece
    ensures { Picks characters.old result }
{
    let mut bits = 0;
    for i in 0..characters.len() {
        let c = characters[i];
        match c {
            b'\n' => {}
            b'0' | b'1' => {
                characters[bits] = c - b'0';
                bits += 1;
            }
            _ => {
                return Piece {
                    bits: &characters[..bits],
                    more: false,
                };
            }
        }
    }
    Piece {
        bits: &characters[..bits],
        more: true,
    }
}

// Where nothing was read there is no bit.
fn nothing<'a>(more: bool) -> Piece<'a>
    ensures { result.bits.now ≡ [] }
{
    Piece { bits: &[], more }
}

// Reads one piece of the input into the buffer. One that a signal interrupted is empty, with more behind it. One loop for the three
// programs would be public and ask that its closure is callable, and no public function asks anything.
pub fn read_bits<'a>(input: &mut impl Read, buffer: &'a mut [u8]) -> Result<Piece<'a>, Failure>
    ensures { IfOk result (Reads buffer.old) }
{
    match input.read(buffer) {
        Ok(0) => Ok(nothing(false)),
        Ok(n) => Ok(pick_bits(&mut buffer[..n])),
        Err(error) if error.kind() == ErrorKind::Interrupted => Ok(nothing(true)),
        Err(error) => Err(Failure::Input(error)),
    }
}
