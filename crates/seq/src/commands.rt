// The two commands, from bytes to bytes.
ghost use Rattle.std.specs.Prelude.{◌≡◌, ◌<◌, ◌≤◌, length};
ghost use Rattle.seq.specs.Lines.{input_room};
ghost use Rattle.seq.specs.Typing.{text_room};
ghost use Rattle.files.specs.File.{size_in, largest};
ghost use Rattle.seq.specs.Commands.{Saves, Loads};

use crate::lines::{Tally, run_lines};
use crate::typing::type_file;
use part::Part;
use rules::{DONE, Device, MEMORY};

// The tally of a script's lines, and the length of the file, or the number of the library's refusal, as `files::save_from` answers it.
#[derive(Clone, Copy)]
pub struct Saved {
    pub tally: Tally,
    pub len: Result<usize, u8>,
}

// The length that a file's header says.
fn size(file: &[u8]) -> usize
    requires { 12 ≤ length file.now }
    ensures { result ≡ size_in file.now }
{
    usize::from(u16::from_le_bytes([file[10], file[11]]))
}

// Channel c's sequence after a script, as a file.
pub fn save_file(c: u8, script: &[u8], file: &mut [u8]) -> Saved
    requires { (length script.now < input_room) × (largest ≤ length file.old) }
    ensures { Saves c script.now file.old result file.new }
{
    let mut mem = [0; MEMORY];
    let ran = run_lines(script, &mut mem);
    let r = files::save_from(ran.part, &mem, c, file);
    Saved {
        tally: ran.tally,
        len: match r.answer.number {
            DONE => Ok(size(file)),
            number => Err(number),
        },
    }
}

// The script that types a file into channel c of a part after a reset: its length, or the number of the library's refusal.
pub fn load_text(c: u8, file: &[u8], out: &mut [u8]) -> Result<usize, u8>
    requires { text_room ≤ length out.old }
    ensures { Loads c file.now out.old result out.new }
{
    let mut mem = [0; MEMORY];
    let r = files::load_into(Part::new(Device::Pca9663), &mut mem, c, file);
    match r.answer.number {
        DONE => Ok(type_file(c, file, out)),
        number => Err(number),
    }
}
