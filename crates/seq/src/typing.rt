// The lines that type a sequence file, as ./bench reads them: a write each.
ghost use Rattle.std.specs.Prelude.{◌∷◌, [], ◌≡◌, ◌+◌, ◌*◌, ◌<◌, ◌≤◌, length};
ghost use Rattle.rules.specs.Numbers.{buffer_size};
ghost use Rattle.answers.specs.Answer.{Put};
ghost use Rattle.files.specs.File.{Readable};
ghost use Rattle.files.specs.Typed.{each_to};
ghost use Rattle.seq.specs.Typing.{write, script_of, blocks_typed, typing_all, text_room};

use files::HEADER;
use letters::hex;
use rules::byte;

// Puts the line `W aa dd` at a place, and gives the place after it.
#[tactic(auto, unfolding(crate::specs::Typing::script_of))]
fn put_write(out: &mut [u8], at: usize, a: u8, v: u8) -> usize
    requires { at + 8 ≤ length out.old }
    ensures { Put out.old at (script_of (write a v ∷ [])) result out.new × (result ≡ at + 8) }
{
    let [page, place] = hex(a);
    let [high, low] = hex(v);
    answers::put(out, at, &[b'W', b' ', page, place, b' ', high, low, b'\n'])
}

// A line for each byte, all to one address. The promise speaks of the place where the first one stands, so `at` stays.
fn put_each(out: &mut [u8], at: usize, a: u8, bytes: &[u8]) -> usize
    requires { at + 8 * length bytes.now ≤ length out.old }
    ensures { Put out.old at (script_of (each_to a bytes.now)) result out.new × (result ≡ at + 8 * length bytes.now) }
{
    let mut next = at;
    for &v in bytes {
        next = put_write(out, next, a, v);
    }
    next
}

// The script that types the blocks of a file to the registers from base on: pointers reset, TRANCONFIG before DATA, pointers reset again.
// `blocks_typed` takes what the file has one by one.
fn type_blocks(
    base: u8,
    count: u8,
    addresses: &[u8],
    lengths: &[u8],
    bytes: &[u8],
    out: &mut [u8],
) -> usize
    requires { (base < 240) × (length addresses.now ≤ 64) × (length lengths.now ≤ 64) × (length bytes.now ≤ buffer_size) × (text_room ≤ length out.old) }
    ensures { Put out.old 0 (script_of (blocks_typed base count addresses.now lengths.now bytes.now)) result out.new × (result ≤ text_room) }
{
    let at = put_write(out, 0, base + 6, 0);
    let at = put_write(out, at, base, 2);
    let at = put_write(out, at, base + 4, count);
    let at = put_each(out, at, base + 4, lengths);
    let at = put_each(out, at, base + 3, addresses);
    let at = put_each(out, at, base + 5, bytes);
    put_write(out, at, base, 2)
}

// The script that types a file into channel c.
pub fn type_file(c: u8, file: &[u8], out: &mut [u8]) -> usize
    requires { (c < 3) × Readable file.now × (text_room ≤ length out.old) }
    ensures { Put out.old 0 (script_of (typing_all c file.now)) result out.new × (result ≤ text_room) }
{
    let count = file[0];
    let n = byte(count);
    let lengths = HEADER + n;
    let data = lengths + n;
    let base = 0xC0 + 16 * c;
    type_blocks(
        base,
        count,
        &file[HEADER..lengths],
        &file[lengths..data],
        &file[data..],
        out,
    )
}
