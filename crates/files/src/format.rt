// The file: a header of 12 bytes, and behind it addresses, lengths and data with no gap.
ghost use Rattle.std.specs.Prelude.{◌++◌, ◌≡◌, ◌+◌, ◌*◌, ◌<◌, ◌≤◌, length};
ghost use Rattle.std.specs.List.{flat_map};
ghost use Rattle.rules.specs.Numbers.{buffer_size};
ghost use Rattle.files.specs.File.{word, header_of, total, count_in, headed, body_fault, fault_of, over};

use rules::{BUFFER, Refusal};

pub const HEADER: usize = 12;

// The bytes of the longest file.
pub const LARGEST: usize = 4492;

// What is wrong with a file.
#[derive(Clone, Copy, PartialEq, Eq)]
pub enum Fault {
    // it has fewer than 12 bytes
    NoHeader,
    // its count is above 64
    Crowded,
    // it ends before its blocks do
    Short,
    // its lengths sum above 4,352
    Overfull,
    // bytes follow it
    Longer,
    // its header is not the one that its count and its lengths force
    Forged,
}

impl From<Fault> for Refusal {
    ghost use Rattle.rules.specs.declared.numbers.Refusal.TheVariants.{NotAFile};
    ghost use Rattle.std.specs.Prelude.{◌≡◌};

    ghost from_gives = { λ _ refusal. refusal ≡ NotAFile };

    fn from(_fault: Fault) -> Refusal {
        Refusal::NotAFile
    }
}

// ---- the header

fn word(n: usize) -> [u8; 2]
    requires { n < 65536 }
    ensures { result ≡ word n }
{
    (n as u16).to_le_bytes()
}

// The header of n transactions with s bytes of data.
pub(crate) fn header(n: usize, s: usize) -> [[u8; 2]; 6]
    requires { (n ≤ 64) × (s ≤ buffer_size) }
    ensures { flat_map (λ x. x) result ≡ header_of n s }
{
    let lengths = HEADER + n;
    let data = HEADER + 2 * n;
    [
        word(n),
        word(s),
        word(HEADER),
        word(lengths),
        word(data),
        word(data + s),
    ]
}

// The count that a file's first number says. That a file has 12 bytes and a count of at most 64 is what `fault_of` finds, of any bytes, on its way.
pub(crate) fn count(file: &[u8]) -> usize
    requires { 12 ≤ length file.now }
    ensures { result ≡ count_in file.now }
{
    usize::from(u16::from_le_bytes([file[0], file[1]]))
}

// The lengths summed.
fn sum(lengths: &[u8]) -> usize
    requires { length lengths.now ≤ 64 }
    ensures { result ≡ total lengths.now }
{
    lengths.iter().map(|&len| usize::from(len)).sum()
}

// ---- whether a file is readable

fn headed_by(file: &[u8], n: usize, s: usize) -> Result<(), Fault>
    requires { (12 ≤ length file.now) × (n ≤ 64) × (s ≤ buffer_size) }
    ensures { result ≡ headed file.now n s }
{
    if &file[..HEADER] == header(n, s).as_flattened() {
        Ok(())
    } else {
        Err(Fault::Forged)
    }
}

#[tactic(auto, using(laws::specs::Cases::cases), unfolding(crate::specs::File::body_fault))]
fn body_fault(file: &[u8], n: usize, s: usize) -> Result<(), Fault>
    requires { (12 ≤ length file.now) × (n ≤ 64) }
    ensures { result ≡ body_fault file.now n s }
{
    if BUFFER < s {
        return Err(Fault::Overfull);
    }
    let all = HEADER + 2 * n + s;
    if file.len() < all {
        return Err(Fault::Short);
    }
    if all < file.len() {
        return Err(Fault::Longer);
    }
    headed_by(file, n, s)
}

// What is wrong with a file, the first that applies.
#[tactic(auto, using(laws::specs::Cases::cases), unfolding(crate::specs::File::fault_of))]
pub fn fault_of(file: &[u8]) -> Result<(), Fault>
    ensures { result ≡ fault_of file.now }
{
    if file.len() < HEADER {
        return Err(Fault::NoHeader);
    }
    let n = count(file);
    if 64 < n {
        return Err(Fault::Crowded);
    }
    let data = HEADER + 2 * n;
    if file.len() < data {
        return Err(Fault::Short);
    }
    let s = sum(&file[HEADER + n..data]);
    body_fault(file, n, s)
}

// ---- bytes moved: each once, from slice to slice

// Puts x and then y; the bytes behind them stay.
pub(crate) fn put_two(out: &mut [u8], x: &[u8], y: &[u8])
    requires { length x.now + length y.now ≤ length out.old }
    ensures { out.new ≡ over (x.now ++ y.now) out.old }
{
    let (front, rest) = out.split_at_mut(x.len());
    front.copy_from_slice(x);
    rest[..y.len()].copy_from_slice(y);
}
