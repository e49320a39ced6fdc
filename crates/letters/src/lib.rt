// Document 01's letters for an action, as the script program prints them.
#![tactic(auto)]

ghost use Rattle.std.specs.Prelude.{◌≡◌, ◌<◌, ◌≤◌};
ghost use Rattle.letters.specs.Letters.{digit_of, hex_digits, text_with, one_and_byte, text_of};

use rules::Action;

// The first `len` of the bytes are the text, and the others are 0. Bytes and a length: `text_of`, which `spell` promises, speaks of both.
#[derive(Clone, Copy)]
pub struct Text {
    pub bytes: [u8; 4],
    pub len: usize,
}

// An upper-case hex digit.
#[tactic(auto, using(laws::specs::Cases::cases), unfolding(crate::specs::Letters::digit_of))]
pub fn digit(d: u8) -> u8
    requires { d < 16 }
    ensures { result ≡ digit_of d }
{
    if d < 10 { b'0' + d } else { b'A' - 10 + d }
}

// A byte's two digits.
pub fn hex(b: u8) -> [u8; 2]
    ensures { result ≡ hex_digits b }
{
    [digit(b / 16), digit(b % 16)]
}

fn written<const N: usize>(letters: [u8; N]) -> Text
    requires { N ≤ 4 }
    ensures { (result ≡ text_with letters.entry) × (result.len ≤ 4) }
{
    let mut bytes = [0; 4];
    bytes[..N].copy_from_slice(&letters);
    Text { bytes, len: N }
}

fn with_byte(letter: u8, b: u8) -> Text
    ensures { (result ≡ one_and_byte letter b) × (result.len ≤ 4) }
{
    let [high, low] = hex(b);
    written([letter, high, low])
}

// An action's letters, without spaces.
pub fn spell(a: Action) -> Text
    ensures { (result ≡ text_of a) × (result.len ≤ 4) }
{
    match a {
        Action::Nothing => written(*b"-"),
        Action::S(sla) => with_byte(b'S', sla),
        Action::R(sla) => with_byte(b'R', sla),
        Action::D(b) => with_byte(b'D', b),
        Action::C => written(*b"C"),
        Action::A => written(*b"A"),
        Action::Np => written(*b"NP"),
        Action::Nr(sla) => {
            let [high, low] = hex(sla);
            written([b'N', b'R', high, low])
        }
        Action::P => written(*b"P"),
    }
}
