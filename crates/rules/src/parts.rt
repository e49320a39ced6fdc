// Document 02, request Three: the two parts, and the kinds of their channels. Functions and no `From`: a part has two kinds, and `Kind::from(device)` would not say whose.
ghost use Rattle.std.specs.Prelude.{◌≡◌};
ghost use Rattle.rules.specs.Parts.{is_fm, other_kind, device_by, device_id};

// Fm+ sends and receives, and is acknowledged. Ultra Fast-mode (UFm) only sends, and nobody acknowledges.
#[derive(Clone, Copy, PartialEq, Eq)]
pub enum Kind {
    Fm,
    Ufm,
}

// What the hardware reset chose of a channel: no other step changes it. A struct, since `Channel::new` and `fresh_head` are over it.
#[derive(Clone, Copy, PartialEq, Eq)]
pub struct Straps {
    pub kind: Kind,
}

// The parts.
#[derive(Clone, Copy, PartialEq, Eq)]
pub enum Device {
    Pca9663,
    Pcu9669,
}

pub fn is_fm(k: Kind) -> bool
    ensures { result ≡ is_fm k }
{
    k == Kind::Fm
}

// The kind of channels 1 and 2. Channel 0 is Fm+ on both parts.
pub fn other_kind(d: Device) -> Kind
    ensures { result ≡ other_kind d }
{
    match d {
        Device::Pca9663 => Kind::Fm,
        Device::Pcu9669 => Kind::Ufm,
    }
}

// The part whose channels 1 and 2 are of this kind.
pub fn device_by(k: Kind) -> Device
    ensures { result ≡ device_by k }
{
    match k {
        Kind::Fm => Device::Pca9663,
        Kind::Ufm => Device::Pcu9669,
    }
}

pub fn device_id(d: Device) -> u8
    ensures { result ≡ device_id d }
{
    match d {
        Device::Pca9663 => 0x63,
        Device::Pcu9669 => 0xE9,
    }
}
