// One field of the record set, in range or not.
ghost use Rattle.std.specs.Prelude.{◌<◌};

use part::Part;
use rules::Kind;

// What a poke sets.
#[derive(Clone, Copy)]
pub(crate) enum Field {
    SlatablePointer,
    TranconfigPointer,
    DataPointer,
    BytecountPointer,
    Count,
    Transel,
    Intmsk,
    Ctrlintmsk,
    Ended,
    Key,
    PartKey,
    Be,
    Ufm,
    Sto,
}

// A number that is no field's.
#[derive(Clone, Copy)]
pub(crate) struct NoField;

impl TryFrom<u16> for Field {
    type Error = NoField;

    fn try_from(number: u16) -> Result<Self, NoField> {
        Ok(match number {
            0 => Field::SlatablePointer,
            1 => Field::TranconfigPointer,
            2 => Field::DataPointer,
            3 => Field::BytecountPointer,
            4 => Field::Count,
            5 => Field::Transel,
            6 => Field::Intmsk,
            7 => Field::Ctrlintmsk,
            8 => Field::Ended,
            9 => Field::Key,
            10 => Field::PartKey,
            11 => Field::Be,
            12 => Field::Ufm,
            13 => Field::Sto,
            _ => return Err(NoField),
        })
    }
}

impl Field {
    // The field set of the part, or of its channel i.
    pub(crate) fn poke(self, part: &mut Part, i: usize, value: u16)
        requires { i < 3 }
    {
        let place = value as usize;
        let byte = (value % 256) as u8;
        let yes = value == 1;
        let channel = &mut part.channels[i];
        match self {
            Field::SlatablePointer => channel.head.ptrs.sla = place,
            Field::TranconfigPointer => channel.head.ptrs.conf = place,
            Field::DataPointer => channel.head.ptrs.buf = place,
            Field::BytecountPointer => channel.head.ptrs.count = place,
            Field::Count => channel.tranconfig[0] = byte,
            Field::Transel => channel.head.regs.transel = byte,
            Field::Intmsk => channel.head.regs.intmsk = byte,
            Field::Ctrlintmsk => part.mask = byte,
            Field::Ended => channel.head.walk.ended = byte,
            Field::Key => channel.head.key = yes,
            Field::PartKey => part.key = yes,
            Field::Be => part.be = yes,
            Field::Ufm => channel.head.straps.kind = if yes { Kind::Ufm } else { Kind::Fm },
            Field::Sto => channel.head.walk.sto = yes,
        }
    }
}
