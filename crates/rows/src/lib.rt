// The rows of the Unit Check table: what each puts into sense, and how many bytes its command takes first.
#![tactic(auto)]

ghost use Rattle.std.specs.Prelude.{◌≡◌};
ghost use Rattle.rows.specs.Rows.{sense, sense_of, row_takes};

// A row of the table, in the table's order.
#[derive(Clone, Copy)]
pub enum Row {
    UnknownCode,
    BadMask,
    SecondMask,
    WrongBefore,
    SeekBarred,
    WriteBarred,
    BadSeek,
    Unreadable,
    UnreadableCount,
    NoRoom,
    NoMarker,
    SecondIndex,
}

// Sense bytes 0 and 1; the other four are always zero.
#[derive(Clone, Copy, Default)]
pub struct Sense {
    pub byte0: u8,
    pub byte1: u8,
}

impl Sense {
    fn new(byte0: u8, byte1: u8) -> Sense
        ensures { result ≡ sense byte0 byte1 }
    {
        Sense { byte0, byte1 }
    }
}

// What a row puts into sense.
#[tactic(auto, unfolding(crate::specs::Rows::sense_of))]
pub fn sense_of(row: Row) -> Sense
    ensures { result ≡ sense_of row }
{
    match row {
        Row::UnknownCode => Sense::new(0x80, 0x00),
        Row::BadMask => Sense::new(0x80, 0x00),
        Row::SecondMask => Sense::new(0x80, 0x10),
        Row::WrongBefore => Sense::new(0x80, 0x10),
        Row::SeekBarred => Sense::new(0x00, 0x04),
        Row::WriteBarred => Sense::new(0x80, 0x04),
        Row::BadSeek => Sense::new(0x81, 0x00),
        Row::Unreadable => Sense::new(0x08, 0x00),
        Row::UnreadableCount => Sense::new(0x08, 0x80),
        Row::NoRoom => Sense::new(0x00, 0x40),
        Row::NoMarker => Sense::new(0x00, 0x02),
        Row::SecondIndex => Sense::new(0x00, 0x08),
    }
}

// How many bytes a command takes before a row shows: a count, which the table has for each row.
#[tactic(auto, unfolding(crate::specs::Rows::row_takes))]
pub fn row_takes(row: Row) -> u32
    ensures { result ≡ row_takes row }
{
    match row {
        Row::BadMask => 1,
        Row::BadSeek => 6,
        Row::NoRoom => 8,
        _ => 0,
    }
}
