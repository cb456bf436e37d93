// The commands, a row each, and the file mask.
#![tactic(auto)]

ghost use Rattle.std.specs.Prelude.{◌≡◌, true, false};
ghost use Rattle.table.specs.Table.{rule_of, looks, serves_data, serves_key, is_home, is_mask, bars_write, bars_seek};
ghost use Rattle.table.specs.declared.{Licence.Licence, Writing.Writing, Bar.Bar, Act.Act, Write.Write, Aim.Aim, Names.Names, Serves.Serves};

// What satisfies a search: equal, the track's higher, or either.
#[derive(Clone, Copy)]
pub enum How {
    IfEqual,
    IfHigh,
    IfEqualOrHigh,
}

// Which command must come before: any; a search or a read; Write HA, or Search HA equal over its field; Write R0, Write Count Key Data, or 31 or 29
// equal over their field; 31 or 29 equal so; 31 equal so.
#[derive(Clone, Copy)]
pub enum Licence {
    Any,
    Look,
    HomeAddress,
    WrittenOrEqual,
    EqualIdOrKey,
    EqualId,
}

// The writes that a mask tells apart: 19 and 15; 1D; 05 and 0D.
#[derive(Clone, Copy)]
pub enum Writing {
    HomeOrR0,
    CountKeyData,
    Update,
}

// The seeks that a mask tells apart: 07, 0B, 1B.
#[derive(Clone, Copy)]
pub enum Seeking {
    Seek,
    SeekCylinder,
    SeekHead,
}

// Which bits of the file mask bar it. Three cases, so no Option.
#[derive(Clone, Copy)]
pub enum Bar {
    Nothing,
    Seeks(Seeking),
    Writes(Writing),
}

// Which record it takes: none, the head stays; the home address, or R0, at the index point; the next by Search ID's rule; the next; the record
// selected, if the command before serves Read Data, or else the next; so, if it serves Read Key and Data and searches by key; the record selected.
#[derive(Clone, Copy, PartialEq, Eq)]
pub enum Aim {
    Stays,
    HomeAddress,
    R0,
    NextId,
    Next,
    NextForData,
    NextForKey,
    Selected,
}

// Which areas it reads: none; the home address; of the record its count, with the key or not, with the data or not. Three cases, so no Option; and no value
// stands beside the two flags, so an Option would have nothing to hold.
#[derive(Clone, Copy)]
pub enum Names {
    Nothing,
    HomeAddress,
    Count(bool, bool),
}

// Whom the record that it leaves selected serves: nobody; Read Data; also Read Key and Data and the searches by key.
#[derive(Clone, Copy, PartialEq, Eq)]
pub enum Serves {
    Nobody,
    Data,
    DataAndKey,
}

// Six commands, so no Option.
#[derive(Clone, Copy)]
pub enum Control {
    Unknown,
    NoOp,
    Sense,
    Seek(Seeking),
    SetMask,
    SpaceRecord,
}

// Four writes, so no Option. The last one writes data, with the key or not: a flag with no value beside it, so an Option would have nothing to hold.
#[derive(Clone, Copy)]
pub enum Write {
    HomeAddress,
    R0,
    CountKeyData,
    Update(bool),
}

// What it does with what it has read: a search compares it with the bytes sent; a read gives its bytes, of a count 8 or none, by a flag with no value beside
// it for an Option to hold. Four cases, so no Result.
#[derive(Clone, Copy)]
pub enum Act {
    Control(Control),
    Search(How),
    Read(bool),
    Write(Write),
}

// A row of the table. It may leave its record selected; DL = 0 may be Unit Exception; it may clear sense first. Beside the last two stands no value; `selects`
// and `serves` are two columns in REFERENCE 4.4 and in the definition table:Table.rule_of, which may not change: 15 and 1D select, and serve nobody.
#[derive(Clone, Copy)]
pub struct Rule {
    pub licence: Licence,
    pub bar: Bar,
    pub aim: Aim,
    pub names: Names,
    pub act: Act,
    pub selects: bool,
    pub serves: Serves,
    pub excepts: bool,
    pub clears: bool,
}

// Of a mask the rightmost of bits 0-1, bit 2, and the rightmost of bits 3-4; bits 5 to 7 are below.
const BIT_1: u8 = 0x40;

const BIT_2: u8 = 0x20;

const BIT_4: u8 = 0x08;

// An unknown code's row, from which every other differs in the columns that it names.
const UNKNOWN: Rule = Rule {
    licence: Licence::Any,
    bar: Bar::Nothing,
    aim: Aim::Stays,
    names: Names::Nothing,
    act: Act::Control(Control::Unknown),
    selects: false,
    serves: Serves::Nobody,
    excepts: false,
    clears: true,
};

// The control commands. No-op and Sense leave sense as it is.
const NO_OP: Rule = Rule {
    act: Act::Control(Control::NoOp),
    clears: false,
    ..UNKNOWN
};

const SENSE: Rule = Rule {
    act: Act::Control(Control::Sense),
    ..NO_OP
};

const SEEK: Rule = Rule {
    bar: Bar::Seeks(Seeking::Seek),
    act: Act::Control(Control::Seek(Seeking::Seek)),
    ..UNKNOWN
};

const SEEK_CYLINDER: Rule = Rule {
    bar: Bar::Seeks(Seeking::SeekCylinder),
    act: Act::Control(Control::Seek(Seeking::SeekCylinder)),
    ..UNKNOWN
};

const SEEK_HEAD: Rule = Rule {
    bar: Bar::Seeks(Seeking::SeekHead),
    act: Act::Control(Control::Seek(Seeking::SeekHead)),
    ..UNKNOWN
};

const SET_MASK: Rule = Rule {
    act: Act::Control(Control::SetMask),
    ..UNKNOWN
};

const SPACE_RECORD: Rule = Rule {
    licence: Licence::Look,
    act: Act::Control(Control::SpaceRecord),
    ..UNKNOWN
};

// The searches. By ID and by key the record is left selected.
const SEARCH_HOME: Rule = Rule {
    aim: Aim::HomeAddress,
    names: Names::HomeAddress,
    act: Act::Search(How::IfEqual),
    ..UNKNOWN
};

const SEARCH_ID_EQUAL: Rule = Rule {
    aim: Aim::NextId,
    names: Names::Count(false, false),
    act: Act::Search(How::IfEqual),
    selects: true,
    serves: Serves::DataAndKey,
    ..UNKNOWN
};

const SEARCH_ID_HIGH: Rule = Rule {
    act: Act::Search(How::IfHigh),
    ..SEARCH_ID_EQUAL
};

const SEARCH_ID_EQUAL_OR_HIGH: Rule = Rule {
    act: Act::Search(How::IfEqualOrHigh),
    ..SEARCH_ID_EQUAL
};

const SEARCH_KEY_EQUAL: Rule = Rule {
    aim: Aim::NextForKey,
    names: Names::Count(true, false),
    act: Act::Search(How::IfEqual),
    selects: true,
    serves: Serves::Data,
    ..UNKNOWN
};

const SEARCH_KEY_HIGH: Rule = Rule {
    act: Act::Search(How::IfHigh),
    ..SEARCH_KEY_EQUAL
};

const SEARCH_KEY_EQUAL_OR_HIGH: Rule = Rule {
    act: Act::Search(How::IfEqualOrHigh),
    ..SEARCH_KEY_EQUAL
};

// The reads.
const READ_HOME: Rule = Rule {
    aim: Aim::HomeAddress,
    names: Names::HomeAddress,
    act: Act::Read(false),
    ..UNKNOWN
};

const READ_R0: Rule = Rule {
    aim: Aim::R0,
    names: Names::Count(true, true),
    act: Act::Read(true),
    excepts: true,
    ..UNKNOWN
};

const READ_COUNT: Rule = Rule {
    aim: Aim::Next,
    names: Names::Count(false, false),
    act: Act::Read(true),
    selects: true,
    serves: Serves::DataAndKey,
    ..UNKNOWN
};

const READ_DATA: Rule = Rule {
    aim: Aim::NextForData,
    names: Names::Count(false, true),
    act: Act::Read(false),
    ..READ_R0
};

const READ_KEY_DATA: Rule = Rule {
    aim: Aim::NextForKey,
    act: Act::Read(false),
    ..READ_R0
};

const READ_COUNT_KEY_DATA: Rule = Rule {
    aim: Aim::Next,
    ..READ_R0
};

// The writes.
const WRITE_HOME: Rule = Rule {
    bar: Bar::Writes(Writing::HomeOrR0),
    aim: Aim::HomeAddress,
    act: Act::Write(Write::HomeAddress),
    ..UNKNOWN
};

const WRITE_R0: Rule = Rule {
    licence: Licence::HomeAddress,
    bar: Bar::Writes(Writing::HomeOrR0),
    aim: Aim::R0,
    names: Names::HomeAddress,
    act: Act::Write(Write::R0),
    selects: true,
    ..UNKNOWN
};

const WRITE_COUNT_KEY_DATA: Rule = Rule {
    licence: Licence::WrittenOrEqual,
    bar: Bar::Writes(Writing::CountKeyData),
    aim: Aim::Selected,
    names: Names::Count(false, false),
    act: Act::Write(Write::CountKeyData),
    selects: true,
    ..UNKNOWN
};

const WRITE_DATA: Rule = Rule {
    licence: Licence::EqualIdOrKey,
    bar: Bar::Writes(Writing::Update),
    aim: Aim::Selected,
    names: Names::Count(false, false),
    act: Act::Write(Write::Update(false)),
    excepts: true,
    ..UNKNOWN
};

const WRITE_KEY_DATA: Rule = Rule {
    licence: Licence::EqualId,
    act: Act::Write(Write::Update(true)),
    ..WRITE_DATA
};

// The row of a code, which is a byte of the command word: here the enums are made of it.
#[tactic(auto, unfolding(crate::proofs::Laws::row_of_code))]
pub fn rule_of(code: u8) -> Rule
    ensures { result ≡ rule_of code }
{
    match code {
        0x03 => NO_OP,
        0x04 => SENSE,
        0x07 => SEEK,
        0x0B => SEEK_CYLINDER,
        0x1B => SEEK_HEAD,
        0x1F => SET_MASK,
        0x0F => SPACE_RECORD,
        0x39 => SEARCH_HOME,
        0x31 => SEARCH_ID_EQUAL,
        0x51 => SEARCH_ID_HIGH,
        0x71 => SEARCH_ID_EQUAL_OR_HIGH,
        0x29 => SEARCH_KEY_EQUAL,
        0x49 => SEARCH_KEY_HIGH,
        0x69 => SEARCH_KEY_EQUAL_OR_HIGH,
        0x1A => READ_HOME,
        0x16 => READ_R0,
        0x12 => READ_COUNT,
        0x06 => READ_DATA,
        0x0E => READ_KEY_DATA,
        0x1E => READ_COUNT_KEY_DATA,
        0x19 => WRITE_HOME,
        0x15 => WRITE_R0,
        0x1D => WRITE_COUNT_KEY_DATA,
        0x05 => WRITE_DATA,
        0x0D => WRITE_KEY_DATA,
        _ => UNKNOWN,
    }
}

// Whether a command is a search or a read, with anything in them, for which equality would not do.
#[tactic(auto, unfolding(crate::specs::Table::looks))]
pub fn is_look(a: Act) -> bool
    ensures { result ≡ looks a }
{
    matches!(a, Act::Search(_) | Act::Read(_))
}

// Whether Read Data takes the record that a command left selected.
#[tactic(auto, unfolding(crate::specs::Table::serves_data))]
pub fn serves_data(s: Serves) -> bool
    ensures { result ≡ serves_data s }
{
    s != Serves::Nobody
}

// Whether Read Key and Data and the searches by key take it. Like `is_home` but for the type, which a generic function would only hide.
#[tactic(auto, unfolding(crate::specs::Table::serves_key))]
pub fn serves_key(s: Serves) -> bool
    ensures { result ≡ serves_key s }
{
    s == Serves::DataAndKey
}

// Whether a command is home address work.
#[tactic(auto, unfolding(crate::specs::Table::is_home))]
pub fn is_home(a: Aim) -> bool
    ensures { result ≡ is_home a }
{
    a == Aim::HomeAddress
}

// Whether a byte is a mask.
#[tactic(auto, using(cells::proofs::Tests::tests), unfolding(crate::specs::Table::is_mask))]
pub fn is_mask(mask: u8) -> bool
    ensures { result ≡ is_mask mask }
{
    mask / BIT_2 % 0b10 == 0 && mask % BIT_4 == 0
}

// Whether a mask bars a write. Its tests of the two bits have nothing in common with those for a seek, so one function over both would be no plainer.
pub fn bars_write(mask: u8, write: Writing) -> bool
    ensures { result ≡ bars_write mask write }
{
    let bits = mask / BIT_1;
    match write {
        Writing::HomeOrR0 => bits != 0b11,
        Writing::CountKeyData => bits % 0b11 != 0,
        Writing::Update => bits == 0b01,
    }
}

// Whether a mask bars a seek.
pub fn bars_seek(mask: u8, seek: Seeking) -> bool
    ensures { result ≡ bars_seek mask seek }
{
    let bits = mask / BIT_4 % 0b100;
    match seek {
        Seeking::Seek => bits != 0b00,
        Seeking::SeekCylinder => bits >= 0b10,
        Seeking::SeekHead => bits == 0b11,
    }
}
