// The channel's words in storage: address word, command words with their program checks, status word.
#![tactic(auto)]

ghost use Rattle.std.specs.Prelude.{◌≡◌, List, ℕ, ◌+◌, length};
ghost use Rattle.cells.specs.Cells.{be24};
ghost use Rattle.words.specs.Words.{along, begun_by, word_at, tested_command, tested_word, tested, Storable, stored, status_for, channel_for, program_check};

// Addresses are taken modulo 2 to the 24.
pub const ADDRESSES: u32 = 16777216;
// The address word, and its byte with the key.
const ADDRESS_WORD: u32 = 72;

const KEY_BYTE: usize = ADDRESS_WORD as usize;
// A byte is two digits: what its left one counts.
const DIGIT: u8 = 16;
// A command word is 8 bytes on a multiple of 8.
pub const WORD: u32 = 8;

const WORD_BYTES: usize = WORD as usize;
// Its bytes of flags and count.
const FLAGS: usize = 4;

const COUNT: usize = 6;
// Flags: 40 goes on to the next word, 20 lets incorrect length pass. Others are 80, and those below 20.
pub const CHAINS: u8 = 0x40;

pub const SUPPRESSES: u8 = 0x20;

const FLAG_80: u8 = 0x80;
// The low digit of a TIC.
const TIC: u8 = 8;
// The channel status of a program check.
pub const PROGRAM_CHECK: u8 = 0x20;

// A command word.
#[derive(Clone, Copy)]
pub struct Word {
    pub code: u8,
    pub address: u32,
    pub flags: u8,
    pub count: u16,
}

// Why a word is a program check, in the order of the tests.
#[derive(Clone, Copy)]
pub enum Cause {
    Place,
    TicAfterTic,
    Flags,
    NoCount,
    Code,
    Area,
}

// What a word says that passes its tests: a command to obey, or a TIC to an address. Neither is a refusal, so it is no Result.
#[derive(Clone, Copy)]
pub enum Directive {
    Obey(Word),
    Jump(u32),
}

// A status word.
#[derive(Clone, Copy)]
pub struct Status {
    pub key: u8,
    pub address: u32,
    pub unit: u8,
    pub channel: u8,
    pub left: u16,
}

// An address some bytes on, modulo 2 to the 24.
pub fn advanced(at: u32, by: u32) -> u32
    ensures { result ≡ along at by }
{
    at.wrapping_add(by) % ADDRESSES
}

// The three bytes after a word's first: its address.
fn word_address(storage: &[u8], at: u32) -> u32
    ensures { result ≡ be24 storage.now (at + 1) }
{
    let i = at as usize + 1;
    let high = cells::byte_at(storage, i);
    let middle = cells::byte_at(storage, i + 1);
    let low = cells::byte_at(storage, i + 2);
    u32::from_be_bytes([0, high, middle, low])
}

// The address word, at 72: a chain's key and its first word's address, if it is good.
#[tactic(auto, using(cells::proofs::Tests::tests), unfolding(crate::specs::Words::begun_by))]
pub fn address_word(storage: &[u8]) -> Option<(u8, u32)>
    ensures { result ≡ begun_by storage.now }
{
    let top = cells::byte_at(storage, KEY_BYTE);
    if top % DIGIT != 0 {
        return None;
    }
    Some((top / DIGIT, word_address(storage, ADDRESS_WORD)))
}

// The command word at an address, as it stands there.
#[tactic(auto, unfolding(crate::specs::Words::word_at))]
pub fn word_at(storage: &[u8], at: u32) -> Word
    ensures { result ≡ word_at storage.now at }
{
    let i = at as usize;
    Word {
        code: cells::byte_at(storage, i),
        address: word_address(storage, at),
        flags: cells::byte_at(storage, i + FLAGS),
        count: cells::pair_at(storage, i + COUNT),
    }
}

// The tests of a word that is no TIC, in storage of so many bytes.
#[tactic(auto, using(cells::proofs::Tests::tests), unfolding(crate::specs::Words::tested_command))]
fn test_command(bytes: usize, w: Word) -> Result<Directive, Cause>
    ensures { (s : List ℕ) → length s ≡ bytes → result ≡ tested_command s w }
{
    if w.flags >= FLAG_80 {
        return Err(Cause::Flags);
    }
    if w.flags % SUPPRESSES != 0 {
        return Err(Cause::Flags);
    }
    if w.count == 0 {
        return Err(Cause::NoCount);
    }
    if w.code % DIGIT == 0 {
        return Err(Cause::Code);
    }
    if bytes < w.address as usize + usize::from(w.count) {
        return Err(Cause::Area);
    }
    Ok(Directive::Obey(w))
}

// The tests of a word after a TIC or not. A word's code stays a number, as Word of the model has it: which codes are commands a crate above says, `table`.
#[tactic(auto, using(cells::proofs::Tests::tests), unfolding(crate::specs::Words::tested_word))]
fn test_word(bytes: usize, after_tic: bool, w: Word) -> Result<Directive, Cause>
    ensures { (s : List ℕ) → length s ≡ bytes → result ≡ tested_word s after_tic w }
{
    if w.code % DIGIT != TIC {
        return test_command(bytes, w);
    }
    if after_tic {
        return Err(Cause::TicAfterTic);
    }
    Ok(Directive::Jump(w.address))
}

// The tests of the word at an address of storage: program checks in their order.
#[tactic(auto, using(cells::proofs::Tests::tests), unfolding(crate::specs::Words::tested))]
pub fn test(storage: &[u8], at: u32, after_tic: bool) -> Result<Directive, Cause>
    ensures { result ≡ tested storage.now at after_tic }
{
    if at % WORD != 0 {
        return Err(Cause::Place);
    }
    if storage.len() < at as usize + WORD_BYTES {
        return Err(Cause::Place);
    }
    test_word(storage.len(), after_tic, word_at(storage, at))
}

// A status word, for the command word at an address.
#[tactic(auto, unfolding(crate::specs::Words::status_for))]
pub fn status_for(key: u8, at: u32, unit: u8, channel: u8, left: u16) -> Status
    ensures { result ≡ status_for key at unit channel left }
{
    Status {
        key,
        address: advanced(at, WORD),
        unit,
        channel,
        left,
    }
}

// The channel status of a program check, a line for each cause as in the definition words:Words.channel_for, which may not change, and as REFERENCE 7.3 has a
// row for each: a constant with a cause that nothing reads would be no plainer.
#[tactic(auto, unfolding(crate::specs::Words::channel_for))]
fn channel_for(cause: Cause) -> u8
    ensures { result ≡ channel_for cause }
{
    match cause {
        Cause::Place => PROGRAM_CHECK,
        Cause::TicAfterTic => PROGRAM_CHECK,
        Cause::Flags => PROGRAM_CHECK,
        Cause::NoCount => PROGRAM_CHECK,
        Cause::Code => PROGRAM_CHECK,
        Cause::Area => PROGRAM_CHECK,
    }
}

// The status word of a program check in the word at an address.
#[tactic(auto, unfolding(crate::specs::Words::program_check))]
pub fn program_check(key: u8, at: u32, cause: Cause) -> Status
    ensures { result ≡ program_check key at cause }
{
    status_for(key, at, 0x00, channel_for(cause), 0)
}

// The status word stored, at 64: one byte after another, since `channel` alone takes parts of storage. The key is half a byte.
pub fn store_status(storage: &mut [u8], x: Status)
    requires { Storable storage.old x }
    ensures { storage.new ≡ stored storage.old x }
{
    let [_, high, middle, low] = x.address.to_be_bytes();
    let [left_high, left_low] = x.left.to_be_bytes();
    storage[64] = x.key * DIGIT;
    storage[65] = high;
    storage[66] = middle;
    storage[67] = low;
    storage[68] = x.unit;
    storage[69] = x.channel;
    storage[70] = left_high;
    storage[71] = left_low;
}
