// The plain data that document 01 speaks of: the state's parts, a command's fields, and the answers' cases.
// The rules themselves are the definitions in specs/; nothing runs here.
#![tactic(auto)]

// Where the token stands between its events.
#[derive(Clone, Copy, PartialEq, Eq)]
pub enum Power {
    Asleep = 0,
    Idle = 1,
    Awake = 2,
}

// How a call ended, with the document's number of each case.
#[derive(Clone, Copy, PartialEq, Eq)]
pub enum Number {
    Answered = 0,
    ShortOutput = 1,
    WrongRandom = 2,
    NoAnswer = 3,
    WrongImage = 4,
}

// An answer of one byte, with the byte of each case.
#[derive(Clone, Copy, PartialEq, Eq)]
pub enum Status {
    Done = 0x00,
    Unequal = 0x01,
    BadShape = 0x03,
    Refused = 0x0F,
    Woken = 0x11,
    Damaged = 0xFF,
}

// A slot number, 0 to 15.
#[derive(Clone, Copy)]
pub struct Slot(pub u8);

// A word address: the number of a group of four bytes of a zone.
#[derive(Clone, Copy)]
pub struct Word(pub u16);

// Param1 and Param2 as they were sent. The commands' functions take device, fields and data one by one, and configuration and
// slot too, as the definitions do that their promises name (`mac d f input`, `slot_config config k`): a struct round them would
// only be taken apart.
#[derive(Clone, Copy)]
pub struct Fields {
    pub param1: u8,
    pub param2: u16,
}

// The flags bear the document's names; sourceFlag is true for input, false for random. `valid` is a flag beside the bytes, and no
// Option of them: the document's TempKey has it so, and the definitions (`emptied`, `taken`) and their theorems read it.
#[derive(Clone, Copy)]
pub struct TempKey {
    pub bytes: [u8; 32],
    pub slotID: Slot,
    pub sourceFlag: bool,
    pub genData: bool,
    pub checkFlag: bool,
    pub valid: bool,
}

// The three zones and TempKey.
#[derive(Clone, Copy)]
pub struct Device {
    pub config: [u8; 88],
    pub otp: [u8; 64],
    pub data: [u8; 512],
    pub tempKey: TempKey,
}

// What a command gives: the device after it, and its answer, the first `len` of the bytes; the rest of them are zeros. In fixed
// memory, and by value: the definition `reply` names both.
#[derive(Clone, Copy)]
pub struct Reply {
    pub device: Device,
    pub len: usize,
    pub bytes: [u8; 32],
}
