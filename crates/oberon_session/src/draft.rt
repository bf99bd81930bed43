//! A session as its JSON has it: the shape is right, and no range or order is tested yet.

ghost use Rattle.std.specs.Prelude.{◌≡◌, length};

/// An input. Its kind is that of a known name; its count and its value are any numbers.
#[derive(Clone, Copy)]
pub struct InputDraft {
    pub count: u64,
    pub kind: u8,
    pub value: u64,
}

/// A page: the slot `at`, any number, and the text `hex`, which should be the hexadecimal digits of its first bytes.
#[derive(Clone, Copy)]
pub struct PageDraft<'a> {
    pub at: u64,
    pub hex: &'a str,
}

/// The numbers of the initial state.
#[derive(Drop)]
pub struct StartDraft {
    pub registers: Vec<u64>,
    pub h: u64,
    pub pc: u64,
    pub flags: u64,
    pub rate: u64,
    pub phase: u64,
    pub disk: u64,
    pub ghost sixteen: { length registers.items ≡ 16 },
}

/// A session whose shape is right.
#[derive(Drop)]
pub struct Draft<'a> {
    /// 1, 2 or 3.
    pub version: u64,
    pub start: StartDraft,
    pub pages: Vec<PageDraft<'a>>,
    pub inputs: Vec<InputDraft>,
    pub checkpoints: Vec<u64>,
}
