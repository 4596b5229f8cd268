// The counter DCO: its fields, the block that it counts, and what it holds after a word.
ghost use Rattle.std.specs.Prelude.{◌≡◌, ◌+◌, ◌^◌, ◌<◌, ◌≤◌, true, false, ◌↔◌};
ghost use Rattle.registers.specs.Counter.{cut, joined, line_length, block_length, words_left, position, Within, ends_line, ends_plane, ends_block, stepped, preloaded, counted, InBlock};
ghost use Rattle.registers.specs.Laws.{largest, after_word, GoesOn, StartsAgain};

use crate::control::field;

// Which fields the counter's 24 bits are parted into.
#[derive(Clone, Copy, PartialEq, Eq, Debug)]
pub enum Layout {
    A,
    B,
    C,
    D,
    E,
}

// The fields of a counter; one that the layout lacks is 0.
#[derive(Clone, Copy, PartialEq, Eq, Debug)]
pub struct Fields {
    pub high: u32,
    pub middle: u32,
    pub low: u32,
}

// What is left of a block, and what each block starts from. The count may be of another block: see `within`.
#[derive(Clone, Copy, PartialEq, Eq, Debug)]
pub struct Counter {
    pub layout: Layout,
    pub preload: u32,
    pub count: u32,
}

// The count after a word, and whether that word ended the block: both are there after each word, so that no Option says either.
#[derive(Clone, Copy, PartialEq, Eq, Debug)]
pub struct Counted {
    pub count: u32,
    pub ended: bool,
}

impl Fields {
    // Line, plane and block have a test each, made of the one before: one test for the three would have to be told which.

    // A word that is moved at this count is the last of its line.
    pub fn ends_line(self) -> bool
        ensures value { result ≡ ends_line self }
    {
        self.low == 0
    }

    // It is the last of its plane.
    pub fn ends_plane(self) -> bool
        ensures value { result ≡ ends_plane self }
    {
        self.ends_line() && self.middle == 0
    }

    // It is the last of the block.
    pub fn ends_block(self) -> bool
        ensures value { result ≡ ends_block self }
    {
        self.ends_plane() && self.high == 0
    }

    // The fields after a word: one that is 0 returns to its preload, and the next one falls.
    fn stepped(self, preload: Fields) -> Fields
        ensures value { result ≡ stepped preload self }
    {
        match (self.high, self.middle, self.low) {
            (0, 0, 0) => preload,
            (high, 0, 0) => Fields {
                high: high - 1,
                ..preload
            },
            (high, middle, 0) => Fields {
                high,
                middle: middle - 1,
                ..preload
            },
            (_, _, low) => Fields {
                low: low - 1,
                ..self
            },
        }
    }
}

impl Layout {
    // The fields of a counter; the bits above the 24 are no part of any.
    pub fn cut(self, word: u32) -> Fields
        ensures value { result ≡ cut self word }
        ensures fits { Within (largest self) result }
        ensures parts_the_whole_word { word < 2 ^ 24 → joined self result ≡ word }
    {
        let (high, middle, low) = match self {
            Layout::A => (0, 0, field(0, 24, word)),
            Layout::B => (field(12, 12, word), 0, field(0, 12, word)),
            Layout::C => (field(12, 12, word), field(6, 6, word), field(0, 6, word)),
            Layout::D => (field(18, 6, word), field(6, 12, word), field(0, 6, word)),
            Layout::E => (field(18, 6, word), field(12, 6, word), field(0, 12, word)),
        };
        Fields { high, middle, low }
    }

    // The counter with these fields.
    fn joined(self, fields: Fields) -> u32
        requires fits { Within (largest self) fields }
        ensures value { result ≡ joined self fields }
        ensures below { result < 2 ^ 24 }
    {
        let Fields { high, middle, low } = fields;
        match self {
            Layout::A => low,
            Layout::B => (high << 12) + low,
            Layout::C => (high << 12) + (middle << 6) + low,
            Layout::D => (high << 18) + (middle << 6) + low,
            Layout::E => (high << 18) + (middle << 12) + low,
        }
    }

    // L: the words of a line.
    pub fn line_length(self, preload: u32) -> u32
        ensures value { result ≡ line_length (cut self preload) }
    {
        self.cut(preload).low + 1
    }

    // N: the words of a block.
    pub fn block_length(self, preload: u32) -> u32
        ensures value { result ≡ block_length (cut self preload) }
        ensures some_word { 0 < result }
        ensures at_most_all_addresses { result ≤ 2 ^ 24 }
    {
        let full = self.cut(preload);
        (full.low + 1) * (full.middle + 1) * (full.high + 1)
    }
}

impl Counter {
    fn preloaded(self) -> Fields
        ensures value { result ≡ preloaded self }
        ensures fits { Within (largest self.layout) result }
    {
        self.layout.cut(self.preload)
    }

    fn counted(self) -> Fields
        ensures value { result ≡ counted self }
        ensures fits { Within (largest self.layout) result }
    {
        self.layout.cut(self.count)
    }

    // The words of the block that are still to move.
    #[tactic(auto, using(crate::proofs::Counting::words_left_within_block))]
    pub fn words_left(self) -> u32
        ensures value { result ≡ words_left (preloaded self) (counted self) }
        ensures some_word { 0 < result }
        ensures at_most_the_block { InBlock self → result ≤ block_length (preloaded self) }
    {
        let full = self.preloaded();
        let now = self.counted();
        (now.high * (full.middle + 1) + now.middle) * (full.low + 1) + now.low + 1
    }

    // The words of the block that have moved. Inlined: a layout that the caller writes out then costs no match.
    #[inline(always)]
    #[tactic(auto, using(crate::proofs::Counting::nothing_moved_is_preload, crate::proofs::Layouts::nothing_moved_is_preload_word))]
    pub fn position(self) -> u32
        ensures value { result ≡ position (preloaded self) (counted self) }
        ensures moved_and_left_make_the_block { InBlock self → result + words_left (preloaded self) (counted self) ≡ block_length (preloaded self) }
        ensures zero_exactly_at_the_preload { InBlock self → (result ≡ 0) ↔ (counted self ≡ preloaded self) }
        ensures zero_exactly_if_equal { self.preload < 2 ^ 24 → self.count < 2 ^ 24 → InBlock self → (result ≡ 0) ↔ (self.count ≡ self.preload) }
    {
        self.layout
            .block_length(self.preload)
            .saturating_sub(self.words_left())
    }

    // Whether no field of the count exceeds its preload.
    pub fn within(self) -> bool
        ensures value { (result ≡ true) ↔ InBlock self }
    {
        let full = self.preloaded();
        let now = self.counted();
        now.high <= full.high && now.middle <= full.middle && now.low <= full.low
    }

    // The count after a word.
    pub fn step(self) -> Counted
        ensures value { result ≡ after_word self }
        ensures below { result.count < 2 ^ 24 }
        ensures fields_are_stepped { cut self.layout result.count ≡ stepped (preloaded self) (counted self) }
        ensures stays_within { InBlock self → Within (preloaded self) (cut self.layout result.count) }
        ensures goes_on { InBlock self → result.ended ≡ false → GoesOn (preloaded self) (counted self) (cut self.layout result.count) }
        ensures starts_again { result.ended ≡ true → StartsAgain (preloaded self) (counted self) (cut self.layout result.count) }
        ensures ends_exactly_at_the_last_word { (result.ended ≡ true) ↔ (words_left (preloaded self) (counted self) ≡ 1) }
        ensures is_the_preload_again { result.ended ≡ true → self.preload < 2 ^ 24 → result.count ≡ self.preload }
    {
        let now = self.counted();
        let after = now.stepped(self.preloaded());
        Counted {
            count: self.layout.joined(after),
            ended: now.ends_block(),
        }
    }
}
