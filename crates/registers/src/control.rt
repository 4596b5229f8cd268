// The control word DCR of a channel, taken apart.
ghost use Rattle.std.specs.Prelude.{◌≡◌, ◌^◌, ◌<◌, true, false};
ghost use Rattle.memory.specs.declared.refusal.Refusal.TheVariants.{ReservedMode, ReservedShape, ReservedSpace};
ghost use Rattle.registers.specs.Control.{field, enable, interrupt_enable, mode_number, mode_of, priority, continuous, request_source, space_of, update_of, flat_layout, cubic_layout, flat_shape, cubic_shape, shape_of, spaces_of, settings_of, first_reserved, Gives};

use crate::counter::Layout;
use crate::update::Update;
use memory::place::Space;
use memory::refusal::Refusal;

// DTM: how many words a request moves, and whether DE stays 1 at a block's end.
#[derive(Clone, Copy, PartialEq, Eq, Debug)]
pub enum TransferMode {
    Block,
    Word,
    Line,
    BlockByEnable,
    BlockKeepingEnable,
    WordKeepingEnable,
}

// How both addresses of a channel are updated, and how its counter is laid out: D3D and DAM.
#[derive(Clone, Copy, PartialEq, Eq, Debug)]
pub struct Shape {
    pub source: Update,
    pub destination: Update,
    pub layout: Layout,
}

// The spaces that words come from and go to: DSS and DDS.
#[derive(Clone, Copy, PartialEq, Eq, Debug)]
pub struct Spaces {
    pub source: Space,
    pub destination: Space,
}

// A control word that holds nothing reserved.
#[derive(Clone, Copy, PartialEq, Eq, Debug)]
pub struct Settings {
    // DE: the channel takes requests.
    pub enabled: bool,
    // DIE: the channel requests interrupts.
    pub interrupts: bool,
    pub mode: TransferMode,
    // DPR: 0 to 3, 3 the highest.
    pub priority: u8,
    // DCON: the channel goes on before its equals.
    pub continuous: bool,
    // DRS: the request source that the channel listens to.
    pub request: u8,
    pub shape: Shape,
    pub spaces: Spaces,
}

// The `width` bits of a word from the bit `at` on.
pub(crate) fn field(at: u32, width: u32, word: u32) -> u32
    requires at { at < 32 }
    requires width { width < 32 }
    ensures value { result ≡ field at width word }
    ensures below { result < 2 ^ width }
{
    (word >> at) % (1 << width)
}

// One function for each field by its name: what they share is `field`, and a call of it would say no more. The two numbers are cut by `as`: a `try_from` would need a case that cannot be.

// DE: the channel takes requests.
pub fn enabled(word: u32) -> bool
    ensures value { result ≡ enable word }
{
    field(23, 1, word) == 1
}

// DIE: the channel requests interrupts.
pub fn interrupts(word: u32) -> bool
    ensures value { result ≡ interrupt_enable word }
{
    field(22, 1, word) == 1
}

// DPR: 0 to 3, 3 the highest.
pub fn priority(word: u32) -> u8
    ensures value { result ≡ priority word }
{
    field(17, 2, word) as u8
}

// DCON: the channel goes on before its equals.
pub fn continuous(word: u32) -> bool
    ensures value { result ≡ continuous word }
{
    field(16, 1, word) == 1
}

// DRS: the request source that the channel listens to.
pub fn request_source(word: u32) -> u8
    ensures value { result ≡ request_source word }
{
    field(11, 5, word) as u8
}

// DTM.
impl TryFrom<u32> for TransferMode {
    type Error = Refusal;

    ghost try_from_gives = { λ word r. Gives (mode_of (mode_number word)) ReservedMode r };

    fn try_from(word: u32) -> Result<TransferMode, Refusal> {
        match field(19, 3, word) {
            0 => Ok(TransferMode::Block),
            1 => Ok(TransferMode::Word),
            2 => Ok(TransferMode::Line),
            3 => Ok(TransferMode::BlockByEnable),
            4 => Ok(TransferMode::BlockKeepingEnable),
            5 => Ok(TransferMode::WordKeepingEnable),
            _ => Err(Refusal::ReservedMode),
        }
    }
}

// The update of a side by its code. No TryFrom: the rule is one match with a guard on the side beside it.
fn update_of(beside: bool, code: u32) -> Result<Update, Refusal>
    ensures value { Gives (update_of beside code) ReservedShape result }
{
    match code {
        0..=3 => Ok(Update::TwoDimensional(code as u8)),
        4 => Ok(Update::Still),
        5 => Ok(Update::Onward),
        6 if beside => Ok(Update::ThreeDimensional(0, 1)),
        7 if beside => Ok(Update::ThreeDimensional(2, 3)),
        _ => Err(Refusal::ReservedShape),
    }
}

// A if neither side has an offset.
fn flat_layout(source: u32, destination: u32) -> Layout
    ensures value { result ≡ flat_layout source destination }
{
    match source {
        4.. if destination > 3 => Layout::A,
        _ => Layout::B,
    }
}

// No TryFrom of a layout: this number names three of the five. Nor one function with `space_of`: they make different enums and are refused differently.
fn cubic_layout(number: u32) -> Result<Layout, Refusal>
    ensures value { Gives (cubic_layout number) ReservedShape result }
{
    match number {
        0 => Ok(Layout::C),
        1 => Ok(Layout::D),
        2 => Ok(Layout::E),
        _ => Err(Refusal::ReservedShape),
    }
}

// D3D and DAM.
impl TryFrom<u32> for Shape {
    type Error = Refusal;

    ghost try_from_gives = { λ word r. Gives (shape_of word) ReservedShape r };

    fn try_from(word: u32) -> Result<Shape, Refusal> {
        let dam = field(4, 6, word);
        if field(10, 1, word) == 1 {
            Shape::cubic(dam)
        } else {
            Shape::flat(dam)
        }
    }
}

impl Shape {
    // D3D 0: a code for each side.
    fn flat(dam: u32) -> Result<Shape, Refusal>
        ensures value { Gives (flat_shape dam) ReservedShape result }
    {
        let from = field(0, 3, dam);
        let to = field(3, 3, dam);
        Ok(Shape {
            source: update_of(false, from)?,
            destination: update_of(false, to)?,
            layout: flat_layout(from, to),
        })
    }

    // D3D 1: which side has three dimensions, the code of the other, and the layout.
    fn cubic(dam: u32) -> Result<Shape, Refusal>
        ensures value { Gives (cubic_shape dam) ReservedShape result }
    {
        let other = update_of(true, field(3, 3, dam))?;
        let layout = cubic_layout(field(0, 2, dam))?;
        if field(2, 1, dam) == 0 {
            Ok(Shape {
                source: Update::ThreeDimensional(0, 1),
                destination: other,
                layout,
            })
        } else {
            Ok(Shape {
                source: other,
                destination: Update::ThreeDimensional(2, 3),
                layout,
            })
        }
    }
}

// No TryFrom of a space, which is another crate's type.
fn space_of(number: u32) -> Result<Space, Refusal>
    ensures value { Gives (space_of number) ReservedSpace result }
{
    match number {
        0 => Ok(Space::X),
        1 => Ok(Space::Y),
        2 => Ok(Space::P),
        _ => Err(Refusal::ReservedSpace),
    }
}

// DSS and DDS.
impl TryFrom<u32> for Spaces {
    type Error = Refusal;

    ghost try_from_gives = { λ word r. Gives (spaces_of word) ReservedSpace r };

    fn try_from(word: u32) -> Result<Spaces, Refusal> {
        Ok(Spaces {
            source: space_of(field(0, 2, word))?,
            destination: space_of(field(2, 2, word))?,
        })
    }
}

// The whole control word; it is refused by the first of mode, shape and spaces that is reserved.
impl TryFrom<u32> for Settings {
    type Error = Refusal;

    ghost try_from_gives = { λ word r. Gives (settings_of word) (first_reserved word) r };

    fn try_from(word: u32) -> Result<Settings, Refusal> {
        Ok(Settings {
            enabled: enabled(word),
            interrupts: interrupts(word),
            mode: TransferMode::try_from(word)?,
            priority: priority(word),
            continuous: continuous(word),
            request: request_source(word),
            shape: Shape::try_from(word)?,
            spaces: Spaces::try_from(word)?,
        })
    }
}
