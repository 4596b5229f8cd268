// The memory of the console: a flat memory below address 000100, and a packed one in Y above it.
ghost use Rattle.std.specs.Prelude.{◌≡◌, IfOk};
ghost use Rattle.memory.specs.Border.{border_of};
ghost use Rattle.memory.specs.Flat.{flat_meaning};
ghost use Rattle.memory.specs.Packed.{packed_meaning};
ghost use Rattle.dmarun.specs.Console.{console, Image, image_word};

use memory::border::Border;
use memory::flat::{Flat, FlatSizes};
use memory::packed::{Packed, PackedSizes};
use memory::place::Space;
use std::alloc::{AllocError, Global};

// The first address of the packed memory.
const BORDER: u32 = 0x100;

// The words of a space of the flat memory.
const WORDS: u32 = 0x100;

// The first fixed place of P.
const FIXED: u32 = 0x80;

// The words of the packed memory.
const PACKED: u32 = 64;

// The word at an index of the list of X, Y and P: each fixed place, 80 to FF of P and so 280 to 2FF of the list, holds its own address; all else is 0.
fn image_word(index: u32) -> u32
    ensures value { result ≡ image_word index }
{
    match index {
        0x280..=0x2FF => index - 2 * WORDS,
        _ => 0,
    }
}

fn image(heap: Global) -> Result<Vec<u32>, AllocError>
    ensures value { IfOk result (λ v. Image v.items) }
{
    (0..3 * WORDS).map(image_word).collect(heap)
}

pub fn memory(heap: Global) -> Result<Border<Flat, Packed>, AllocError>
    ensures meaning { IfOk result (λ m. border_of m.border (flat_meaning m.low) (packed_meaning m.high) ≡ console) }
{
    let flat = FlatSizes {
        x: WORDS,
        y: WORDS,
        p: WORDS,
        fixed_from: FIXED,
    };
    let packed = PackedSizes {
        space: Space::Y,
        base: BORDER,
        count: PACKED,
    };
    let words = image(heap)?;
    let bytes = vec![in heap; 0u8; 192]?;
    Ok(Border {
        low: Flat::new(words, flat),
        high: Packed::new(bytes, packed),
        border: BORDER,
    })
}
