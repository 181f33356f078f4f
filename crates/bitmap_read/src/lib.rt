// Finding the bitmaps of an input, wherever they start. 01, "The message".
#![tactic(auto)]

ghost use Rattle.std.specs.Prelude.{◌≡◌};
ghost use Rattle.bitmap_read.specs.Found.{bitmaps_read};

use refusal::{Cause, Refusal};

// Finds how many bitmaps an input has, the first at start, each of them whole.
#[tactic(auto, unfolding(crate::specs::Found::bitmaps_read), using(octets::proofs::Parts::to_end))]
pub fn read_bitmaps(input: &[u8], start: usize) -> Result<usize, Refusal>
    ensures { result ≡ bitmaps_read start 3 input.now }
{
    let left = input.len().saturating_sub(start);
    if left < 8 {
        return Err(Cause::BitmapIncomplete.at(0, start));
    }
    let maps = &input[start..];
    if !bitmap::is_set(maps, 1) {
        return Ok(1);
    }
    if left < 16 {
        return Err(Cause::BitmapIncomplete.at(0, start + 8));
    }
    if !bitmap::is_set(maps, 65) {
        return Ok(2);
    }
    if left < 24 {
        return Err(Cause::BitmapIncomplete.at(0, start + 16));
    }
    Ok(3)
}
