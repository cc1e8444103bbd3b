ghost use Rattle.std.specs.Prelude.{◌≡◌, ℕ, List, ◌++◌, ◌∷◌, [], OnOk};
ghost use Rattle.ilk_log.specs.Packed.{add_zigzag_delta, DecodesToNumbersAndState};

use std::alloc::AllocError;

fn delta(last: u64, number: u64) -> u64
    ensures { add_zigzag_delta last result ≡ number }
{
    let up = number.wrapping_sub(last);
    if up < 1 << 63 {
        2 * up
    } else {
        2 * (u64::MAX - up) + 1
    }
}

#[tactic(auto, using(crate::proofs::Packing::high_told))]
fn push_high(bytes: &mut Vec<u8>, high: u64) -> Result<(), AllocError>
    ensures { OnOk result
        ((numbers : List ℕ) (last : ℕ) → DecodesToNumbersAndState bytes.old.items numbers last 0 →
        DecodesToNumbersAndState bytes.new.items numbers last high) }
{
    if high > 0 {
        push_high(bytes, high / 128)?;
        bytes.push(128 + (high % 128) as u8)?;
    }
    Ok(())
}

#[tactic(auto, using(crate::proofs::Packing::number_told))]
/// Appends the difference of `number` from the number before, `last`, in packed form.
pub(crate) fn push_packed_delta(
    bytes: &mut Vec<u8>,
    last: u64,
    number: u64,
) -> Result<(), AllocError>
    ensures { OnOk result
        ((numbers : List ℕ) → DecodesToNumbersAndState bytes.old.items numbers last 0 →
        DecodesToNumbersAndState bytes.new.items (numbers ++ number ∷ []) number 0) }
{
    let way = delta(last, number);
    push_high(bytes, way / 128)?;
    bytes.push((way % 128) as u8)?;
    Ok(())
}
