//! Reads the numbers in the bytes of a packed step. Each is stored as its difference from the one
//! before, because the numbers of a step are mostly near each other. The difference is twice the
//! way up, or one less than twice the way down, in 64 bits. It takes seven bits a byte, high bits
//! first; each byte but the last has 128 added.

ghost use Rattle.std.specs.Prelude.{◌≡◌, ◌∷◌, [], drop, IfSome, IfNone};
ghost use Rattle.ilk_log.specs.Packed.{shift_in_seven_bits, add_zigzag_delta, decoded_numbers};

fn shift_in_seven_bits(way: u64, bits: u8) -> u64
    ensures { result ≡ shift_in_seven_bits way bits }
{
    way.wrapping_mul(128).wrapping_add(bits as u64)
}

fn add_zigzag_delta(last: u64, way: u64) -> u64
    ensures { result ≡ add_zigzag_delta last way }
{
    if way % 2 == 0 {
        last.wrapping_add(way / 2)
    } else {
        last.wrapping_add(u64::MAX - way / 2)
    }
}

/// Returns the number whose difference from the number `last` begins at byte `at`, and the index of
/// the byte after it. Returns `None` if the bytes end before.
pub(crate) fn decode_number_from_delta(bytes: &[u8], at: usize, last: u64) -> Option<(u64, usize)>
    ensures some { IfSome result
        (λ r. decoded_numbers last 0 (drop at bytes.now)
        ≡ r.0 ∷ decoded_numbers r.0 0 (drop r.1 bytes.now)) }
    ensures none { IfNone result (decoded_numbers last 0 (drop at bytes.now) ≡ []) }
{
    let mut way = 0;
    let mut next = at;
    'bytes: while next < bytes.len() {
        let byte = bytes[next];
        next += 1;
        if byte < 128 {
            return Some((add_zigzag_delta(last, shift_in_seven_bits(way, byte)), next));
        }
        way = shift_in_seven_bits(way, byte - 128);
    }
    None
}
