//! Decimal numbers as they stand in texts of addresses.

ghost use Rattle.std.specs.Prelude.{◌≡◌, ◌≢◌, ◌<◌, ◌↔◌, length, slice_index, IsTrue};
ghost use Rattle.net_addresses.specs.Readings.{Reads};
ghost use Rattle.net_addresses.specs.Addresses.{IsNumber};

/// Whether a text begins as a decimal number may: without a plus sign, and with a zero only where nothing follows it.
fn begins_as_number(text: &[u8]) -> bool
    ensures { IsTrue result ↔ ((slice_index text.now 0 ≢ 43) × (slice_index text.now 0 ≡ 48 → length text.now ≡ 1)) }
{
    match text {
        [b'+', ..] => false,
        [b'0', _, ..] => false,
        _ => true,
    }
}

/// The number of at most `most` that a text writes in decimal, without zeros or a sign in front.
pub(crate) fn read_number(text: &str, most: u16) -> Option<u16>
    ensures { Reads (IsNumber most) text.now result }
{
    if !begins_as_number(text.as_bytes()) {
        return None;
    }
    match text.parse::<u16>() {
        Ok(number) if number <= most => Some(number),
        _ => None,
    }
}
