// Bytes and numbers of two and four bytes, high byte first. Past the end bytes are read as 0, and written nowhere.
ghost use Rattle.std.specs.Prelude.{◌≡◌, ◌+◌, ◌^◌, ◌<◌, slice_set};
ghost use Rattle.tile_bytes.specs.Bytes.{byte, word, number, with_bytes};

// A place among bytes, so small that the bytes after it can be counted from it.
#[derive(Clone, Copy)]
pub(crate) struct Offset {
    pub(crate) at: usize,
    ghost addressable: { at < 2 ^ 63 },
}

pub fn byte_at(bytes: &[u8], at: usize) -> u8
    ensures is_the_byte_or_zero { result ≡ byte bytes.now at }
{
    bytes.get(at).copied().unwrap_or(0)
}

pub fn put_byte(bytes: &mut [u8], at: usize, value: u8)
    ensures writes_the_byte { bytes.new ≡ slice_set bytes.old at value }
{
    if at < bytes.len() {
        bytes[at] = value;
    }
}

pub(crate) fn word_at(bytes: &[u8], offset: Offset) -> u16
    ensures is_the_number_of_two_bytes { result ≡ word bytes.now offset.at }
{
    u16::from_be_bytes(std::array::from_fn(|k| byte_at(bytes, offset.at + k)))
}

pub(crate) fn number_at(bytes: &[u8], offset: Offset) -> i32
    ensures is_the_signed_number_of_four_bytes { result ≡ number bytes.now offset.at }
{
    i32::from_be_bytes(std::array::from_fn(|k| byte_at(bytes, offset.at + k)))
}

// Writes digits one after the other.
pub(crate) fn put_digits(bytes: &mut [u8], offset: Offset, digits: &[u8])
    ensures writes_one_after_the_other { bytes.new ≡ with_bytes bytes.old offset.at digits.now }
{
    for (k, digit) in digits.iter().enumerate() {
        put_byte(bytes, offset.at + k, *digit);
    }
}
