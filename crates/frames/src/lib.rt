// Frames of bytes written as lines of capital hexadecimal, each with a check byte.
#![tactic(auto)]

ghost use Rattle.std.specs.Prelude.{◌≡◌, ◌+◌, ◌*◌, ◌<◌, ◌≤◌, length, MatchOption};
ghost use Rattle.frames.specs.Frames.{hex_digit, hex_byte, check_byte, frame_line, fault_frame, two_bytes, four_bytes, over};

use faults::fault::Fault;

fn hex_digit(n: u8) -> u8
    requires { n < 16 }
    ensures is_the_capital_digit { result ≡ hex_digit n }
{
    if n < 10 { n + b'0' } else { n - 10 + b'A' }
}

fn put_byte(out: &mut [u8], at: usize, b: u8)
    requires { at + 2 ≤ length out.old }
    ensures writes_two_digits { out.new ≡ over out.old at (hex_byte b) }
{
    out[at] = hex_digit(b / 16);
    out[at + 1] = hex_digit(b % 16);
}

// The byte that makes the sum of a frame's bytes a multiple of 256.
fn check_byte(frame: &[u8]) -> u8
    ensures is_the_check_byte { result ≡ check_byte frame.now }
{
    let sum = frame.iter().fold(0u8, |sum, b| sum.wrapping_add(*b));
    0u8.wrapping_sub(sum)
}

// Writes the line of a frame that is known to have room, and answers where it ends.
fn put_line(out: &mut [u8], at: usize, frame: &[u8]) -> usize
    requires { at + (2 * length frame.now + 3) ≤ length out.old }
    ensures writes_the_line { out.new ≡ over out.old at (frame_line frame.now) }
    ensures answers_its_end { result ≡ at + (2 * length frame.now + 3) }
{
    for (i, b) in frame.iter().enumerate() {
        put_byte(out, at + 2 * i, *b);
    }
    let end = at + 2 * frame.len();
    put_byte(out, end, check_byte(frame));
    out[end + 2] = b'\n';
    end + 3
}

// Writes the line of a frame at a place of the output and answers where it ends, or none where there is no room for it.
pub fn write_line(out: &mut [u8], at: usize, frame: &[u8]) -> Option<usize>
    ensures writes_the_line_where_it_fits { MatchOption result
        ((length out.old < at + (2 * length frame.now + 3)) × (out.new ≡ out.old))
        (λ end. (at + (2 * length frame.now + 3) ≤ length out.old) × (end ≡ at + (2 * length frame.now + 3))
        × (out.new ≡ over out.old at (frame_line frame.now))) }
{
    let room = out.len();
    if at > room || room - at < 3 || (room - at - 3) / 2 < frame.len() {
        return None;
    }
    Some(put_line(out, at, frame))
}

// The two low bytes of a number, high byte first.
pub fn two_bytes(n: usize) -> [u8; 2]
    ensures are_the_two_low_bytes { result ≡ two_bytes n }
{
    ((n % 0x1_0000) as u16).to_be_bytes()
}

// The four low bytes of a number, high byte first.
pub fn four_bytes(n: usize) -> [u8; 4]
    ensures are_the_four_low_bytes { result ≡ four_bytes n }
{
    ((n % 0x1_0000_0000) as u32).to_be_bytes()
}

// 04, number, layer and place.
fn fault_frame(fault: Fault) -> [u8; 7]
    ensures is_the_frame_of_the_fault { result ≡ fault_frame fault }
{
    let [p3, p2, p1, p0] = four_bytes(fault.place());
    [4, fault.number(), fault.layer().number(), p3, p2, p1, p0]
}

// The line of a fault.
pub fn fault_line(fault: Fault) -> [u8; 17]
    ensures is_the_line_of_the_fault { result ≡ frame_line (fault_frame fault) }
{
    let frame = fault_frame(fault);
    let mut line = [0u8; 17];
    put_line(&mut line, 0, &frame);
    line
}
