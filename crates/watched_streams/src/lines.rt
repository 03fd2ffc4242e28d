//! Text that is gathered line by line until it is written.
ghost use Rattle.std.specs.Prelude.{◌≡◌, ◌≤◌, ◌+◌, ◌++◌, length, decimal};
ghost use Rattle.arrayvec.specs.ArrayVec.{array_vec_len};

use arrayvec::ArrayVec;
use itoa::Buffer;

/// The most bytes of lines that wait.
pub const GATHERED: usize = 8192;

/// Room for the lines of one event: they have no more bytes than this.
pub const LONGEST: usize = 256;

/// Lines that wait to be written.
pub type Lines = ArrayVec<u8, GATHERED>;

/// Adds a text, for which there is room.
pub fn add(lines: &mut Lines, text: &[u8])
    requires { array_vec_len lines.old + length text.now ≤ GATHERED }
    ensures items { lines.new.items ≡ lines.old.items ++ text.now }
    ensures len { array_vec_len lines.new ≡ array_vec_len lines.old + length text.now }
{
    if lines.try_extend_from_slice(text).is_err() {
        unreachable!();
    }
}

/// Adds a number in decimal.
pub fn add_number(lines: &mut Lines, n: u32)
    requires { array_vec_len lines.old + 10 ≤ GATHERED }
    ensures items { lines.new.items ≡ lines.old.items ++ decimal n }
    ensures len { array_vec_len lines.new ≤ array_vec_len lines.old + 10 }
{
    if n < 10 {
        lines.push(b'0' + n as u8);
    } else if n < 100 {
        lines.push(b'0' + (n / 10) as u8);
        lines.push(b'0' + (n % 10) as u8);
    } else {
        let mut buffer = Buffer::new();
        add(lines, buffer.format(n).as_bytes());
    }
}
