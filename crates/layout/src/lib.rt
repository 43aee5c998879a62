// The bytes of a record: a byte for each mark, four for each number and two for each tempo, high byte first.
#![tactic(auto)]

ghost use Rattle.std.specs.Prelude.{◌≡◌, false, ◌+◌, ◌-◌, ◌*◌, ◌/◌, ◌%◌, ◌≤◌, ◌++◌, length, get_or, drop};
ghost use Rattle.layout.specs.Layout.{record_length, bit, byte_in, record_bytes, Puts};

use model::Machine;

// The bytes of a record.
pub const RECORD: usize = 1056;

// Byte k of a number's four, high byte first.
fn byte_of(n: u32, k: usize) -> u8
    ensures { result ≡ byte_in n k }
{
    match k {
        0 => (n / 16777216 % 256) as u8,
        1 => (n / 65536 % 256) as u8,
        2 => (n / 256 % 256) as u8,
        _ => (n % 256) as u8,
    }
}

// A byte for each mark, from a place of the buffer on.
fn put_marks(marks: &[bool], out: &mut [u8], at: usize)
    requires { at + length marks.now ≤ length out.old }
    ensures { Puts (length marks.now) (λ k. bit (get_or marks.now k false)) at out.old out.new }
{
    for (k, mark) in marks.iter().enumerate() {
        out[at + k] = u8::from(*mark);
    }
}

// The last `width` bytes of each number, from a place of the buffer on.
fn put_numbers(numbers: &[u32], width: usize, out: &mut [u8], at: usize)
    requires { (1 ≤ width) × (width ≤ 4) × (length numbers.now ≤ 32) × (at + width * length numbers.now ≤ length out.old) }
    ensures { Puts (width * length numbers.now) (λ k. byte_in (get_or numbers.now (k / width) 0) (k % width + (4 - width))) at out.old out.new }
{
    for k in 0..width * numbers.len() {
        out[at + k] = byte_of(numbers[k / width], k % width + (4 - width));
    }
}

// A machine's record into a buffer that takes it.
pub fn put_record(m: Machine, out: &mut [u8])
    requires { record_length ≤ length out.old }
    ensures { out.new ≡ record_bytes m ++ drop record_length out.old }
{
    put_marks(&m.awake, out, 0);
    put_numbers(&m.used, 4, out, 32);
    put_marks(&m.waiting, out, 160);
    put_marks(&m.dropped, out, 416);
    put_numbers(&m.ages, 4, out, 672);
    put_numbers(&m.fastest, 2, out, 736);
    put_marks(&m.again, out, 768);
    put_marks(&m.late, out, 800);
}
