// A program's input and output. A call that fails is never taken for the end of the input, and one that a signal
// interrupted is made again.
#![tactic(auto)]

ghost use Rattle.std.specs.Prelude.{◌-◌, ◌≤◌, ◌≡◌, length};
ghost use Rattle.streams.specs.Transfers.{told_by, standing_at, interrupted_at, after_call, after_read, after_write, ended_by, Bounded, Within, Entire};

use std::io;
use std::io::{Error, ErrorKind, Read, Write};

// How often one transfer is interrupted before that counts as a failure: never, but every function must end.
const PATIENCE: u64 = 18446744073709551615;

// What one call of the system says: it moved so many bytes, a signal interrupted it, or it failed. No Result: an interruption is no
// failure, and the definitions speak of these three.
#[derive(Clone, Copy)]
enum Answer {
    Bytes(usize),
    Interrupted,
    Error,
}

// Where a transfer stands: so many bytes are moved and so many interruptions are left; or it has ended, and is whole with so many bytes, or a call failed.
#[derive(Clone, Copy)]
enum Progress {
    Going(usize, u64),
    Ended(Option<usize>),
}

// Where a transfer stands with `done` of its `size` bytes moved.
fn standing(size: usize, done: usize, spare: u64) -> Progress
    ensures { result ≡ standing_at size done spare }
{
    if done < size {
        Progress::Going(done, spare)
    } else {
        Progress::Ended(Some(done))
    }
}

// Where a transfer stands after a call that was interrupted.
fn interrupted(done: usize, spare: u64) -> Progress
    ensures { result ≡ interrupted_at done spare }
{
    if 0 < spare {
        Progress::Going(done, spare - 1)
    } else {
        Progress::Ended(None)
    }
}

// What a call says by its answer.
fn told(got: io::Result<usize>) -> Answer
    ensures { result ≡ told_by got }
{
    match got {
        Ok(count) => Answer::Bytes(count),
        Err(e) => match e.kind() {
            ErrorKind::Interrupted => Answer::Interrupted,
            _ => Answer::Error,
        },
    }
}

// Where a transfer stands after a call; `end` is how it ends if the call moved no byte.
fn after(size: usize, done: usize, spare: u64, answer: Answer, end: Option<usize>) -> Progress
    requires { (done ≤ size) × Bounded (size - done) answer }
    ensures { result ≡ after_call size done spare answer end }
{
    match answer {
        Answer::Bytes(count) => {
            if count == 0 {
                Progress::Ended(end)
            } else {
                standing(size, done + count, spare)
            }
        }
        Answer::Interrupted => interrupted(done, spare),
        Answer::Error => Progress::Ended(None),
    }
}

// Where a reading stands after a read: one that moved no byte has met the end of the input.
fn after_read(size: usize, done: usize, spare: u64, answer: Answer) -> Progress
    requires { (done ≤ size) × Bounded (size - done) answer }
    ensures { result ≡ after_read size done spare answer }
{
    after(size, done, spare, answer, Some(done))
}

// Where a writing stands after a write: one that moved no byte has failed.
fn after_write(size: usize, done: usize, spare: u64, answer: Answer) -> Progress
    requires { (done ≤ size) × Bounded (size - done) answer }
    ensures { result ≡ after_write size done spare answer }
{
    after(size, done, spare, answer, None)
}

// What the caller is told of a transfer: the number of its bytes, or the reason why a call failed.
fn ended(transfer: Option<usize>, reason: Error) -> io::Result<usize>
    ensures { result ≡ ended_by transfer reason }
{
    transfer.ok_or(reason)
}

// Reads until `buf` is full or the input ends, and answers the number of bytes; or that a read failed.
pub fn read_input<R: Read>(input: &mut R, buf: &mut [u8]) -> io::Result<usize>
    ensures { Within (length buf.new) result }
{
    let size = buf.len();
    let mut reason = Error::from(ErrorKind::UnexpectedEof);
    let mut progress = standing(size, 0, PATIENCE);
    // No `for`: it ends by what the system says.
    loop {
        match progress {
            Progress::Ended(transfer) => return ended(transfer, reason),
            Progress::Going(done, spare) => {
                let got = input.read(&mut buf[done..]);
                reason = got.err().unwrap_or(reason);
                progress = after_read(size, done, spare, told(got));
            }
        }
    }
}

// Writes all of `buf`, and answers the number of bytes; or that a write failed, when some of them may have been written. The loop is that of
// `read_input`, over a buffer that is lent to be read: one function of both would be lent both ways and be longer than either.
pub fn write_output<W: Write>(output: &mut W, buf: &[u8]) -> io::Result<usize>
    ensures { Entire (length buf.now) result }
{
    let size = buf.len();
    let mut reason = Error::from(ErrorKind::WriteZero);
    let mut progress = standing(size, 0, PATIENCE);
    loop {
        match progress {
            Progress::Ended(transfer) => return ended(transfer, reason),
            Progress::Going(done, spare) => {
                let got = output.write(&buf[done..]);
                reason = got.err().unwrap_or(reason);
                progress = after_write(size, done, spare, told(got));
            }
        }
    }
}
