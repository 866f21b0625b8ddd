// The input of a replay, part by part.
ghost use Rattle.std.specs.Prelude.{◌≡◌, ◌≤◌, length};
ghost use Rattle.program_replay.specs.Promises.{head_part, value_part, PartRead};

use sets::number::BigEndian;
use std::io::Read;
use streams::Failed;

// Why a part is not there as a whole.
#[derive(Clone, Copy, Debug, PartialEq, Eq)]
pub enum PartError {
    // a head or a value does not stand whole
    Cut,
    // a read failed
    Failed,
}

impl From<Failed> for PartError {
    ghost use Rattle.program_replay.specs.declared.input.PartError.TheVariants as Fails;

    ghost from_gives = { λ _ error. error ≡ Fails.Failed };

    fn from(_: Failed) -> PartError {
        PartError::Failed
    }
}

// What was read of a head of so many bytes; none where nothing stands there.
fn head_part(got: Result<usize, Failed>, size: usize) -> Result<Option<usize>, PartError>
    ensures { result ≡ head_part got size }
{
    match got? {
        0 => Ok(None),
        n if n < size => Err(PartError::Cut),
        n => Ok(Some(n)),
    }
}

// What was read of a value of so many bytes.
fn value_part(got: Result<usize, Failed>, size: usize) -> Result<usize, PartError>
    ensures { result ≡ value_part got size }
{
    if got? < size {
        return Err(PartError::Cut);
    }
    Ok(size)
}

// Reads a head, and a value of the length that the head's last two bytes give, and answers that length; none where nothing stands there.
// Any such length has room in `value`.
pub fn read_part<E: Eprint, R: Read>(
    rt: &E,
    input: &mut R,
    head: &mut [u8],
    value: &mut [u8],
) -> Result<Option<usize>, PartError>
    requires { (2 ≤ length head.old) × (65535 ≤ length value.old) }
    ensures { PartRead head.new value.new result }
{
    let got = streams::fill(rt, input, head);
    if head_part(got, head.len())?.is_none() {
        return Ok(None);
    }
    let size = usize::from(u16::get(head, head.len() - 2));
    let more = streams::fill(rt, input, &mut value[..size]);
    value_part(more, size).map(Some)
}
