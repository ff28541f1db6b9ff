//! Whether a stored response leaves room in its head for the lines that are added where it is sent.
//!
//! The definition is in `specs/Room.antt`. No function here allocates.
ghost use Rattle.std.specs.Prelude.{◌≡◌, ◌-◌, nat_le, length, cond, Some, None};
ghost use Rattle.hx_framing.specs.Text.{field_line_text};
ghost use Rattle.hx_validate.specs.Room.{head_leaves_room};

use hx_fields::{Field, Fields};

/// Lines of a head of 100 beside the four that may be added.
const MOST_LINES: usize = 96;

/// Bytes of all lines of a head of 32,768 bytes, beside 256 for the status line and what may be added.
const MOST_BYTES: usize = 32_512;

/// The bytes of a line beside its name and value: a colon, a space, and the line's end.
const BYTES_BESIDE: usize = 4;

/// What a line leaves of so many bytes.
fn room_left_after_line(room: usize, line: &Field) -> Option<usize>
    ensures { result
        ≡ cond (nat_le (length (field_line_text line.now)) room)
        (Some (room - length (field_line_text line.now))) None }
{
    room.checked_sub(BYTES_BESIDE)?
        .checked_sub(line.name().len())?
        .checked_sub(line.value().len())
}

/// Whether lines are so few and short that what is added to them, where they are sent, stays within
/// the limits of a head.
pub fn head_leaves_room(fields: &Fields) -> bool
    ensures { result ≡ head_leaves_room fields.now }
{
    let lines = fields.as_slice();
    if lines.len() > MOST_LINES {
        return false;
    }
    let mut room = MOST_BYTES;
    for line in lines {
        match room_left_after_line(room, line) {
            Some(left) => room = left,
            None => return false,
        }
    }
    true
}
