//! Byte order marks at a frame's start, and frames that are skipped.

ghost use Rattle.std.specs.Prelude.{◌≡◌, ◌≤◌, length, drop};
ghost use Rattle.csv_frame.specs.Frames.{is_blank, without_marks};
ghost use Rattle.csv_frame.specs.Marks.{begins_with_mark};

fn begins_with_mark(bytes: &[u8]) -> bool
    ensures { result ≡ begins_with_mark bytes.now }
{
    matches!(bytes, [0xEF, 0xBB, 0xBF, ..])
}

/// Where a frame begins after its marks.
pub fn marks_end(frame: &[u8]) -> usize
    ensures within { result ≤ length frame.now }
    ensures rest { drop result frame.now ≡ without_marks frame.now }
{
    let mut end = 0;
    'marks: while begins_with_mark(&frame[end..]) {
        end += 3;
    }
    end
}

/// Whether a frame without marks is skipped: it is empty, or only CR.
pub fn is_blank(frame: &[u8]) -> bool
    ensures { result ≡ is_blank frame.now }
{
    matches!(frame, [] | [b'\r'])
}
