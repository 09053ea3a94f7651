//! Runs: leading bytes whose frames one reader of CSV reads as if each were alone.

ghost use Rattle.std.specs.Prelude.{◌≡◌, ◌≤◌, ◌++◌, ℕ, Bool, true, length, take, drop};
ghost use Rattle.csv_frame.specs.Frames.{frames};
ghost use Rattle.csv_frame.specs.Scanning.{ends_piece};
ghost use Rattle.med_prelude.specs.Texts.{Bytes};
ghost use Rattle.csv_runs.specs.Runs.{is_quoted, is_run, mode_after};

use csv_frame::LONGEST_FRAME;

const LINE_FEED: u8 = b'\n';

const RETURN: u8 = b'\r';

const COMMA: u8 = b',';

const QUOTE: u8 = b'"';

// The first byte of a byte order mark.
const MARK: u8 = 0xEF;

// The mode of a reader: what it is in the middle of.
#[derive(Clone, Copy)]
enum Mode {
    FrameStart,
    FieldStart,
    InField,
    InQuotes,
    AfterQuote,
    /// Behind a CR, where only a line feed goes on with a run.
    AfterReturn,
}

impl Mode {
    #[inline(always)]
    fn ends_frame(self, byte: u8) -> bool
        ensures { result ≡ ends_piece (is_quoted self) byte }
    {
        byte == LINE_FEED && !matches!(self, Mode::InQuotes)
    }

    // The mode after a byte that doesn't end its frame. There is none where a run has to stop.
    #[inline(always)]
    fn after(self, byte: u8) -> Option<Mode>
        ensures { result ≡ mode_after self byte }
    {
        match self {
            Mode::FrameStart if byte == MARK => None,
            Mode::InField if byte == QUOTE => None,
            Mode::AfterReturn => None,
            Mode::InQuotes if byte == QUOTE => Some(Mode::AfterQuote),
            Mode::InQuotes => Some(Mode::InQuotes),
            _ if byte == QUOTE => Some(Mode::InQuotes),
            _ if byte == COMMA => Some(Mode::FieldStart),
            _ if byte == RETURN => Some(Mode::AfterReturn),
            _ => Some(Mode::InField),
        }
    }
}

/// How many of the leading bytes are a run: whole lines, each with its line feed, which a `RunReader` reads.
///
/// A frame at which a run stops is read alone; a run may begin again after it.
pub fn run_length(bytes: &[u8]) -> usize
    ensures within { result ≤ length bytes.now }
    ensures run { is_run (take result bytes.now) ≡ true }
    ensures splits { (more : Bytes) (ended : Bool) → frames (bytes.now ++ more) ended ≡ frames (take result bytes.now) true ++ frames (drop result bytes.now ++ more) ended }
    ensures longest { (n : ℕ) → n ≤ length bytes.now → is_run (take n bytes.now) ≡ true → n ≤ result }
{
    let mut end = 0;
    let mut mode = Mode::FrameStart;
    'bytes: for (at, byte) in bytes.iter().enumerate() {
        if mode.ends_frame(*byte) {
            end = at + 1;
            mode = Mode::FrameStart;
        } else if at - end == LONGEST_FRAME {
            return end;
        } else {
            match mode.after(*byte) {
                Some(next) => mode = next,
                None => return end,
            }
        }
    }
    end
}
