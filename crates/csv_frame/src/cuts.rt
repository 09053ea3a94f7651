//! Where the frame at hand ends. A frame is found byte by byte, in a mode that says whether quotes are open.

ghost use Rattle.csv_frame.specs.Scanning.{HoldsCut, IsCut, IsScanned};

/// The most bytes of a frame, its byte order marks counted.
pub const LONGEST_FRAME: usize = 4_194_304;

const LINE_FEED: u8 = b'\n';

const QUOTE: u8 = b'"';

/// How far the frame at hand was looked through, and whether quotes are open there.
#[derive(Clone, Copy, Debug)]
pub struct Scan {
    pub seen: usize,
    pub quoted: bool,
}

impl Scan {
    pub const FRESH: Scan = Scan {
        seen: 0,
        quoted: false,
    };
}

// What a scan came upon.
enum Scanned {
    /// The line feed that ends the frame, at this offset.
    LineFeed(usize),
    TooLong,
    /// The end of the bytes.
    All,
}

/// The frame at the start of the bytes.
pub enum Cut {
    /// It has so many bytes, and the next one begins at `next`.
    Whole { end: usize, next: usize },
    TooLong,
    Nothing,
}

/// Looks through bytes that weren't looked through yet, up to the frame's end.
fn scan_on(bytes: &[u8], scan: &mut Scan) -> Scanned
    requires { IsScanned bytes.now scan.old }
    ensures scan { IsScanned bytes.now scan.new }
    ensures found { HoldsCut bytes.now scan.new result }
{
    let mut quoted = scan.quoted;
    let mut at = scan.seen;
    'bytes: while at < bytes.len() {
        let byte = bytes[at];
        if byte == LINE_FEED && !quoted {
            *scan = Scan { seen: at, quoted };
            return Scanned::LineFeed(at);
        }
        if at == LONGEST_FRAME {
            *scan = Scan { seen: at, quoted };
            return Scanned::TooLong;
        }
        if byte == QUOTE {
            quoted = !quoted;
        }
        at += 1;
    }
    *scan = Scan { seen: at, quoted };
    Scanned::All
}

/// The frame at the start of the bytes, of which some were looked through before.
pub fn next_cut(bytes: &[u8], scan: &mut Scan, ended: bool) -> Cut
    requires { IsScanned bytes.now scan.old }
    ensures scan { IsScanned bytes.now scan.new }
    ensures cut { IsCut bytes.now ended result }
{
    match scan_on(bytes, scan) {
        Scanned::LineFeed(end) => Cut::Whole { end, next: end + 1 },
        Scanned::TooLong => Cut::TooLong,
        Scanned::All => {
            if !ended {
                return Cut::Nothing;
            }
            if bytes.is_empty() {
                return Cut::Nothing;
            }
            Cut::Whole {
                end: bytes.len(),
                next: bytes.len(),
            }
        }
    }
}
