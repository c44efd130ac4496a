// The lines of a run and of its listing, for callers that know the plan's counts to be within their limits and the lengths to be right.
ghost use Rattle.std.specs.Prelude.{◌≡◌, cond, ◌∷◌, ◌++◌, [], ◌+◌, ◌*◌, ◌≤◌, ltb, length, replicate, get_or, take, None, option_map};
ghost use Rattle.array.specs.Index.{joined, from};
ghost use Rattle.array.specs.Code.{placed};
ghost use Rattle.column.specs.Column.{column};
ghost use Rattle.column.specs.Row.{row, numbers_from};
ghost use Rattle.plan.specs.Limits.{most_nodes, most_sensors, most_actuators};
ghost use Rattle.run_line.specs.Line.{run_line_size, printed_widths, printed_size, pattern_width, sensors_at, run_numbers, plane_values_at, agreement_width, refusal_line, refusal_size};
ghost use Rattle.run_line.specs.Listing.{most_run_lines};
ghost use Rattle.run_line.specs.Code.{line_read};

use answer::Refusal;
use plan::Plan;

// A run has at most so many lines.
pub const LINES: usize = 100000;

// A pattern's column, in run lines and in the listing.
const PATTERN: usize = 20;

// Of a run line: where the mask ends, and the fill, behind which the patterns stand.
const MASK: usize = 4;

const FILL: usize = 8;

// Of a listing line: where the frame number ends, and the two counts, behind which the plane values stand.
const FRAME: usize = 8;

const WORKING: usize = 12;

const EQUAL: usize = 16;

// A count's column.
const COUNT: usize = 4;

// Of a refusal's line: where number and line end.
const NUMBER: usize = 4;

const LINE: usize = 12;

// The column of its line number.
const LINE_NUMBER: usize = 8;

// A refusal's line with its line feed.
pub const REFUSAL: usize = LINE + 1;

// ---- a run line

// What stands before the patterns, which are in the array beside it.
#[derive(Clone, Copy)]
pub struct LineHead {
    pub mask: u64,
    pub fill: u64,
}

// The patterns of a line that has its length and its line feed.
fn read_patterns(line: &[u8], count: usize, patterns: &mut [u64; Plan::SENSORS]) -> Option<()>
    requires { (count ≤ most_sensors) × (length line.now ≡ run_line_size count) × (get_or line.now (sensors_at + pattern_width * count) 0 ≡ 10) }
    ensures { option_map (λ _. take count patterns.new) result ≡ numbers_from sensors_at (replicate count pattern_width) line.now }
{
    // Stored whole first: so the proof knows the array's length.
    *patterns = [0; Plan::SENSORS];
    for k in 0..count {
        let at = FILL + PATTERN * k;
        // Lent by itself, so that its ends are constants.
        patterns[k] = column::step::read_wide(&line[at..at + PATTERN], 0, PATTERN)?;
    }
    Some(())
}

// A line under a plan of so many nodes and sensors.
fn read_line(
    line: &[u8],
    nodes: usize,
    sensors: usize,
    patterns: &mut [u64; Plan::SENSORS],
) -> Option<LineHead>
    requires { (nodes ≤ most_nodes) × (sensors ≤ most_sensors) }
    ensures { line_read result (take sensors patterns.new) ≡ run_numbers nodes sensors line.now }
{
    let end = FILL + PATTERN * sensors;
    if line.len() != end + 1 {
        return None;
    }
    if line[end] != b'\n' {
        return None;
    }
    let mask = column::read(line, 0, MASK)?;
    let fill = column::read(line, MASK, FILL)?;
    if mask >> nodes != 0 {
        return None;
    }
    if 255 < fill {
        return None;
    }
    read_patterns(line, sensors, patterns)?;
    Some(LineHead { mask, fill })
}

// The numbers of the line of a frame.
pub fn frame_numbers(
    frame: usize,
    line: &[u8],
    nodes: usize,
    sensors: usize,
    patterns: &mut [u64; Plan::SENSORS],
) -> Option<LineHead>
    requires { (nodes ≤ most_nodes) × (sensors ≤ most_sensors) }
    ensures { line_read result (take sensors patterns.new) ≡ cond (ltb frame most_run_lines) (run_numbers nodes sensors line.now) None }
{
    if LINES <= frame {
        return None;
    }
    read_line(line, nodes, sensors, patterns)
}

pub fn line_size(sensors: usize) -> usize
    requires { sensors ≤ most_sensors }
    ensures { result ≡ run_line_size sensors }
{
    FILL + PATTERN * sensors + 1
}

// ---- a line of the listing

// The plane values, the agreement, and the line feed.
fn put_values(out: &mut [u8], values: &[u64; Plan::ACTUATORS], count: usize, agreement: usize)
    requires { (count ≤ most_actuators) × (printed_size count ≤ length out.old) }
    ensures { out.new ≡ placed out.old plane_values_at (joined (λ a. column pattern_width (get_or values.now a 0)) count ++ (column agreement_width agreement ++ (10 ∷ []))) }
{
    for a in 0..count {
        column_write::step::put(out, EQUAL + PATTERN * a, PATTERN, values[a]);
    }
    let at = EQUAL + PATTERN * count;
    column_write::step::put(out, at, COUNT, agreement as u64);
    out[at + COUNT] = b'\n';
}

// The line of a frame.
pub fn write_frame(
    out: &mut [u8],
    frame: usize,
    working: usize,
    equal: usize,
    values: &[u64; Plan::ACTUATORS],
    count: usize,
    agreement: usize,
)
    requires { (count ≤ most_actuators) × (length out.old ≡ printed_size count) }
    ensures { out.new ≡ row (printed_widths count) (frame ∷ working ∷ equal ∷ (from 0 values.now 0 count ++ (agreement ∷ []))) }
{
    column_write::step::put(out, 0, FRAME, frame as u64);
    column_write::step::put(out, FRAME, COUNT, working as u64);
    column_write::step::put(out, WORKING, COUNT, equal as u64);
    put_values(out, values, count, agreement);
}

// The line of a refusal.
pub fn write_refusal(out: &mut [u8], refusal: Refusal)
    requires { refusal_size ≤ length out.old }
    ensures { out.new ≡ placed out.old 0 (refusal_line refusal) }
{
    column_write::step::put(out, 0, NUMBER, refusal.number() as u64);
    column_write::step::put(out, NUMBER, LINE_NUMBER, refusal.line() as u64);
    out[LINE] = b'\n';
}

pub fn printed_size(actuators: usize) -> usize
    requires { actuators ≤ most_actuators }
    ensures { result ≡ printed_size actuators }
{
    EQUAL + PATTERN * actuators + COUNT + 1
}
