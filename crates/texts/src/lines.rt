// The lines of a report, each put at the start of a buffer; how many characters were put is answered.
ghost use Rattle.std.specs.Prelude.{◌*◌, ◌≤◌, length};
ghost use Rattle.texts.specs.Text.{heading_of, point_line, point_lines, refused_line};
ghost use Rattle.buffers.specs.Put.{Put};

use crate::pieces::{put, put_named, put_number};
use refusals::Refusal;
use shapes::Shape;

// The first line: d, n and N.
pub fn put_heading(shape: Shape, count: u64, out: &mut [u8]) -> usize
    requires { 81 ≤ length out.old }
    ensures put { Put (heading_of shape.axes shape.level count) out.old 0 out.new result }
    ensures most { result ≤ 81 }
{
    let mut end = put_named(b"axes ", u64::from(shape.axes), out);
    end += put_named(b" level ", u64::from(shape.level), &mut out[end..]);
    end += put_named(b" points ", count, &mut out[end..]);
    end + put(b"\n", &mut out[end..])
}

// A point's number and its coefficient.
pub fn put_point(point: u64, value: i64, out: &mut [u8]) -> usize
    requires { 43 ≤ length out.old }
    ensures put { Put (point_line point value) out.old 0 out.new result }
    ensures most { result ≤ 43 }
{
    let mut end = put_number(point, out);
    end += put(b" ", &mut out[end..]);
    end += put_number(value, &mut out[end..]);
    end + put(b"\n", &mut out[end..])
}

// A line for each point.
pub fn put_points(table: &[i64], out: &mut [u8]) -> usize
    requires { 43 * length table.now ≤ length out.old }
    ensures put { Put (point_lines 0 table.now) out.old 0 out.new result }
    ensures most { result ≤ 43 * length table.now }
{
    let mut end = 0;
    for (p, value) in table.iter().enumerate() {
        end += put_point(p as u64, *value, &mut out[end..]);
    }
    end
}

// The one line of a refused file.
pub fn put_refused(why: Refusal, out: &mut [u8]) -> usize
    requires { 81 ≤ length out.old }
    ensures { Put (refused_line why) out.old 0 out.new result }
{
    let end = put_named(b"refused ", u64::from(why.number()), out);
    end + put(b"\n", &mut out[end..])
}
