// House files.
ghost use Rattle.std.specs.Prelude.{◌≡◌};
ghost use Rattle.house_file.specs.Files.{shape_of_file, read_file};
ghost use Rattle.house_writer.specs.Writing.{write_file};
ghost use Rattle.house_writer.specs.Rewriting.{rewrite_file};
ghost use Rattle.answers.specs.Returned.{returned};
ghost use Rattle.answers.specs.Answers.{of_reading, of_named, of_writing};

// A file's rates into the first places of the table, and its shape.
#[unsafe(no_mangle)]
pub extern "C" fn numolefays_read_house_file(
    bytes: &[u8],
    table: &mut [i64],
    axes: &mut u32,
    level: &mut u32,
    place: &mut u64,
) -> u32
    ensures { returned result place.new (axes.new, level.new, table.new) ≡ of_reading (axes.old, level.old) (read_file bytes.now table.old) }
{
    let answer = house_file::read(bytes, table);
    if let Ok(shape) = answer {
        *axes = shape.axes;
        *level = shape.level;
    }
    answers::tell(answer, place)
}

// The shape that a file names and its number of points, from the first two numbers alone.
#[tactic(auto, using(house_file::proofs::Heads::shape_passes))]
#[unsafe(no_mangle)]
pub extern "C" fn numolefays_house_file_shape(
    bytes: &[u8],
    axes: &mut u32,
    level: &mut u32,
    points: &mut u64,
    place: &mut u64,
) -> u32
    ensures { returned result place.new (axes.new, level.new, points.new) ≡ of_named (axes.old, level.old, points.old) (shape_of_file bytes.now) }
{
    let answer = house_file::shape_of(bytes);
    if let Ok(named) = answer {
        *axes = named.shape.axes;
        *level = named.shape.level;
        *points = named.points();
    }
    answers::tell(answer, place)
}

// The file of a shape with a zero border and its rates into the first bytes of `out`, and its length.
#[unsafe(no_mangle)]
pub extern "C" fn numolefays_write_house_file(
    axes: u32,
    level: u32,
    rates: &[i64],
    out: &mut [u8],
    length: &mut u64,
    place: &mut u64,
) -> u32
    ensures { returned result place.new (length.new, out.new) ≡ of_writing length.old (write_file axes level rates.now out.old) }
{
    let answer = house_writer::write(axes, level, rates, out);
    answers::hand_length(answer, length, place)
}

// The one form of a file of at most so many points into the first bytes of `out`, and its length.
#[unsafe(no_mangle)]
pub extern "C" fn numolefays_rewrite_house_file(
    bytes: &[u8],
    most: usize,
    out: &mut [u8],
    length: &mut u64,
    place: &mut u64,
) -> u32
    ensures { returned result place.new (length.new, out.new) ≡ of_writing length.old (rewrite_file most bytes.now out.old) }
{
    let answer = house_writer::rewrite(bytes, most, out);
    answers::hand_length(answer, length, place)
}
