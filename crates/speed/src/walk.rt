// The plain way to the largest delay: every instance of the last stage, each followed back to the first stage. A step
// back is the search's, which keeps its own private; plain is that every instance is looked at.
use stage::LawfulRow;

// The instance of the writer that the reader's instance at `time` reads from.
fn writer_at(writer: &LawfulRow, waits: bool, time: u64) -> Option<u64> {
    let last = writer.next(time.saturating_add(1)).checked_sub(1)?;
    if waits || writer.stop(last)? <= time {
        Some(last)
    } else {
        last.checked_sub(1)
    }
}

// The delay of the path that ends at instance `j` of the last stage, from the start of its first instance.
fn delay_to(rows: &[LawfulRow], j: u64) -> Option<u64> {
    let last = rows.last()?;
    let mut time = last.start(j)?;
    for [writer, reader] in rows.array_windows::<2>().rev() {
        let waits = reader.row().rank < writer.row().rank;
        let i = writer_at(writer, waits, time)?;
        time = writer.start(i)?;
    }
    last.stop(j)?.checked_sub(time)
}

// The largest delay of the paths that end with one of the first `count` instances of the last stage.
pub fn largest(rows: &[LawfulRow], count: u64) -> u64 {
    (0..count)
        .filter_map(|j| delay_to(rows, j))
        .max()
        .unwrap_or(0)
}
